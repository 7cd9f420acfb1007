//! What is asked before an office goes on.

use office_map::OfficeId;

/// Is called by the threads of a run, so that a test can hold one until another has gone on.
pub trait Gate {
    /// Before each turn of this office.
    fn before(&self, office: OfficeId);

    /// Before a thread is started: whether it may be.
    fn may_start(&self) -> bool {
        true
    }
}

/// Holds nobody.
#[derive(Clone, Copy)]
pub struct Open;

impl Gate for Open {
    fn before(&self, _office: OfficeId) {}
}
