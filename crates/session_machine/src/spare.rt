//! The memory of work that ended.

use crate::state::State;

/// The memory of work that ended, for other work. Contracts see nothing of it: whatever stood there, other work begins in
/// it as in memory of its own.
#[derive(Drop)]
pub struct Spare {
    pub(crate) state: Box<State>,
}
