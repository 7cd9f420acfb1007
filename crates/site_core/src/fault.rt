//! Why an office isn't opened again.

ghost use Rattle.std.specs.Prelude.{◌≡◌};
ghost use Rattle.site_core.specs.declared.fault.ReopenFault.TheVariants as faults;

use std::alloc::AllocError;
use thiserror::Error;

/// Why an office isn't opened again from a journal.
#[derive(Clone, Copy, Debug, PartialEq, Eq, Error)]
pub enum ReopenFault {
    /// The office gives so many of the entries, and not the next.
    #[error("the office gives {0} entries, and not the next")]
    NotGiven(usize),
    #[error("out of memory")]
    Memory,
}

impl From<AllocError> for ReopenFault {
    ghost from_gives = { λ _ e. e ≡ faults.Memory };

    fn from(_e: AllocError) -> ReopenFault {
        ReopenFault::Memory
    }
}
