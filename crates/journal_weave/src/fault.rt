//! Why no schedule is woven.

ghost use Rattle.std.specs.Prelude.{◌≡◌};
ghost use Rattle.journal_weave.specs.declared.fault.WeaveFault.TheVariants as faults;

use office_map::OfficeId;
use std::alloc::{AllocError, AllocFailed};
use thiserror::Error;

/// Why no schedule is woven from journals.
#[derive(Clone, Copy, Debug, PartialEq, Eq, Error)]
pub enum WeaveFault {
    /// No schedule has this entry of the office's journal, from 1, though one has all entries before it.
    #[error("no schedule has entry {entry} of office {}", .office.number())]
    Unwoven { office: OfficeId, entry: usize },
    #[error("out of memory")]
    Memory,
}

impl From<AllocError> for WeaveFault {
    ghost from_gives = { λ _ e. e ≡ faults.Memory };

    fn from(_e: AllocError) -> WeaveFault {
        WeaveFault::Memory
    }
}

impl<T: Drop> From<AllocFailed<T>> for WeaveFault {
    ghost from_gives = { λ _ e. e ≡ faults.Memory };

    fn from(_e: AllocFailed<T>) -> WeaveFault {
        WeaveFault::Memory
    }
}
