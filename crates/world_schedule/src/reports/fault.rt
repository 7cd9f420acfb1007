//! Why something isn't told to its end.

ghost use Rattle.std.specs.Prelude.{◌≡◌};
ghost use Rattle.world_schedule.specs.declared.reports.fault.TellingFault.TheVariants as faults;

use std::alloc::AllocError;
use std::io::ErrorKind;

/// Why something isn't told to its end, where it is written as it comes.
#[derive(Clone, Copy, Debug, PartialEq, Eq)]
pub enum TellingFault {
    /// Memory ran out, and nothing was written.
    Memory,
    /// The writing failed, or memory ran out after some went out. How much did isn't known.
    WriteFailed(ErrorKind),
}

impl From<AllocError> for TellingFault {
    ghost from_gives = { λ _ e. e ≡ faults.Memory };

    fn from(_e: AllocError) -> TellingFault {
        TellingFault::Memory
    }
}
