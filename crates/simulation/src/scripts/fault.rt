//! Why a script isn't read.

ghost use Rattle.std.specs.Prelude.{◌≡◌};
ghost use Rattle.simulation.specs.declared.scripts.fault.ScriptFault.TheVariants as faults;

use std::alloc::{AllocError, AllocFailed};

/// The first faulty line of a script: from 1, or 0 where the text is too long.
#[derive(Clone, Copy, Debug, PartialEq, Eq)]
pub struct ScriptRefusal {
    pub line: u64,
}

/// Why a script isn't read.
#[derive(Clone, Copy, Debug, PartialEq, Eq)]
pub enum ScriptFault {
    Refused(ScriptRefusal),
    Memory,
}

impl From<AllocError> for ScriptFault {
    ghost from_gives = { λ _ e. e ≡ faults.Memory };

    fn from(_e: AllocError) -> ScriptFault {
        ScriptFault::Memory
    }
}

impl<T: Drop> From<AllocFailed<T>> for ScriptFault {
    ghost from_gives = { λ _ e. e ≡ faults.Memory };

    fn from(_e: AllocFailed<T>) -> ScriptFault {
        ScriptFault::Memory
    }
}
