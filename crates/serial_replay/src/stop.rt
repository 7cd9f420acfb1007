//! Why a walk stops early.

ghost use Rattle.std.specs.Prelude.{◌≡◌};
ghost use Rattle.serial_replay.specs.declared.stop.Stop.TheVariants.{Memory};

use session_meaning::End;
use std::alloc::{AllocError, AllocFailed};

/// The session has ended, or memory ran out.
#[derive(Drop)]
pub enum Stop {
    Ended(End),
    Memory,
}

impl From<AllocError> for Stop {
    ghost from_gives = { λ _ e. e ≡ Memory };

    fn from(_e: AllocError) -> Stop {
        Stop::Memory
    }
}

impl<T: Drop> From<AllocFailed<T>> for Stop {
    ghost from_gives = { λ _ e. e ≡ Memory };

    fn from(_e: AllocFailed<T>) -> Stop {
        Stop::Memory
    }
}
