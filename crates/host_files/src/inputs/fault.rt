//! Why a text can't be had.

ghost use Rattle.std.specs.Prelude.{◌≡◌};
ghost use Rattle.host_files.specs.declared.inputs.fault.InputFault.TheVariants.{Memory};

use std::alloc::{AllocError, AllocFailed};
use std::io::ErrorKind;

/// Why a text can't be had.
#[derive(Clone, Copy, Debug, PartialEq, Eq)]
pub enum InputFault {
    Memory,
    /// A file can't be opened, or a read fails; or it is `FileTooLarge`, since there was no end to it.
    Failed(ErrorKind),
}

impl From<AllocError> for InputFault {
    ghost from_gives = { λ _ e. e ≡ Memory };

    fn from(_e: AllocError) -> InputFault {
        InputFault::Memory
    }
}

impl<T: Drop> From<AllocFailed<T>> for InputFault {
    ghost from_gives = { λ _ e. e ≡ Memory };

    fn from(_e: AllocFailed<T>) -> InputFault {
        InputFault::Memory
    }
}
