//! What is wrong with the text of an input.

ghost use Rattle.std.specs.Prelude.{◌≡◌};
ghost use Rattle.serial_command.specs.declared.reading.fault.TextFault.TheVariants.{Memory};
ghost use Rattle.serial_command.specs.reading.Fault.{input_at};

use crate::reading::causes::read_cause;
use crate::reading::input::Input;
use office_map::{PlanRefusal, Ring};
use session_language::SessionRefusal;
use std::alloc::{AllocError, AllocFailed};
use std::io::ErrorKind;
use thiserror::Error;

/// What is wrong with the text of an input. A refusal has the sentence that people are told of it, which doesn't name the input:
/// the user has a name for it, and [`TextFault::input`] says which input is meant.
#[derive(Debug, Drop, PartialEq, Eq, Error)]
pub enum TextFault {
    #[error("out of memory")]
    Memory,
    /// The input can't be opened, or a read fails, or there is no end to it (`FileTooLarge`).
    #[error("X4 ReadFailed: it cannot be read: {cause}", cause = read_cause(*.1))]
    ReadFailed(Input, ErrorKind),
    #[error("{1}")]
    Plan(PlanRefusal, String),
    /// The plan's offices precede one another in a ring.
    #[error("{1}")]
    Ring(Ring, String),
    #[error("{1}")]
    Sessions(SessionRefusal, String),
}

impl TextFault {
    /// The input that is at fault, if one is.
    pub fn input(&self) -> Option<Input>
        ensures { result ≡ input_at self.now }
    {
        match self {
            TextFault::Memory => None,
            TextFault::ReadFailed(input, _) => Some(*input),
            TextFault::Plan(_, _) | TextFault::Ring(_, _) => Some(Input::Plan),
            TextFault::Sessions(_, _) => Some(Input::Sessions),
        }
    }
}

impl From<AllocError> for TextFault {
    ghost from_gives = { λ _ e. e ≡ Memory };

    fn from(_e: AllocError) -> TextFault {
        TextFault::Memory
    }
}

impl<T: Drop> From<AllocFailed<T>> for TextFault {
    ghost from_gives = { λ _ e. e ≡ Memory };

    fn from(_e: AllocFailed<T>) -> TextFault {
        TextFault::Memory
    }
}
