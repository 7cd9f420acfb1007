//! Why a text is no list of sessions.

ghost use Rattle.std.specs.Prelude.{◌≡◌};
ghost use Rattle.session_language.specs.declared.fault.LangFault.TheVariants as faults;
ghost use Rattle.session_language.specs.declared.fault.Stop.TheVariants as stops;

use std::alloc::{AllocError, AllocFailed};
use thiserror::Error;

/// The rule that a text of sessions breaks.
#[derive(Clone, Copy, Debug, PartialEq, Eq, Error)]
pub enum SessionRule {
    #[error("S1 Syntax")]
    Syntax,
    #[error("S2 UnknownName")]
    UnknownName,
    #[error("S3 UnknownRecord")]
    UnknownRecord,
    #[error("S4 TooDeep")]
    TooDeep,
    #[error("S5 TooLong")]
    TooLong,
    #[error("S6 TooManyRecords")]
    TooManyRecords,
    #[error("S7 TooManyGives")]
    TooManyGives,
    #[error("S8 TooManyVariables")]
    TooManyVariables,
}

/// The first rule that is broken, and the line that breaks it: 0 where the text is too long, and
/// one past the last line where a session isn't closed.
#[derive(Clone, Copy, Debug, PartialEq, Eq, Error)]
#[error("line {line}: {rule}")]
pub struct SessionRefusal {
    pub rule: SessionRule,
    pub line: u64,
}

/// Why there are no programs.
#[derive(Debug, Drop, Error)]
pub enum LangFault {
    #[error("out of memory")]
    Memory,
    #[error("{0}")]
    Refused(SessionRefusal),
}

impl From<AllocError> for LangFault {
    ghost from_gives = { λ _ e. e ≡ faults.Memory };

    fn from(_e: AllocError) -> LangFault {
        LangFault::Memory
    }
}

impl<T: Drop> From<AllocFailed<T>> for LangFault {
    ghost from_gives = { λ _ e. e ≡ faults.Memory };

    fn from(_e: AllocFailed<T>) -> LangFault {
        LangFault::Memory
    }
}

/// Why a line was not taken; which line it is, its reader knows.
#[derive(Drop)]
pub enum Stop {
    Memory,
    Refused(SessionRule),
}

impl From<AllocError> for Stop {
    ghost from_gives = { λ _ e. e ≡ stops.Memory };

    fn from(_e: AllocError) -> Stop {
        Stop::Memory
    }
}

impl<T: Drop> From<AllocFailed<T>> for Stop {
    ghost from_gives = { λ _ e. e ≡ stops.Memory };

    fn from(_e: AllocFailed<T>) -> Stop {
        Stop::Memory
    }
}

impl From<SessionRule> for Stop {
    ghost from_gives = { λ rule e. e ≡ stops.Refused rule };

    fn from(rule: SessionRule) -> Stop {
        Stop::Refused(rule)
    }
}
