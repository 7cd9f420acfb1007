//! Why a text is no journal.

ghost use Rattle.std.specs.Prelude.{◌≡◌};
ghost use Rattle.journal_texts.specs.declared.fault.JournalFault.TheVariants as faults;

use std::alloc::{AllocError, AllocFailed};
use thiserror::Error;

/// What is wrong with a journal.
#[derive(Clone, Copy, Debug, PartialEq, Eq, Error)]
pub enum JournalRule {
    /// A line has none of the forms, names an office or record that the plan hasn't, or has a number past its range, or digits
    /// that are none; or there is no first line.
    #[error("J1 Journal")]
    Journal,
    /// The journal is of another run, or of an office that the plan hasn't.
    #[error("J2 JournalHeader")]
    JournalHeader,
}

/// What is wrong with the first faulty line, and its number: from 1, or 0 where there is no first line.
#[derive(Clone, Copy, Debug, PartialEq, Eq, Error)]
#[error("line {line}: {rule}")]
pub struct JournalRefusal {
    pub rule: JournalRule,
    pub line: u64,
}

/// Why there is no journal.
#[derive(Clone, Copy, Debug, PartialEq, Eq, Error)]
pub enum JournalFault {
    #[error("out of memory")]
    Memory,
    #[error("{0}")]
    Refused(JournalRefusal),
}

impl From<AllocError> for JournalFault {
    ghost from_gives = { λ _ e. e ≡ faults.Memory };

    fn from(_e: AllocError) -> JournalFault {
        JournalFault::Memory
    }
}

impl<T: Drop> From<AllocFailed<T>> for JournalFault {
    ghost from_gives = { λ _ e. e ≡ faults.Memory };

    fn from(_e: AllocFailed<T>) -> JournalFault {
        JournalFault::Memory
    }
}

pub(crate) fn refused(rule: JournalRule, line: u64) -> JournalFault
    ensures { result ≡ JournalFault.Refused (record { rule = rule; line = line }) }
{
    JournalFault::Refused(JournalRefusal { rule, line })
}
