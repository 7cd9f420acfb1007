//! Why an office doesn't go on from its store, and why a run of one ends.

ghost use Rattle.std.specs.Prelude.{◌≡◌};
ghost use Rattle.stored_runs.specs.declared.durable.fault.TurnFault.{TurnFault};
ghost use Rattle.stored_runs.specs.declared.fault.KeptFault.TheVariants as kept;
ghost use Rattle.stored_runs.specs.Runs.{fault_of};

use crate::durable::TurnFault;
use journal_texts::JournalRule;
use office_stations::RunFault;
use std::alloc::{AllocError, AllocFailed};
use std::io::ErrorKind;

/// Why a line of a store is none of an office's journal.
#[derive(Clone, Copy, Debug, PartialEq, Eq)]
pub enum LineFault {
    /// It is no line of a journal, or the first one of another run.
    Refused(JournalRule),
    /// The journal is another office's.
    OtherOffice,
    /// The office doesn't give this entry after those before it.
    NotGiven,
    /// An office doesn't write it so.
    OtherText,
}

/// Why an office doesn't go on from what was found in a store.
#[derive(Clone, Copy, Debug, PartialEq, Eq)]
pub enum KeptFault {
    Memory,
    /// The line of this number, from 1, is none of the office's journal, and why.
    Faulty(u64, LineFault),
    /// The sessions that were submitted don't begin the office's of the list: the one with this ticket is the first that differs.
    OtherSessions(usize),
}

impl From<AllocError> for KeptFault {
    ghost from_gives = { λ _ e. e ≡ kept.Memory };

    fn from(_e: AllocError) -> KeptFault {
        KeptFault::Memory
    }
}

impl<T: Drop> From<AllocFailed<T>> for KeptFault {
    ghost from_gives = { λ _ e. e ≡ kept.Memory };

    fn from(_e: AllocFailed<T>) -> KeptFault {
        KeptFault::Memory
    }
}

/// Why a run of an office that keeps its journal in a store ends before its time. What stood, and was told, stands.
#[derive(Clone, Copy, Debug, PartialEq, Eq)]
pub enum StoredFault {
    /// As of a run without a store.
    Run(RunFault),
    /// It isn't sure that what was appended to the store stands.
    StoreFailed,
    /// What stands couldn't be told, and how much of it was isn't known.
    WriteFailed(ErrorKind),
}

impl StoredFault {
    /// As what a turn's fault is told.
    pub fn of_turn(fault: TurnFault) -> StoredFault
        ensures { result ≡ fault_of fault }
    {
        match fault {
            TurnFault::WireFailed => StoredFault::Run(RunFault::WireFailed),
            TurnFault::StoreFailed => StoredFault::StoreFailed,
            TurnFault::JournalFull => StoredFault::Run(RunFault::JournalFull),
            TurnFault::Memory => StoredFault::Run(RunFault::Memory),
        }
    }
}
