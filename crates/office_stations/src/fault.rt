//! Why a run ends before its time.

ghost use Rattle.std.specs.Prelude.{◌≡◌};
ghost use Rattle.office_stations.specs.Rounds.{fault_of, run_fault};

use site_core::Refusal;
use socket_pump::PumpFault;

/// Why a run ends before its time. What was done before stands.
#[derive(Clone, Copy, Debug, PartialEq, Eq)]
pub enum RunFault {
    Memory,
    /// A call of a socket failed.
    WireFailed,
    /// An office's journal is full.
    JournalFull,
    /// A thread can't be started.
    NoThread,
}

impl RunFault {
    /// As what it is told that an office refuses a session; that its queue is full is no fault.
    pub(crate) fn of_refusal(refusal: Refusal) -> Option<RunFault>
        ensures { result ≡ fault_of refusal }
    {
        match refusal {
            Refusal::QueueFull => None,
            Refusal::JournalFull => Some(RunFault::JournalFull),
            _ => Some(RunFault::Memory),
        }
    }

    pub(crate) fn of_pump(fault: PumpFault) -> RunFault
        ensures { result ≡ run_fault fault }
    {
        match fault {
            PumpFault::WireFailed => RunFault::WireFailed,
            PumpFault::JournalFull => RunFault::JournalFull,
            PumpFault::Memory => RunFault::Memory,
        }
    }
}
