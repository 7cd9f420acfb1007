//! Why a turn breaks off.

ghost use Rattle.std.specs.Prelude.{◌≡◌};
ghost use Rattle.stored_runs.specs.durable.Breaking.{told_as};

use socket_pump::PumpFault;

/// Why a turn breaks off. What stood stands; of the entries since, none has let anything out.
#[derive(Clone, Copy, Debug, PartialEq, Eq)]
pub enum TurnFault {
    WireFailed,
    StoreFailed,
    JournalFull,
    Memory,
}

impl TurnFault {
    pub(crate) fn of_pump(fault: PumpFault) -> TurnFault
        ensures { result ≡ told_as fault }
    {
        match fault {
            PumpFault::WireFailed => TurnFault::WireFailed,
            PumpFault::JournalFull => TurnFault::JournalFull,
            PumpFault::Memory => TurnFault::Memory,
        }
    }
}
