//! The commands, one file each, and what all of them do.

ghost use Rattle.std.specs.Prelude.{◌≡◌, IfErr, IfOk};
ghost use Rattle.drink_commands.specs.Run.{EndsWith, IsCutBy, Leaves, NoObstacle, status_with};

use command_outputs::Fault;
use office_runs::Ran;

pub mod audit;
pub mod live;
pub mod random;
pub mod run;
mod secrets;
pub mod serial;
pub mod serve;
pub mod sim;
pub mod stored;

/// The exit status of a command that did what it was asked for.
pub(crate) const DONE: u8 = 0;

/// That of a run that leaves sessions.
const LEFT: u8 = 1;

/// Why a run was cut short, where it was. Otherwise it is the exit status.
pub(crate) fn ended(ran: &Ran) -> Result<u8, Fault>
    ensures done { IfOk result (λ status. EndsWith status ran.now) }
    ensures cut { IfErr result (Leaves ⊥ NoObstacle (λ cause. IsCutBy cause ran.now)) }
{
    match ran.fault {
        Some(fault) => Err(Fault::CutShort(fault)),
        None => Ok(status_with(ran.unfinished)),
    }
}

pub(crate) fn status_with(left: usize) -> u8
    ensures { result ≡ status_with left }
{
    if left == 0 { DONE } else { LEFT }
}
