//! The sessions of an office, and how many of them have finished.

ghost use Rattle.std.specs.Prelude.{◌≡◌, false};
ghost use Rattle.own_lock.specs.Passes.{IsOf};
ghost use Rattle.locked_office.specs.Calls.{Stays, Looks};
ghost use Rattle.office_stations.specs.Sessions.{count_of};

use locked_office::Desk;
use office_map::OfficeId;
use own_lock::Pass;
use session_programs::Program;
use site_core::Office;
use std::sync::Wait;

/// How many of the sessions are of this office.
pub fn count_of(programs: &[Program], me: OfficeId) -> usize
    ensures { result ≡ count_of programs.now me }
{
    programs
        .iter()
        .filter(|program| program.office() == me)
        .count()
}

/// How many sessions of an office have finished.
pub fn count_finished<R: Wait>(rt: &R, desk: &Desk, pass: &mut Pass<Office>) -> usize
    requires of { IsOf desk.now pass.old }
    requires idle { pass.old.holds ≡ false }
    ensures stays { Stays desk.now pass.old pass.new }
    ensures looked { Looks desk.now.key pass.old pass.new }
{
    let held = desk.lock().take(rt, pass);
    let count = held.get().outcomes().len();
    desk.lock().give(pass, held);
    count
}
