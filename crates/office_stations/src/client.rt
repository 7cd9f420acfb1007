//! Who submits an office's sessions.

ghost use Rattle.std.specs.Prelude.{◌≡◌, ◌==◌, false, true, drop, OnOk, IfErr};
ghost use Rattle.own_lock.specs.Passes.{IsOf};
ghost use Rattle.locked_office.specs.Calls.{Stays};
ghost use Rattle.office_stations.specs.Rounds.{Fills, StopsFilling, of_office};
ghost use Rattle.office_stations.specs.refinement.Standings.{Answered, PassedOver};

use crate::fault::RunFault;
use locked_office::Desk;
use office_map::OfficeId;
use own_lock::Pass;
use session_programs::Program;
use site_core::Office;
use std::sync::Wait;

/// Submits those of the sessions that are an office's, from the `next`-th of the list on, in order, until its queue is full or
/// none is left; `next` is then the first that is left.
///
/// # Errors
/// `JournalFull` or `Memory`, where the office has no room for one.
pub fn submit_some<R: Wait>(
    rt: &R,
    desk: &Desk,
    pass: &mut Pass<Office>,
    me: OfficeId,
    programs: &[Program],
    next: &mut usize,
) -> Result<(), RunFault>
    requires of { IsOf desk.now pass.old }
    requires idle { pass.old.holds ≡ false }
    ensures stays { Stays desk.now pass.old pass.new }
    ensures fills { OnOk result (Fills pass.old.tag desk.now.key pass.old pass.new (of_office me (drop next.old programs.now)) (of_office me (drop next.new programs.now))) }
    ensures stops { IfErr result (λ fault. StopsFilling pass.old.tag desk.now.key pass.old pass.new (of_office me (drop next.old programs.now)) fault) }
{
    while *next < programs.len() {
        match submit_one(rt, desk, pass, me, &programs[*next]) {
            Ok(true) => {}
            Ok(false) => return Ok(()),
            Err(fault) => return Err(fault),
        }
        *next += 1;
    }
    Ok(())
}

/// A session is submitted, if it is the office's; and whether there was room for it.
fn submit_one<R: Wait>(
    rt: &R,
    desk: &Desk,
    pass: &mut Pass<Office>,
    me: OfficeId,
    program: &Program,
) -> Result<bool, RunFault>
    requires of { IsOf desk.now pass.old }
    requires idle { pass.old.holds ≡ false }
    ensures stays { Stays desk.now pass.old pass.new }
    ensures own { (program.now.office == me) ≡ true → Answered pass.old.tag desk.now.key program.now result pass.old pass.new }
    ensures other { (program.now.office == me) ≡ false → PassedOver result pass.old pass.new }
{
    if program.office() == me {
        submit_own(rt, desk, pass, program)
    } else {
        Ok(true)
    }
}

/// A session of the office is submitted; and whether there was room for it.
fn submit_own<R: Wait>(
    rt: &R,
    desk: &Desk,
    pass: &mut Pass<Office>,
    program: &Program,
) -> Result<bool, RunFault>
    requires of { IsOf desk.now pass.old }
    requires idle { pass.old.holds ≡ false }
    ensures stays { Stays desk.now pass.old pass.new }
    ensures answered { Answered pass.old.tag desk.now.key program.now result pass.old pass.new }
{
    match desk.submit(rt, pass, program) {
        Ok(_) => Ok(true),
        Err(refusal) => match RunFault::of_refusal(refusal) {
            None => Ok(false),
            Some(fault) => Err(fault),
        },
    }
}
