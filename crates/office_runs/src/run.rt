//! One office, alone in its process.

ghost use Rattle.std.specs.Prelude.{◌≡◌, ◌<◌, ◌∷◌, ◌-◌, ℕ, [], None, false, length, map, IfOk};
ghost use Rattle.std.specs.Result.{result_err};
ghost use Rattle.std.specs.String.{string_bytes};
ghost use Rattle.own_lock.specs.Passes.{IsOf};
ghost use Rattle.site_core.specs.Journals.{IsLegal};
ghost use Rattle.locked_office.specs.Calls.{Stays, Looks, office_with};
ghost use Rattle.socket_pump.specs.Last.{last_of};
ghost use Rattle.office_stations.specs.declared.turning.Turning.TheVariants.{Plain};
ghost use Rattle.office_stations.specs.Rounds.{Goes, of_office};
ghost use Rattle.office_stations.specs.Sessions.{count_of, finished_of};
ghost use Rattle.office_runs.specs.Runs.{IsQuiet, TellsCourse, TellsJournals, HasJournals, runs_report};
ghost use Rattle.office_stations.specs.refinement.Standings.{standing};

use crate::finished::add_sessions;
use crate::opened::{only, open_desk};
use crate::report::{Ran, Report, with_unfinished};
use locked_office::Desk;
use office_map::{OfficeId, Plan};
use office_stations::remarks::Way;
use office_stations::{
    Around, Binds, Gate, OpeningFault, RunFault, Shared, Socket, Station, Turning, Watch,
    at_address, count_of, submit_some,
};
use own_lock::Pass;
use session_programs::Program;
use session_reports::form::Form;
use site_core::Office;
use std::alloc::{AllocError, Global};
use std::rt::Clock;
use std::sync::Wait;

/// An office at its plan's address, which turns so often. Those of the sessions that are its own are submitted as it takes
/// them. It takes all its turns, since neighbours may need it after its own sessions have finished. A turn that brought refused
/// datagrams alone isn't counted before the time is over that as many idle turns take, of 5 milliseconds each. Where the
/// `journals` are wanted, the text of its one is told too.
///
/// # Errors
/// `BindFailed` and `NoClock`, where nothing was done; `Memory`, where nothing was, or where what stands can't be told for want
/// of it. What ends a run before its turns are over is told in what it answers, with what stands.
pub fn run_office<R: Wait + Clock, B: Binds, G: Gate, W: Watch>(
    rt: &R,
    alloc: Global,
    form: Form,
    plan: &Plan,
    me: OfficeId,
    programs: &[Program],
    turns: u64,
    journals: bool,
    around: &Around<'_, B, G, W>,
) -> Result<Ran, OpeningFault>
    requires { me < length plan.now.offices }
    ensures tells { IfOk result (TellsJournals form plan.now (me ∷ []) (count_of programs.now me) journals) }
    ensures ran { IfOk result (TellsCourse (λ a. (s : B.Socket) × (B.Socket.account s ≡ a)) form B.Socket.tells plan.now me programs.now turns journals) }
    ensures quiet { IfOk result IsQuiet }
{
    let mut station = at_address(rt, alloc, plan, me, around.binds)?;
    let (desk, passes) = open_desk(alloc, plan, me, 1)?;
    let Some(mut pass) = only(&desk, passes) else {
        return Err(OpeningFault::Memory);
    };
    let shared = Shared::new(count_of(programs, me) as u64);
    let fault = take_turns(
        rt,
        &mut station,
        &desk,
        &mut pass,
        plan,
        me,
        programs,
        turns,
        around.gate,
        around.watch,
        &shared,
    )
    .err();
    let ways = station.ways(alloc)?;
    let ran = told(
        rt,
        alloc,
        form,
        plan,
        &desk,
        &mut pass,
        count_of(programs, me),
        ways,
        journals,
        fault,
    )?;
    Ok(ran)
}

/// The turns, each after those sessions are submitted that the office takes.
fn take_turns<R: Wait + Clock, S: Socket, G: Gate, W: Watch>(
    rt: &R,
    station: &mut Station<S>,
    desk: &Desk,
    pass: &mut Pass<Office>,
    plan: &Plan,
    me: OfficeId,
    programs: &[Program],
    turns: u64,
    gate: &G,
    watch: &W,
    shared: &Shared,
) -> Result<(), RunFault>
    requires key { desk.now.key ≡ station.old.pump.key }
    requires of { IsOf desk.now pass.old }
    requires idle { pass.old.holds ≡ false }
    ensures stays { Stays desk.now pass.old pass.new }
    ensures goes { Goes (result_err result) Plain S.tells pass.old.tag desk.now.key turns (standing pass.old (S.account station.old.socket) (last_of station.old.pump.lasts))
        (standing pass.new (S.account station.new.socket) (last_of station.new.pump.lasts)) (of_office me programs.now) }
{
    let mut next = 0;
    let mut count = 0;
    for _ in rt.forever() {
        if count >= turns {
            return Ok(());
        }
        match submit_some(rt, desk, pass, me, programs, &mut next) {
            Ok(()) => {}
            Err(fault) => return Err(fault),
        }
        gate.before(me);
        let turn = match station.turn(rt, desk, pass, Turning::Plain, shared) {
            Ok(turn) => turn,
            Err(fault) => return Err(fault),
        };
        station.tell_alone(plan, me, watch, shared);
        count += turn.counted(turns);
    }
    unreachable!()
}

/// What came of it.
fn told<R: Wait>(
    rt: &R,
    alloc: Global,
    form: Form,
    plan: &Plan,
    desk: &Desk,
    pass: &mut Pass<Office>,
    sessions: usize,
    ways: Vec<Way>,
    journals: bool,
    fault: Option<RunFault>,
) -> Result<Ran, AllocError>
    requires of { IsOf desk.now pass.old }
    requires idle { pass.old.holds ≡ false }
    requires office { desk.now.key.1 < length desk.now.key.0.offices }
    ensures looked { IfOk result (λ _. Looks desk.now.key pass.old pass.new) }
    ensures fault { IfOk result (λ r. r.fault ≡ fault) }
    ensures text { IfOk result (λ r. string_bytes r.text ≡ runs_report form plan.now (office_with desk.now.key pass.new.seen ∷ []) r.unfinished) }
    ensures left { IfOk result (λ r. r.unfinished ≡ sessions - length (finished_of (office_with desk.now.key pass.new.seen))) }
    ensures journals { IfOk result (λ r. HasJournals journals (office_with desk.now.key pass.new.seen ∷ []) (map string_bytes r.journals.items)) }
    ensures quiet { IfOk result IsQuiet }
{
    let mut report = Report::new(alloc, journals);
    report.expect(sessions, ways);
    let finished = add_sessions(rt, desk, pass, form, plan, &mut report)?;
    Ok(with_unfinished(report, form, sessions.saturating_sub(finished), fault)?)
}
