//! Who works for an office, each on a thread of its own.

ghost use Rattle.std.specs.Prelude.{◌≡◌, ◌<◌, ℕ, [], None, false, length, IfOk};
ghost use Rattle.std.specs.Arc.{arc_value};
ghost use Rattle.own_lock.specs.Passes.{IsOf, fresh_pass};
ghost use Rattle.locked_office.specs.Calls.{Stays, tag_of};
ghost use Rattle.socket_pump.specs.Last.{last_of};
ghost use Rattle.office_stations.specs.Rounds.{of_office};
ghost use Rattle.office_runs.specs.Threads.{WorkedOut, Submitted, most_turns};
ghost use Rattle.office_stations.specs.refinement.Standings.{standing};
ghost use Rattle.office_runs.specs.refinement.Ends.{HasWorked, HasSubmitted};
ghost use Rattle.office_runs.specs.refinement.Opening.{opened_key};

use crate::opened::{Opened, open_shared};
use locked_office::Desk;
use office_map::{OfficeId, Plan};
use office_stations::{
    Gate, Hearing, OpeningFault, RunFault, Shared, Socket, Station, Turning, Wakes, Watch, Ways,
    submit_some,
};
use own_lock::Pass;
use session_programs::Program;
use site_core::Office;
use socket_pump::Pump;
use std::alloc::Global;
use std::marker::PhantomData;
use std::net::SocketAddr;
use std::rt::Clock;
use std::snapshot::Snapshot;
use std::sync::{Arc, Wait};
use std::thread::Promise;
use std::time::Instant;

/// The most turns of an office.
const MOST_TURNS: u64 = 100_000;

/// Who turns an office that has done nothing.
///
/// That it may be handed to a thread is proved by a search through its fields, which doesn't look into a field's own
/// fields of other crates. So it holds its pump, its socket and where its neighbours are by themselves, and makes its
/// station, which has all three, on its thread. What it hands back has an array of values that are copied, and no
/// memory of its own.
#[derive(Drop)]
pub struct Worker<S: Socket> {
    pub me: OfficeId,
    pub desk: Arc<Desk>,
    pub pass: Pass<Office>,
    pub pump: Pump,
    pub socket: S,
    /// Where its neighbours are.
    pub hearing: Hearing,
    /// From when on its turns are timed.
    pub start: Instant,
    ghost key: { (arc_value desk).key ≡ pump.key },
    ghost fresh: { pass ≡ fresh_pass (arc_value desk) tag_of [] 0 },
    ghost never: { (v n : ℕ) → last_of pump.lasts v n ≡ None },
}

/// How that ended, and what is known of the ways to the neighbours.
#[derive(Drop)]
pub struct WorkerEnd {
    pub pass: Pass<Office>,
    pub fault: Option<RunFault>,
    /// Whether the run was over before its turns were.
    pub over: bool,
    pub ways: Ways,
}

/// What is promised of this, at a desk and with a socket of this type.
#[derive(Drop)]
pub struct TurnsAt<S: Socket> {
    pub desk: Snapshot<Desk>,
    pub socket: PhantomData<S>,
}

impl<S: Socket> Promise<WorkerEnd> for TurnsAt<S> {
    ghost use Rattle.office_runs.specs.refinement.Ends.{HasWorked};

    ghost kept_by = { λ p end. HasWorked S.tells p.desk.value end.over end.fault end.pass };
}

/// Who submits an office's sessions.
#[derive(Drop)]
pub struct Client<A: Wakes> {
    pub me: OfficeId,
    pub desk: Arc<Desk>,
    pub pass: Pass<Office>,
    pub alarm: A,
    ghost number: { (arc_value desk).key.1 ≡ me },
    ghost fresh: { pass ≡ fresh_pass (arc_value desk) tag_of [] 1 },
}

/// How that ended.
#[derive(Drop)]
pub struct ClientEnd {
    pub pass: Pass<Office>,
    pub fault: Option<RunFault>,
}

/// What is promised of this, at a desk, with the sessions of the run.
#[derive(Drop)]
pub struct SubmitsAt<'x> {
    pub desk: Snapshot<Desk>,
    pub programs: &'x [Program],
}

impl<'x> Promise<ClientEnd> for SubmitsAt<'x> {
    ghost use Rattle.office_runs.specs.refinement.Ends.{HasSubmitted};

    ghost kept_by = { λ p end. HasSubmitted p.desk.value p.programs.now end.fault end.pass };
}

/// That office of the plan at a desk, with who turns it at this socket, and who submits its sessions and wakes that one by this alarm. The
/// socket learns where the neighbours are.
pub fn open_office<R: Clock, S: Socket, A: Wakes>(
    rt: &R,
    alloc: Global,
    plan: &Plan,
    me: OfficeId,
    mut socket: S,
    alarm: A,
    places: &[SocketAddr],
) -> Result<(Opened, Worker<S>, Client<A>), OpeningFault>
    requires { me < length plan.now.offices }
    ensures key { IfOk result (λ r. opened_key r.0 ≡ (plan.now, me)) }
    ensures worker { IfOk result (λ r. arc_value r.1.desk ≡ arc_value r.0.desk) }
    ensures client { IfOk result (λ r. arc_value r.2.desk ≡ arc_value r.0.desk) }
{
    let mut hearing = Hearing::none();
    for v in plan.neighbours(me) {
        if let Some(at) = places.get(v.index()) {
            socket.set_peer(*v, *at);
            hearing.set_place(*v, *at);
        }
    }
    let (office, pump, start, turns, submits) = fitted_out(rt, alloc, plan, me)?;
    let worker = Worker {
        me,
        desk: turns.desk,
        pass: turns.pass,
        pump,
        socket,
        hearing,
        start,
    };
    let client = Client {
        me,
        desk: submits.desk,
        pass: submits.pass,
        alarm,
    };
    Ok((office, worker, client))
}

/// A place at a desk.
#[derive(Drop)]
struct Seat {
    desk: Arc<Desk>,
    pass: Pass<Office>,
}

/// That office of the plan at a desk, with its pump and the time; and the seats of who turns it, and of who submits its sessions.
fn fitted_out<R: Clock>(
    rt: &R,
    alloc: Global,
    plan: &Plan,
    me: OfficeId,
) -> Result<(Opened, Pump, Instant, Seat, Seat), OpeningFault>
    requires { me < length plan.now.offices }
    ensures key { IfOk result (λ r. opened_key r.0 ≡ (plan.now, me)) }
    ensures pump { IfOk result (λ r. r.1.key ≡ (plan.now, me)) }
    ensures never { IfOk result (λ r. (v n : ℕ) → last_of r.1.lasts v n ≡ None) }
    ensures worker { IfOk result (λ r. arc_value r.3.desk ≡ arc_value r.0.desk) }
    ensures client { IfOk result (λ r. arc_value r.4.desk ≡ arc_value r.0.desk) }
    ensures turns { IfOk result (λ r. r.3.pass ≡ fresh_pass (arc_value r.3.desk) tag_of [] 0) }
    ensures submits { IfOk result (λ r. r.4.pass ≡ fresh_pass (arc_value r.4.desk) tag_of [] 1) }
{
    let Ok(start) = Instant::now(rt) else {
        return Err(OpeningFault::NoClock);
    };
    let pump = Pump::open(alloc, plan, me)?;
    let (office, worker, client) = open_shared(alloc, plan, me)?;
    let turns = Seat {
        desk: Arc::clone(&office.desk)?,
        pass: worker,
    };
    let submits = Seat {
        desk: Arc::clone(&office.desk)?,
        pass: client,
    };
    Ok((office, pump, start, turns, submits))
}

impl<S: Socket> Worker<S> {
    /// Turns until the run is over, or as often as an office may.
    pub fn work<R: Wait + Clock, G: Gate, W: Watch>(
        self,
        rt: &R,
        plan: &Plan,
        gate: &G,
        watch: &W,
        shared: &Shared,
    ) -> WorkerEnd
        ensures worked { HasWorked S.tells (arc_value self.desk) result.over result.fault result.pass }
    {
        let Worker {
            me,
            desk,
            mut pass,
            pump,
            socket,
            hearing,
            start,
        } = self;
        let mut station = Station::with_hearing(pump, socket, hearing, start);
        let (fault, over) = turn_all(
            rt,
            plan,
            me,
            &desk,
            &mut pass,
            &mut station,
            gate,
            watch,
            shared,
        );
        shared.end(me);
        let ways = station.known_ways();
        WorkerEnd {
            pass,
            fault,
            over,
            ways,
        }
    }
}

/// The fault that ended its turns, if one did; and whether the run was over before they were.
fn turn_all<R: Wait + Clock, S: Socket, G: Gate, W: Watch>(
    rt: &R,
    plan: &Plan,
    me: OfficeId,
    desk: &Desk,
    pass: &mut Pass<Office>,
    station: &mut Station<S>,
    gate: &G,
    watch: &W,
    shared: &Shared,
) -> (Option<RunFault>, bool)
    requires key { desk.now.key ≡ station.old.pump.key }
    requires of { IsOf desk.now pass.old }
    requires idle { pass.old.holds ≡ false }
    requires tag { pass.old.tag ≡ 0 }
    ensures stays { Stays desk.now pass.old pass.new }
    ensures worked { WorkedOut result.1 result.0 S.tells desk.now.key most_turns (standing pass.old (S.account station.old.socket) (last_of station.old.pump.lasts))
        (standing pass.new (S.account station.new.socket) (last_of station.new.pump.lasts)) }
{
    let leads = me.index() == 0;
    let mut count = 0;
    for _ in rt.forever() {
        if count >= MOST_TURNS {
            return (None, false);
        }
        if shared.is_over() {
            return (None, true);
        }
        gate.before(me);
        let turn = match station.turn(rt, desk, pass, Turning::Adaptive, shared) {
            Ok(turn) => turn,
            Err(fault) => {
                shared.fail(rt, fault);
                return (Some(fault), false);
            }
        };
        shared.room(me).set_finished(station.finished());
        station.tell(plan, me, leads, watch, shared);
        count += turn.counted(MOST_TURNS);
    }
    unreachable!()
}

impl<A: Wakes> Client<A> {
    /// Submits the sessions of the office, in order, as it takes them, and wakes who turns it; until all are submitted, the run is
    /// over, or nobody turns the office any more. Then it stays to wake who turns it at the run's end.
    pub fn submit<R: Wait>(self, rt: &R, programs: &[Program], shared: &Shared) -> ClientEnd
        ensures submitted { HasSubmitted (arc_value self.desk) programs.now result.fault result.pass }
    {
        let Client {
            me,
            desk,
            mut pass,
            alarm,
        } = self;
        let fault = submit_all(rt, me, &desk, &mut pass, &alarm, programs, shared);
        stay(rt, me, &alarm, shared);
        ClientEnd { pass, fault }
    }
}

/// While there is no room for the next session it sleeps, until half of those that an office takes at once have finished, the run is
/// over, or nobody turns the office any more. Where none is left it sleeps once too, until one of these comes.
fn submit_all<R: Wait, A: Wakes>(
    rt: &R,
    me: OfficeId,
    desk: &Desk,
    pass: &mut Pass<Office>,
    alarm: &A,
    programs: &[Program],
    shared: &Shared,
) -> Option<RunFault>
    requires of { IsOf desk.now pass.old }
    requires idle { pass.old.holds ≡ false }
    requires tag { pass.old.tag ≡ 1 }
    ensures stays { Stays desk.now pass.old pass.new }
    ensures submitted { Submitted result desk.now.key pass.old pass.new (of_office me programs.now) }
{
    let mut next = 0;
    for _ in rt.forever() {
        if next >= programs.len() || shared.is_over() || shared.has_ended(me) {
            return None;
        }
        let since = shared.room(me).finished();
        match submit_some(rt, desk, pass, me, programs, &mut next) {
            Ok(()) => {}
            Err(fault) => {
                shared.fail(rt, fault);
                return Some(fault);
            }
        }
        alarm.wake();
        shared.room(me).wait_for_more(rt, since);
    }
    unreachable!()
}

/// Stays until nobody turns the office any more, and wakes who turns it as soon as the run is over.
///
/// So nobody waits out a poll at a run's end. That the run is over is written down before who submits is woken, and then the alarm
/// rings. It ends the wait that goes on at the socket, or else the next one. So who turns the office either looks after the end was
/// written, and turns no more, or waits after its look, and that wait ends. Only the alarm can do that, and it is gone with who has
/// it: so this one stays until nobody turns the office.
fn stay<R: Wait, A: Wakes>(rt: &R, me: OfficeId, alarm: &A, shared: &Shared) {
    for _ in rt.forever() {
        if shared.has_ended(me) {
            return;
        }
        if shared.is_over() {
            alarm.wake();
        }
        shared.room(me).wait(rt);
    }
}
