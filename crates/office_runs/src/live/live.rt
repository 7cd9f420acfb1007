//! All offices of a plan, on threads.

ghost use Rattle.std.specs.Prelude.{◌≡◌, ◌<◌, ◌+◌, length, IfOk, IfSome, IfNone};
ghost use Rattle.std.specs.List.{range_with_len};
ghost use Rattle.office_runs.specs.Runs.{IsQuiet, TellsJournals};
ghost use Rattle.office_runs.specs.live.Courses.{TellsCourses, offices_of};

use crate::Ran;
use crate::live::closing::tell_all;
use crate::live::crew::{Crew, run_all};
use crate::threads::open_office;
use office_map::{OfficeId, Plan};
use office_stations::{Around, Binds, Gate, OpeningFault, Shared, Socket, Wakes, Watch};
use session_programs::Program;
use session_reports::form::Form;
use std::alloc::{AllocError, Global};
use std::collections::VecDeque;
use std::net::{Ipv4Addr, SocketAddr};
use std::rt::Clock;
use std::sync::Wait;
use std::thread;
use std::thread::{Scope, Threads};

/// Runs the sessions, each at its office: every office has a socket of this machine's own, a thread that turns it, and one that
/// submits its sessions in their order. The run ends when all have finished, or every office has had its 100,000 turns.
/// Where the `journals` are wanted, their texts are told too, in the plan's order.
///
/// # Errors
/// `BindFailed` and `NoClock`, where nothing was done; `Memory`, where nothing was, or where what stands can't be told for want
/// of it. What ends a run before its time is told in what it answers, with what stands; `NoThread` among it, where a thread can't
/// be started: then those that were end.
pub fn live<R, B, G, W>(
    rt: &R,
    alloc: Global,
    form: Form,
    plan: &Plan,
    programs: &[Program],
    journals: bool,
    around: &Around<'_, B, G, W>,
) -> Result<Ran, OpeningFault>
where
    R: Threads + Wait + Clock + Sync,
    B: Binds,
    B::Socket: Send,
    B::Alarm: Send,
    G: Gate + Sync,
    W: Watch + Sync,
    ensures tells { IfOk result (TellsJournals form plan.now (range_with_len 0 (length plan.now.offices)) (length programs.now) journals) }
    ensures courses { IfOk result (TellsCourses form B.Socket.tells plan.now programs.now journals) }
    ensures quiet { IfOk result IsQuiet }
{
    let crews = open_all(rt, alloc, plan, around.binds)?;
    let shared = Shared::new(programs.len() as u64);
    let (gate, watch) = (around.gate, around.watch);
    let ran = run_scoped(
        rt, alloc, form, plan, crews, programs, journals, gate, watch, &shared,
    )?;
    Ok(ran)
}

/// Runs the offices on threads of a scope of their own.
fn run_scoped<R, S, A, G, W>(
    rt: &R,
    alloc: Global,
    form: Form,
    plan: &Plan,
    crews: Vec<Crew<S, A>>,
    programs: &[Program],
    journals: bool,
    gate: &G,
    watch: &W,
    shared: &Shared,
) -> Result<Ran, AllocError>
where
    R: Threads + Wait + Clock + Sync,
    S: Socket + Send,
    A: Wakes + Send,
    G: Gate + Sync,
    W: Watch + Sync,
    ensures told { IfOk result (λ ran. crews.items ≡ offices_of plan.now → TellsCourses form S.tells plan.now programs.now journals ran) }
    ensures quiet { IfOk result IsQuiet }
{
    thread::scope(
        thread::scope_env(),
        rt,
        |scope| -> Result<Ran, AllocError>
            ensures told { IfOk result (λ ran. crews.items ≡ offices_of plan.entry.now → TellsCourses form S.tells plan.entry.now programs.entry.now journals ran) }
            ensures quiet { IfOk result IsQuiet }
        {
            run_and_tell(
                scope, rt, alloc, form, plan, crews, programs, journals, gate, watch, shared,
            )
        },
    )
}

/// Runs the offices, and tells what came of it when all their threads have ended.
fn run_and_tell<'x, E, R, S, A, G, W>(
    scope: &Scope<'x, E>,
    rt: &'x R,
    alloc: Global,
    form: Form,
    plan: &'x Plan,
    crews: Vec<Crew<S, A>>,
    programs: &'x [Program],
    journals: bool,
    gate: &'x G,
    watch: &'x W,
    shared: &'x Shared,
) -> Result<Ran, AllocError>
where
    R: Threads + Wait + Clock + Sync,
    S: Socket + Send + 'x,
    A: Wakes + Send + 'x,
    G: Gate + Sync,
    W: Watch + Sync,
    ensures told { IfOk result (λ ran. crews.items ≡ offices_of plan.now → TellsCourses form S.tells plan.now programs.now journals ran) }
    ensures quiet { IfOk result IsQuiet }
{
    let ended = run_all(scope, rt, alloc, plan, crews, programs, gate, watch, shared)?;
    let first = shared.fault(rt);
    tell_all(rt, alloc, form, plan, ended, programs, journals, first)
}

/// All offices of the plan, each with a socket that knows where the others' are.
fn open_all<R: Clock, B: Binds>(
    rt: &R,
    alloc: Global,
    plan: &Plan,
    binds: &B,
) -> Result<Vec<Crew<B::Socket, B::Alarm>>, OpeningFault>
    ensures keys { IfOk result (λ r. r.items ≡ offices_of plan.now) }
{
    let (mut sockets, places) = bind_all(alloc, binds, plan.offices())?;
    let mut crews = Vec::new(alloc);
    for k in 0..plan.offices() {
        let Some((socket, alarm)) = first_socket(&mut sockets) else {
            unreachable!()
        };
        let me = OfficeId::new(k as u8);
        let crew = open_one(rt, alloc, plan, me, socket, alarm, &places)?;
        crews.push(crew)?;
    }
    Ok(crews)
}

/// Sockets with what wakes who waits at them, and where they are.
type Bound<S, A> = (VecDeque<(S, A)>, Vec<SocketAddr>);

/// So many sockets, and where they are.
fn bind_all<B: Binds>(
    alloc: Global,
    binds: &B,
    count: usize,
) -> Result<Bound<B::Socket, B::Alarm>, OpeningFault>
    ensures count { IfOk result (λ r. length r.0.items ≡ count) }
{
    let mut sockets = VecDeque::new(alloc);
    let mut places = Vec::new(alloc);
    for i in 0..count {
        let (socket, alarm, at) = bound(binds)?;
        places.push(at)?;
        sockets.push_back((socket, alarm))?;
    }
    Ok((sockets, places))
}

fn first_socket<S: Socket, A: Wakes>(sockets: &mut VecDeque<(S, A)>) -> Option<(S, A)>
    ensures some { IfSome result (λ _. length sockets.new.items + 1 ≡ length sockets.old.items) }
    ensures none { IfNone result (length sockets.old.items ≡ 0) }
{
    sockets.pop_front()
}

/// A socket on this machine, at a port of the system's choice.
fn bound<B: Binds>(binds: &B) -> Result<(B::Socket, B::Alarm, SocketAddr), OpeningFault> {
    let at = SocketAddr::from((Ipv4Addr::LOCALHOST, 0));
    let (socket, alarm) = match binds.bind(at) {
        Ok(both) => both,
        Err(error) => return Err(OpeningFault::BindFailed(at, error.kind())),
    };
    match socket.address() {
        Ok(at) => Ok((socket, alarm, at)),
        Err(error) => Err(OpeningFault::BindFailed(at, error.kind())),
    }
}

/// An office with who works for it.
fn open_one<R: Clock, S: Socket, A: Wakes>(
    rt: &R,
    alloc: Global,
    plan: &Plan,
    me: OfficeId,
    socket: S,
    alarm: A,
    places: &[SocketAddr],
) -> Result<Crew<S, A>, OpeningFault>
    requires { me < length plan.now.offices }
    ensures key { IfOk result (λ crew. crew ≡ (plan.now, me)) }
{
    let (office, worker, client) = open_office(rt, alloc, plan, me, socket, alarm, places)?;
    Ok(Crew {
        office,
        worker,
        client,
    })
}
