//! The threads of an office.

ghost use Rattle.std.specs.Prelude.{◌≡◌};
ghost use Rattle.std.specs.Arc.{arc_value};

use crate::task::{Task, start};
use crate::threads::{Client, ClientEnd, SubmitsAt, TurnsAt, Worker, WorkerEnd};
use locked_office::laws::{a_desk_crosses_threads, threads_share_a_desk};
use office_map::Plan;
use office_stations::{Gate, Shared, Socket, Wakes, Watch};
use session_programs::Program;
use site_core::laws::an_office_crosses_threads;
use std::marker::PhantomData;
use std::rt::Clock;
use std::snapshot::Snapshot;
use std::sync::Wait;
use std::thread::Scope;

/// Starts a thread that turns an office.
pub fn start_worker<'x, E, R, S, G, W>(
    scope: &Scope<'x, E>,
    rt: &'x R,
    plan: &'x Plan,
    worker: Worker<S>,
    gate: &'x G,
    watch: &'x W,
    shared: &'x Shared,
) -> Task<WorkerEnd, TurnsAt<S>>
where
    R: Wait + Clock + Sync,
    S: Socket + Send + 'x,
    G: Gate + Sync,
    W: Watch + Sync,
    ensures { result.desk.value ≡ arc_value worker.desk }
{
    an_office_crosses_threads();
    threads_share_a_desk();
    a_desk_crosses_threads();
    let promise = TurnsAt {
        desk: Snapshot::of(&*worker.desk),
        socket: PhantomData,
    };
    let work = move || worker.work(rt, plan, gate, watch, shared);
    start(scope, rt, gate, shared, promise, work)
}

/// Starts a thread that submits its sessions.
pub fn start_client<'x, E, R, A, G>(
    scope: &Scope<'x, E>,
    rt: &'x R,
    client: Client<A>,
    programs: &'x [Program],
    gate: &'x G,
    shared: &'x Shared,
) -> Task<ClientEnd, SubmitsAt<'x>>
where
    R: Wait + Sync,
    A: Wakes + Send + 'x,
    G: Gate + Sync,
    ensures desk { result.desk.value ≡ arc_value client.desk }
    ensures programs { result.programs.now ≡ programs.entry.now }
{
    an_office_crosses_threads();
    threads_share_a_desk();
    a_desk_crosses_threads();
    let promise = SubmitsAt {
        desk: Snapshot::of(&*client.desk),
        programs,
    };
    let work = move || client.submit(rt, programs, shared);
    start(scope, rt, gate, shared, promise, work)
}
