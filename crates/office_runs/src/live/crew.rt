//! Who works for each office: before, while and after it runs.

ghost use Rattle.std.specs.Prelude.{◌≡◌, ◌<◌, ◌≤◌, ◌∷◌, ◌++◌, [], length, map, vec_capacity, IfOk};
ghost use Rattle.std.specs.Arc.{arc_value};
ghost use Rattle.office_runs.specs.live.refinement.Ends.{duty_of, with_programs};

use crate::opened::Opened;
use crate::starting::{start_client, start_worker};
use crate::task::Task;
use crate::threads::{Client, ClientEnd, SubmitsAt, TurnsAt, Worker, WorkerEnd};
use office_map::Plan;
use office_stations::remarks::Way;
use office_stations::{Gate, RunFault, Shared, Socket, Wakes, Watch};
use session_programs::Program;
use std::alloc::{AllocError, Global};
use std::marker::{Model, PhantomData};
use std::rt::Clock;
use std::sync::Wait;
use std::thread::{Scope, Threads};

/// An office, and who will work for it. Contracts see whose it is.
#[derive(Drop)]
pub(crate) struct Crew<S: Socket, A: Wakes> {
    pub(crate) office: Opened,
    pub(crate) worker: Worker<S>,
    pub(crate) client: Client<A>,
}

impl<S: Socket, A: Wakes> Model for Crew<S, A> {
    ghost use Rattle.std.specs.Prelude.{◌≡◌};
    ghost use Rattle.std.specs.Arc.{arc_value};
    ghost use Rattle.locked_office.specs.Calls.{Key};
    ghost use Rattle.office_runs.specs.refinement.Opening.{opened_key};

    ghost Value = { Key };

    ghost view = { λ c. opened_key c.office };

    ghost invariant = { λ c. (arc_value c.worker.desk ≡ arc_value c.office.desk) × (arc_value c.client.desk ≡ arc_value c.office.desk) };
}

/// An office for which its threads work. Contracts see whose it is, and the sessions of the run.
#[derive(Drop)]
pub(crate) struct Running<'x, S: Socket> {
    office: Opened,
    programs: &'x [Program],
    worker: Task<WorkerEnd, TurnsAt<S>>,
    client: Task<ClientEnd, SubmitsAt<'x>>,
}

impl<'x, S: Socket> Model for Running<'x, S> {
    ghost use Rattle.std.specs.Prelude.{◌≡◌};
    ghost use Rattle.std.specs.Arc.{arc_value};
    ghost use Rattle.office_runs.specs.refinement.Opening.{opened_key};
    ghost use Rattle.std.specs.Coded.{codes};
    ghost use Rattle.session_programs.specs.contracts.program.Program as program;
    ghost use Rattle.office_runs.specs.live.refinement.Ends.{Duty};

    ghost Value = { Duty };

    ghost coded = { Prim.hlevel (codes, program.the_row.coded) };

    ghost view = { λ r. record { key = opened_key r.office; programs = r.programs.now } };

    ghost invariant = { λ r. (r.worker.desk.value ≡ arc_value r.office.desk) × (r.client.desk.value ≡ arc_value r.office.desk) × (r.client.programs.now ≡ r.programs.now) };
}

/// An office, and how who worked for it ended. Contracts see whose it is, the sessions of the run, and the faults.
#[derive(Drop)]
pub(crate) struct Ended<'x, S: Socket> {
    pub(crate) office: Opened,
    pub(crate) programs: &'x [Program],
    pub(crate) worker: WorkerEnd,
    pub(crate) client: ClientEnd,
    pub(crate) socket: PhantomData<S>,
}

impl<'x, S: Socket> Model for Ended<'x, S> {
    ghost use Rattle.std.specs.Arc.{arc_value};
    ghost use Rattle.office_runs.specs.refinement.Opening.{opened_key};
    ghost use Rattle.std.specs.Coded.{codes};
    ghost use Rattle.session_programs.specs.contracts.program.Program as program;
    ghost use Rattle.office_runs.specs.refinement.Ends.{HasWorked, HasSubmitted};
    ghost use Rattle.office_runs.specs.live.refinement.Ends.{EndView};

    ghost Value = { EndView };

    ghost coded = { Prim.hlevel (codes, program.the_row.coded) };

    ghost view = { λ e. record { duty = record { key = opened_key e.office; programs = e.programs.now }; broke = e.worker.fault; stopped = e.client.fault; over = e.worker.over } };

    ghost invariant = { λ e. HasWorked S.tells (arc_value e.office.desk) e.worker.over e.worker.fault e.worker.pass × HasSubmitted (arc_value e.office.desk) e.programs.now e.client.fault e.client.pass };
}

impl<S: Socket> Ended<'_, S> {
    /// The fault that ended its turns, if one did.
    pub(crate) fn broke(&self) -> Option<RunFault>
        ensures { result ≡ self.now.broke }
    {
        self.worker.fault
    }

    /// Whether its turns ended since the run was over.
    pub(crate) fn over(&self) -> bool
        ensures { result ≡ self.now.over }
    {
        self.worker.over
    }

    /// What is known of the ways to its neighbours, as who turned it knew it at its end.
    pub(crate) fn ways(&self, alloc: Global) -> Result<Vec<Way>, AllocError> {
        self.worker.ways.to_vec(alloc)
    }

    /// The fault that ended the submitting of its sessions, if one did.
    pub(crate) fn stopped(&self) -> Option<RunFault>
        ensures { result ≡ self.now.stopped }
    {
        self.client.fault
    }
}

/// Starts the threads of all offices, and waits for their ends. There is room for all before the first is started.
pub(crate) fn run_all<'x, E, R, S, A, G, W>(
    scope: &Scope<'x, E>,
    rt: &'x R,
    alloc: Global,
    plan: &'x Plan,
    crews: Vec<Crew<S, A>>,
    programs: &'x [Program],
    gate: &'x G,
    watch: &'x W,
    shared: &'x Shared,
) -> Result<Vec<Ended<'x, S>>, AllocError>
where
    R: Threads + Wait + Clock + Sync,
    S: Socket + Send + 'x,
    A: Wakes + Send + 'x,
    G: Gate + Sync,
    W: Watch + Sync,
    ensures { IfOk result (λ r. map duty_of r.items ≡ map (with_programs programs.entry.now) crews.items) }
{
    let ended = Vec::with_capacity(alloc, crews.len())?;
    let running = start_all(scope, rt, alloc, plan, crews, programs, gate, watch, shared)?;
    Ok(join_all(rt, running, ended))
}

/// Starts the threads of one office after the other.
///
/// Threads are started by functions, not in the closure that `thread::scope` is given: in a function what is known of
/// its type parameters is at hand where a thread is started, in a closure it isn't.
fn start_all<'x, E, R, S, A, G, W>(
    scope: &Scope<'x, E>,
    rt: &'x R,
    alloc: Global,
    plan: &'x Plan,
    crews: Vec<Crew<S, A>>,
    programs: &'x [Program],
    gate: &'x G,
    watch: &'x W,
    shared: &'x Shared,
) -> Result<Vec<Running<'x, S>>, AllocError>
where
    R: Threads + Wait + Clock + Sync,
    S: Socket + Send + 'x,
    A: Wakes + Send + 'x,
    G: Gate + Sync,
    W: Watch + Sync,
    ensures { IfOk result (λ r. r.items ≡ map (with_programs programs.entry.now) crews.items) }
{
    let mut running = Vec::with_capacity(alloc, crews.len())?;
    for crew in crews {
        let one = start_crew(scope, rt, plan, crew, programs, gate, watch, shared);
        put(&mut running, one);
    }
    Ok(running)
}

/// Starts both threads of an office.
fn start_crew<'x, E, R, S, A, G, W>(
    scope: &Scope<'x, E>,
    rt: &'x R,
    plan: &'x Plan,
    crew: Crew<S, A>,
    programs: &'x [Program],
    gate: &'x G,
    watch: &'x W,
    shared: &'x Shared,
) -> Running<'x, S>
where
    R: Threads + Wait + Clock + Sync,
    S: Socket + Send + 'x,
    A: Wakes + Send + 'x,
    G: Gate + Sync,
    W: Watch + Sync,
    ensures { result ≡ with_programs programs.entry.now crew }
{
    let Crew {
        office,
        worker,
        client,
    } = crew;
    Running {
        office,
        programs,
        worker: start_worker(scope, rt, plan, worker, gate, watch, shared),
        client: start_client(scope, rt, client, programs, gate, shared),
    }
}

/// Waits for the ends of all threads.
fn join_all<'x, R: Threads, S: Socket>(
    rt: &R,
    running: Vec<Running<'x, S>>,
    mut ended: Vec<Ended<'x, S>>,
) -> Vec<Ended<'x, S>>
    requires none { ended.items ≡ [] }
    requires room { length running.items ≤ vec_capacity ended }
    ensures { map duty_of result.items ≡ running.entry.items }
{
    for one in running {
        put(&mut ended, join(rt, one));
    }
    ended
}

fn join<'x, R: Threads, S: Socket>(rt: &R, running: Running<'x, S>) -> Ended<'x, S>
    ensures { result.duty ≡ running.entry }
{
    let Running {
        office,
        programs,
        worker,
        client,
    } = running;
    Ended {
        office,
        programs,
        worker: worker.join(rt),
        client: client.join(rt),
        socket: PhantomData,
    }
}

/// Puts a value at the end of a list that has room for it.
fn put<T: Drop>(list: &mut Vec<T>, value: T)
    requires room { length list.old.items < vec_capacity list.old }
    ensures items { list.new.items ≡ list.old.items ++ value ∷ [] }
    ensures room { vec_capacity list.old ≤ vec_capacity list.new }
{
    let Ok(()) = list.push(value) else {
        unreachable!()
    };
}
