//! One session of two offices, by each call that takes memory, and an office whose journal begins a page. A call that lacks memory is
//! made again, once what was there before it was compared with what is there after it. It tells which call that was, what each
//! answers, and what is there at the end. `tests/system/growths.sh` refuses each allocation in turn.
#![tactic(auto)]

ghost use Rattle.std.specs.Prelude.{◌≡◌, ◌≤◌, false, length, All, IsTrue, IfOk, IfSome};
ghost use Rattle.own_lock.specs.Passes.{IsOf, AreIdle};
ghost use Rattle.session_language.specs.Limits.{most_sessions};
ghost use Rattle.session_programs.specs.Program.{fits};

use frame_codec::Frame;
use frame_world::{WorldEvent, WorldRefusal};
use locked_office::Desk;
use office_map::{OfficeId, Plan, PlanFault, RecordId};
use own_lock::Pass;
use serial_replay::{Replay, serial};
use session_language::{LangFault, read_sessions};
use session_meaning::{Outcome, RecordValues};
use session_programs::Program;
use site_core::{Event, Office, Refusal, Reply, Rule};
use std::alloc::{AllocError, AllocFailed, Global};
use std::io;
use std::process::ExitCode;
use thiserror::Error;
use world_schedule::World;

/// Two offices, and two records of theirs.
const PAIR: &str =
    "plan 1 run 42\noffice a -\noffice b -\npair a b fork a\nrecord x a b 100 at a\nrecord y a b 0 at b\n";

/// A session that moves 30 from one record to the other.
const MOVE: &str =
    "session a\nlet v = read x\nset x = v - 30\nset y = read y + 30\ngive read x\ngive read y\nend\n";

/// How many entries a page of a journal has.
const PAGE: usize = 256;

/// Why the program ends early.
#[derive(Debug, Drop, Error)]
enum Fault {
    /// Something lacked memory that is none of the calls.
    #[error("out of memory elsewhere")]
    Memory(#[from] AllocError),
    #[error("{0} lacked memory and changed something")]
    Changed(&'static str),
    #[error("the row has no such thing")]
    Row,
    #[error(transparent)]
    Plan(#[from] PlanFault),
    #[error(transparent)]
    Sessions(#[from] LangFault),
    #[error(transparent)]
    Output(#[from] io::Error),
}

impl<T: Drop> From<AllocFailed<T>> for Fault {
    fn from(_e: AllocFailed<T>) -> Fault {
        Fault::Memory(AllocError)
    }
}

fn main(rt: HostRuntime) -> ExitCode {
    match run(&rt) {
        Ok(()) => ExitCode::SUCCESS,
        Err(fault) => {
            let _ = println!(&rt; "{fault}");
            ExitCode::from(1)
        }
    }
}

// What is owned is lent to functions that own nothing: each drop is proved at each `?`.

fn run(rt: &HostRuntime) -> Result<(), Fault> {
    let plan = plan(rt)?;
    under(rt, &plan)
}

fn under(rt: &HostRuntime, plan: &Plan) -> Result<(), Fault> {
    let programs = programs(rt, plan)?;
    with_programs(rt, plan, &programs)
}

fn with_programs(rt: &HostRuntime, plan: &Plan, programs: &[Program]) -> Result<(), Fault>
    requires fit { All (λ p. IsTrue (fits plan.now p)) programs.now }
    requires few { length programs.now ≤ most_sessions }
{
    replay(rt, plan, programs)?;
    match programs.first() {
        Some(program) => with_program(rt, plan, program),
        None => Err(Fault::Row),
    }
}

fn with_program(rt: &HostRuntime, plan: &Plan, program: &Program) -> Result<(), Fault> {
    let events = events(rt.alloc(), program)?;
    rows(rt, plan, program, &events)
}

fn rows(
    rt: &HostRuntime,
    plan: &Plan,
    program: &Program,
    events: &[WorldEvent],
) -> Result<(), Fault> {
    at_offices(rt, plan, events)?;
    at_a_page(rt, plan)?;
    at_desk(rt, plan, program)?;
    in_world(rt, plan, events)
}

/// That call lacked memory.
fn refused(rt: &HostRuntime, call: &str) -> Result<(), Fault> {
    println!(rt; "refused {call}")?;
    Ok(())
}

// ---- texts

fn plan(rt: &HostRuntime) -> Result<Plan, Fault> {
    match Plan::read(rt.alloc(), PAIR.as_bytes()) {
        Ok(plan) => Ok(plan),
        Err(PlanFault::Memory) => {
            refused(rt, "Plan::read")?;
            Ok(Plan::read(rt.alloc(), PAIR.as_bytes())?)
        }
        Err(fault) => Err(Fault::Plan(fault)),
    }
}

fn programs(rt: &HostRuntime, plan: &Plan) -> Result<Vec<Program>, Fault>
    ensures fit { IfOk result (λ v. All (λ p. IsTrue (fits plan.now p)) v.items) }
    ensures few { IfOk result (λ v. length v.items ≤ most_sessions) }
{
    match read_sessions(rt.alloc(), MOVE.as_bytes(), plan) {
        Ok(programs) => Ok(programs),
        Err(LangFault::Memory) => {
            refused(rt, "read_sessions")?;
            Ok(read_sessions(rt.alloc(), MOVE.as_bytes(), plan)?)
        }
        Err(fault) => Err(Fault::Sessions(fault)),
    }
}

// ---- the serial run

fn replay(rt: &HostRuntime, plan: &Plan, programs: &[Program]) -> Result<(), Fault>
    requires fit { All (λ p. IsTrue (fits plan.now p)) programs.now }
    requires few { length programs.now ≤ most_sessions }
{
    match serial(rt.alloc(), plan, programs) {
        Ok(replay) => tell_replay(rt, &replay),
        Err(_) => {
            refused(rt, "serial")?;
            let replay = serial(rt.alloc(), plan, programs)?;
            tell_replay(rt, &replay)
        }
    }
}

fn tell_replay(rt: &HostRuntime, replay: &Replay) -> Result<(), Fault> {
    tell_outcomes(rt, &replay.outcomes)?;
    for value in &replay.values {
        println!(rt; "value {value}")?;
    }
    Ok(())
}

fn tell_outcomes(rt: &HostRuntime, outcomes: &[Outcome]) -> Result<(), Fault> {
    for outcome in outcomes {
        tell_outcome(rt, outcome)?;
    }
    Ok(())
}

fn tell_outcome(rt: &HostRuntime, outcome: &Outcome) -> Result<(), Fault> {
    let office = outcome.office.number();
    let ticket = outcome.ticket;
    let end = outcome.ending.end;
    println!(rt; "outcome {office}.{ticket} {end:?}")?;
    tell_values(rt, "reads", &outcome.ending.reads)?;
    tell_values(rt, "writes", &outcome.ending.writes)?;
    let gives = &outcome.ending.gives;
    for i in 0..gives.len() {
        let value = gives.get(i);
        println!(rt; "gives {value}")?;
    }
    Ok(())
}

fn tell_values(rt: &HostRuntime, what: &str, values: &RecordValues) -> Result<(), Fault> {
    for (r, value) in values.as_slice() {
        let r = r.number();
        println!(rt; "{what} {r} {value}")?;
    }
    Ok(())
}

// ---- the row

/// The row's events; each is accepted, and makes an entry.
fn events(alloc: Global, program: &Program) -> Result<Vec<WorldEvent>, AllocError> {
    let a = OfficeId::new(0);
    let b = OfficeId::new(1);
    let y = RecordId::new(1);
    let mut events = Vec::new(alloc);
    events.push(WorldEvent::Submit(a, program.copy()?))?;
    events.push(WorldEvent::Do(a, Rule::Start))?;
    events.push(WorldEvent::Do(a, Rule::Hungry))?;
    events.push(WorldEvent::Do(a, Rule::Eat))?;
    events.push(WorldEvent::Do(a, Rule::AskBottle(y)))?;
    events.push(WorldEvent::Send(a, b, 1))?;
    events.push(WorldEvent::Deliver(1))?;
    events.push(WorldEvent::Do(b, Rule::GiveBottle(y)))?;
    events.push(WorldEvent::Send(b, a, 1))?;
    events.push(WorldEvent::Deliver(2))?;
    events.push(WorldEvent::Do(a, Rule::Drink))?;
    events.push(WorldEvent::Do(a, Rule::Leave))?;
    events.push(WorldEvent::Do(a, Rule::Work(100)))?;
    events.push(WorldEvent::Do(a, Rule::Finish))?;
    events.push(WorldEvent::Deliver(2))?;
    Ok(events)
}

fn tell(
    rt: &HostRuntime,
    by: &str,
    at: usize,
    reply: &Result<Reply, Refusal>,
) -> Result<(), Fault> {
    match reply {
        Ok(Reply::Ticket(ticket)) => println!(rt; "{by} {at} ticket {ticket}")?,
        Ok(Reply::Frame(frame)) => tell_frame(rt, by, at, frame)?,
        Ok(other) => println!(rt; "{by} {at} {other:?}")?,
        Err(refusal) => println!(rt; "{by} {at} refused {refusal}")?,
    }
    Ok(())
}

fn tell_frame(rt: &HostRuntime, by: &str, at: usize, frame: &Frame) -> Result<(), Fault> {
    let number = frame.number();
    let count = frame.count();
    println!(rt; "{by} {at} frame {number} {count}")?;
    Ok(())
}

// ---- offices

fn at_offices(rt: &HostRuntime, plan: &Plan, events: &[WorldEvent]) -> Result<(), Fault> {
    let mut offices = offices(rt.alloc(), plan)?;
    by_offices(rt, &mut offices, events)
}

fn by_offices(
    rt: &HostRuntime,
    offices: &mut Vec<Office>,
    events: &[WorldEvent],
) -> Result<(), Fault> {
    let mut frames = Vec::new(rt.alloc());
    for (at, event) in events.iter().enumerate() {
        let reply = handed(rt, offices, &frames, event)?;
        if let Ok(Reply::Frame(frame)) = &reply {
            frames.push(*frame)?;
        }
        tell(rt, "office", at, &reply)?;
    }
    tell_offices(rt, offices)
}

/// All offices of the plan.
fn offices(alloc: Global, plan: &Plan) -> Result<Vec<Office>, AllocError> {
    let mut offices = Vec::new(alloc);
    for v in 0..plan.offices() {
        offices.push(Office::open(alloc, plan, OfficeId::new(v as u8))?)?;
    }
    Ok(offices)
}

/// The event is handed to its office.
fn handed(
    rt: &HostRuntime,
    offices: &mut Vec<Office>,
    frames: &[Frame],
    event: &WorldEvent,
) -> Result<Result<Reply, Refusal>, Fault> {
    let Some((at, event)) = own_event(frames, event)? else {
        return Err(Fault::Row);
    };
    match offices.get_mut(at) {
        Some(office) => stepped(rt, office, &event),
        None => Err(Fault::Row),
    }
}

/// The office of an event, and the event there.
fn own_event(frames: &[Frame], event: &WorldEvent) -> Result<Option<(usize, Event)>, AllocError> {
    match event {
        WorldEvent::Submit(at, program) => {
            Ok(Some((at.number() as usize, Event::Submit(program.copy()?))))
        }
        WorldEvent::Withdraw(at, ticket) => {
            Ok(Some((at.number() as usize, Event::Withdraw(*ticket))))
        }
        WorldEvent::Do(at, rule) => Ok(Some((at.number() as usize, Event::Do(*rule)))),
        WorldEvent::Send(at, to, i) => Ok(Some((at.number() as usize, Event::Send(*to, *i)))),
        WorldEvent::Deliver(k) => match frames.get(k.saturating_sub(1)) {
            Some(frame) => Ok(Some((frame.to() as usize, Event::Took(*frame)))),
            None => Ok(None),
        },
    }
}

/// A step, which is taken again where it lacked memory.
fn stepped(
    rt: &HostRuntime,
    office: &mut Office,
    event: &Event,
) -> Result<Result<Reply, Refusal>, Fault> {
    let before = counts(office);
    let reply = office.step(0, event);
    if reply != Err(Refusal::Memory) {
        return Ok(reply);
    }
    refused(rt, "Office::step")?;
    if counts(office) != before {
        return Err(Fault::Changed("Office::step"));
    }
    Ok(office.step(0, event))
}

/// How many entries, outcomes, unfinished sessions and tickets it has.
fn counts(office: &Office) -> [usize; 4] {
    [
        office.journal().len(),
        office.outcomes().len(),
        office.unfinished(),
        office.tickets() as usize,
    ]
}

fn tell_offices(rt: &HostRuntime, offices: &[Office]) -> Result<(), Fault> {
    for office in offices {
        let entries = office.journal().len();
        println!(rt; "entries {entries}")?;
        tell_outcomes(rt, office.outcomes())?;
    }
    Ok(())
}

// ---- a full page

/// The first office has as many entries as one page, and makes one more.
fn at_a_page(rt: &HostRuntime, plan: &Plan) -> Result<(), Fault> {
    if plan.offices() == 0 {
        return Err(Fault::Row);
    }
    let mut office = Office::open(rt.alloc(), plan, OfficeId::new(0))?;
    let event = Event::Send(OfficeId::new(1), 0);
    fill_a_page(rt, &mut office, &event)?;
    past_a_page(rt, &mut office, &event)
}

fn fill_a_page(rt: &HostRuntime, office: &mut Office, event: &Event) -> Result<(), Fault> {
    for _ in 0..PAGE {
        let _ = stepped(rt, office, event)?;
    }
    let entries = office.journal().len();
    println!(rt; "page {entries}")?;
    Ok(())
}

/// The next entry takes a page of its own: where that is refused the office is as before, and the event is handed in again.
fn past_a_page(rt: &HostRuntime, office: &mut Office, event: &Event) -> Result<(), Fault> {
    let before = counts(office);
    let mut reply = office.step(0, event);
    if reply == Err(Refusal::Memory) {
        refused(rt, "Office::step of entry 257")?;
        if counts(office) != before {
            return Err(Fault::Changed("Office::step of entry 257"));
        }
        reply = office.step(0, event);
    }
    tell(rt, "page", office.journal().len(), &reply)
}

// ---- a desk

/// A session is submitted at a desk of the first office.
fn at_desk(rt: &HostRuntime, plan: &Plan, program: &Program) -> Result<(), Fault> {
    let (desk, mut passes) = desk(rt.alloc(), plan)?;
    match submitted(rt, &desk, &mut passes, program) {
        Some(pass) => closed(rt, desk, pass),
        None => Err(Fault::Row),
    }
}

fn desk(alloc: Global, plan: &Plan) -> Result<(Desk, Vec<Pass<Office>>), Fault>
    ensures { IfOk result (λ r. AreIdle r.0 r.1.items) }
{
    if plan.offices() == 0 {
        return Err(Fault::Row);
    }
    let office = Office::open(alloc, plan, OfficeId::new(0))?;
    match Desk::open(alloc, office, 1) {
        Ok(opened) => Ok(opened),
        Err(fault) => Err(Fault::Memory(fault)),
    }
}

/// The pass by which it was submitted.
fn submitted(
    rt: &HostRuntime,
    desk: &Desk,
    passes: &mut Vec<Pass<Office>>,
    program: &Program,
) -> Option<Pass<Office>>
    requires { AreIdle desk.now passes.old.items }
    ensures { IfSome result (λ pass. IsOf desk.now pass × (pass.holds ≡ false)) }
{
    let mut pass = passes.pop()?;
    let mut answer = submit(desk, &mut pass, program);
    if answer == Some(Err(Refusal::Memory)) {
        let _ = println!(rt; "refused Desk::submit");
        answer = submit(desk, &mut pass, program);
    }
    let _ = println!(rt; "desk {answer:?}");
    Some(pass)
}

fn submit(desk: &Desk, pass: &mut Pass<Office>, program: &Program) -> Option<Result<Reply, Refusal>>
    requires { IsOf desk.now pass.old × (pass.old.holds ≡ false) }
    ensures { IsOf desk.now pass.new × (pass.new.holds ≡ false) }
{
    desk.try_submit(pass, program).ok()
}

fn closed(rt: &HostRuntime, desk: Desk, pass: Pass<Office>) -> Result<(), Fault>
    requires { IsOf desk pass }
{
    let office = desk.close(pass);
    tell_closed(rt, &office)
}

/// The office has the one entry, and the one ticket, whether or not the first call lacked memory.
fn tell_closed(rt: &HostRuntime, closed: &Option<Office>) -> Result<(), Fault> {
    let Some(office) = closed else {
        return Err(Fault::Row);
    };
    let [entries, outcomes, unfinished, tickets] = counts(office);
    println!(rt; "desk {entries} {outcomes} {unfinished} {tickets}")?;
    Ok(())
}

// ---- a world

fn in_world(rt: &HostRuntime, plan: &Plan, events: &[WorldEvent]) -> Result<(), Fault> {
    let mut world = world(rt, plan)?;
    by_world(rt, &mut world, events)
}

fn by_world(rt: &HostRuntime, world: &mut World, events: &[WorldEvent]) -> Result<(), Fault> {
    run_all(rt, world, events)?;
    let frames = world.frames();
    let finished = world.finished().len();
    let unfinished = world.unfinished();
    println!(rt; "frames {frames} finished {finished} unfinished {unfinished}")?;
    tell_offices(rt, world.offices())
}

fn world(rt: &HostRuntime, plan: &Plan) -> Result<World, Fault> {
    match World::open(rt.alloc(), plan.copy(rt.alloc())?) {
        Ok(world) => Ok(world),
        Err(_) => {
            refused(rt, "World::open")?;
            Ok(World::open(rt.alloc(), plan.copy(rt.alloc())?)?)
        }
    }
}

/// All events; where memory runs out, those after the ones that were done.
fn run_all(rt: &HostRuntime, world: &mut World, events: &[WorldEvent]) -> Result<(), Fault> {
    match world.run(events) {
        Ok(replies) => tell_all(rt, 0, &replies),
        Err(stopped) => {
            refused(rt, "World::run")?;
            go_on(rt, world, events, stopped.done)
        }
    }
}

fn go_on(
    rt: &HostRuntime,
    world: &mut World,
    events: &[WorldEvent],
    done: usize,
) -> Result<(), Fault> {
    if done > events.len() || entries(world) != done {
        return Err(Fault::Changed("World::run"));
    }
    match world.run(&events[done..]) {
        Ok(replies) => tell_all(rt, done, &replies),
        Err(_) => Err(Fault::Memory(AllocError)),
    }
}

/// How many entries the journals have: one for each event of the row that was done.
fn entries(world: &World) -> usize {
    let mut entries = 0usize;
    for office in world.offices() {
        entries = entries.saturating_add(office.journal().len());
    }
    entries
}

fn tell_all(
    rt: &HostRuntime,
    done: usize,
    replies: &[Result<Reply, WorldRefusal>],
) -> Result<(), Fault> {
    for (i, reply) in replies.iter().enumerate() {
        let at = done.saturating_add(i);
        match reply {
            Ok(reply) => tell(rt, "world", at, &Ok(*reply))?,
            Err(refusal) => println!(rt; "world {at} refused {refusal:?}")?,
        }
    }
    Ok(())
}
