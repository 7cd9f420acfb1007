//! Threads that share a desk.

ghost use Rattle.std.specs.Prelude.{◌≡◌, ◌<◌, false, length, IfOk, IfSome};
ghost use Rattle.std.specs.List.{All};
ghost use Rattle.own_lock.specs.Passes.{IsOf, AreIdle};

use super::{PAIR, advance, ended, entries_after, journal_part, opened, send, submit, took};
use locked_office::Desk;
use locked_office::laws::threads_share_a_desk;
use office_map::Plan;
use own_lock::Pass;
use session_language::read_sessions;
use session_programs::Program;
use site_core::laws::an_office_crosses_threads;
use site_core::{Entry, Event, Office, Reply};
use std::alloc::{AllocError, Global};
use std::sync::Wait;
use std::test::Fail;
use std::thread::{Threads, map_vec};

/// Two offices that share nothing.
const ALONE: &str = "plan 1 run 7\noffice a -\noffice b -\n";

/// The second office has taken nothing.
const NONE_TAKEN: &[u8] =
    b"\x44\x50\x01\x02\x00\x00\x00\x2a\x01\x00\x00\x00\x00\x00\x00\x00\x00\x00\x00\x00\x00\x00\x00\x00\x00\x00";

/// What a thread does at the desk, so many times.
#[derive(Clone, Copy)]
enum Job {
    /// A session is submitted.
    Submit(u32),
    /// A session is submitted, all rules are done, a frame is made, one is taken, and the session's outcome is asked for.
    Serve(u32),
}

/// What a thread was told at one time: the ticket, how many rules were done, how many frames were made and how many taken.
#[derive(Clone, Copy, Debug, PartialEq)]
struct Told {
    ticket: u32,
    done: u32,
    made: u32,
    taken: u32,
}

impl Told {
    fn ticket(ticket: u32) -> Told {
        Told {
            ticket,
            done: 0,
            made: 0,
            taken: 0,
        }
    }
}

fn submit_one<R: Wait>(rt: &R, desk: &Desk, pass: &mut Pass<Office>, program: &Program) -> Told
    requires { IsOf desk.now pass.old × (pass.old.holds ≡ false) }
    ensures { IsOf desk.now pass.new × (pass.new.holds ≡ false) }
{
    match submit(rt, desk, pass, program) {
        Ok(Reply::Ticket(ticket)) => Told::ticket(ticket),
        _ => Told::ticket(0),
    }
}

/// Its ticket is 0 where something was refused, or the outcome isn't there.
fn serve_one<R: Wait>(rt: &R, desk: &Desk, pass: &mut Pass<Office>, program: &Program) -> Told
    requires { IsOf desk.now pass.old × (pass.old.holds ≡ false) }
    ensures { IsOf desk.now pass.new × (pass.new.holds ≡ false) }
{
    let mut told = submit_one(rt, desk, pass, program);
    told.done = advance(rt, desk, pass, 1000).unwrap_or(0);
    told.made = send(rt, desk, pass, 0).is_ok() as u32;
    told.taken = (took(rt, desk, pass, NONE_TAKEN) == Ok(Reply::Acked)) as u32;
    if ended(rt, desk, pass, told.ticket) {
        told
    } else {
        Told::ticket(0)
    }
}

fn do_one<R: Wait>(
    rt: &R,
    desk: &Desk,
    pass: &mut Pass<Office>,
    program: &Program,
    job: Job,
) -> Told
    requires { IsOf desk.now pass.old × (pass.old.holds ≡ false) }
    ensures { IsOf desk.now pass.new × (pass.new.holds ≡ false) }
{
    match job {
        Job::Submit(_) => submit_one(rt, desk, pass, program),
        Job::Serve(_) => serve_one(rt, desk, pass, program),
    }
}

/// The pass, and what its thread was told.
type Returned = (Pass<Office>, Vec<Told>);

/// Each thread reads the session itself.
fn do_all<R: Wait>(rt: &R, alloc: Global, desk: &Desk, mut pass: Pass<Office>, job: Job) -> Returned
    requires { IsOf desk.now pass × (pass.holds ≡ false) }
    ensures { IsOf desk.entry.now result.0 × (result.0.holds ≡ false) }
{
    let mut all = Vec::new(alloc);
    if let Some(program) = give(alloc) {
        do_often(rt, desk, &mut pass, &program, job, &mut all);
    }
    (pass, all)
}

/// A session that reads nothing.
fn give(alloc: Global) -> Option<Program> {
    let plan = Plan::read(alloc, ALONE.as_bytes()).ok()?;
    let mut programs = read_sessions(alloc, b"session a\ngive 1\nend\n", &plan).ok()?;
    programs.pop()
}

fn do_often<R: Wait>(
    rt: &R,
    desk: &Desk,
    pass: &mut Pass<Office>,
    program: &Program,
    job: Job,
    all: &mut Vec<Told>,
)
    requires { IsOf desk.now pass.old × (pass.old.holds ≡ false) }
    ensures { IsOf desk.now pass.new × (pass.new.holds ≡ false) }
{
    let (Job::Submit(times) | Job::Serve(times)) = job;
    for _ in 0..times {
        let told = do_one(rt, desk, pass, program, job);
        if all.push(told).is_err() {
            break;
        }
    }
}

/// A thread for each pass.
fn in_threads<R: Threads + Wait + Sync>(
    rt: &R,
    alloc: Global,
    desk: &Desk,
    passes: Vec<Pass<Office>>,
    job: Job,
) -> Result<Vec<Returned>, AllocError>
    requires { AreIdle desk.now passes.items }
    ensures { IfOk result (λ all. All (λ back. IsOf desk.now back.0 × (back.0.holds ≡ false)) all.items) }
{
    an_office_crosses_threads();
    threads_share_a_desk();
    map_vec(
        rt,
        passes,
        &|pass: Pass<Office>| -> Returned
            requires { IsOf desk.now pass × (pass.holds ≡ false) }
            ensures { IsOf desk.entry.now result.0 × (result.0.holds ≡ false) }
        { do_all(rt, alloc, desk, pass, job) },
    )
}

/// The last of them that came back.
fn last_back(desk: &Desk, all: &mut Vec<Returned>) -> Option<Returned>
    requires { All (λ back. IsOf desk.now back.0 × (back.0.holds ≡ false)) all.old.items }
    ensures rest { All (λ back. IsOf desk.now back.0 × (back.0.holds ≡ false)) all.new.items }
    ensures last { IfSome result (λ back. IsOf desk.now back.0 × (back.0.holds ≡ false)) }
    ensures fewer { IfSome result (λ _. length all.new.items < length all.old.items) }
{
    all.pop()
}

/// The pass learns what the others have seen, and they are given up. What each thread was told is put in, the last one's first.
fn meet_all(
    desk: &Desk,
    mut all: Vec<Returned>,
    pass: &mut Pass<Office>,
    told: &mut Vec<Vec<Told>>,
) -> Result<(), AllocError>
    requires all { All (λ back. IsOf desk.now back.0 × (back.0.holds ≡ false)) all.items }
    requires pass { IsOf desk.now pass.old × (pass.old.holds ≡ false) }
    ensures { IsOf desk.now pass.new × (pass.new.holds ≡ false) }
{
    while let Some((other, of_other)) = last_back(desk, &mut all) {
        desk.meet(other, pass);
        told.push(of_other)?;
    }
    Ok(())
}

/// What the journal has of the thread with this tag. It is cut where an entry stands out of its place.
fn in_journal(alloc: Global, entries: &[Entry], tag: u8) -> Result<Vec<Told>, AllocError> {
    let mut all = Vec::new(alloc);
    for entry in entries {
        if entry.tag == tag && !noted(&mut all, entry)? {
            break;
        }
    }
    Ok(all)
}

fn noted(all: &mut Vec<Told>, entry: &Entry) -> Result<bool, AllocError> {
    if let (Event::Submit(_), Reply::Ticket(ticket)) = (&entry.event, &entry.reply) {
        all.push(Told::ticket(*ticket))?;
        return Ok(true);
    }
    Ok(all.last_mut().is_some_and(|told| counted(told, entry)))
}

/// Rules come first, then a frame is made, then one is taken.
fn counted(told: &mut Told, entry: &Entry) -> bool {
    match (&entry.event, &entry.reply) {
        (Event::Do(_), Reply::Done) if told.made == 0 && told.taken == 0 => {
            told.done = told.done.saturating_add(1);
            true
        }
        (Event::Send(_, 0), Reply::Frame(_)) if told.made == 0 && told.taken == 0 => {
            told.made = 1;
            true
        }
        (Event::Took(_), Reply::Acked) if told.made == 1 && told.taken == 0 => {
            told.taken = 1;
            true
        }
        _ => false,
    }
}

/// The entries of a journal, and what each thread was told, the last one's first.
type Course = (Vec<Entry>, Vec<Vec<Told>>);

/// Four threads do the job at one office.
fn shared<R: Threads + Wait + Sync>(
    rt: &R,
    alloc: Global,
    plan: &str,
    job: Job,
) -> Result<Course, Fail> {
    let (desk, passes) = opened(alloc, plan, 4)?;
    match together(rt, alloc, &desk, passes, job) {
        Some((pass, course)) => whole(entries_after(desk, pass).unwrap_or(0), course),
        None => Err(Fail::from("four passes")),
    }
}

/// The last pass, and what came of the job.
fn together<R: Threads + Wait + Sync>(
    rt: &R,
    alloc: Global,
    desk: &Desk,
    passes: Vec<Pass<Office>>,
    job: Job,
) -> Option<(Pass<Office>, Result<Course, AllocError>)>
    requires { AreIdle desk.now passes.items }
    ensures { IfSome result (λ r. IsOf desk.now r.0 × (r.0.holds ≡ false)) }
{
    let Ok(mut all) = in_threads(rt, alloc, desk, passes, job) else {
        return None;
    };
    let (mut pass, of_last) = last_back(desk, &mut all)?;
    let course = course_of(rt, alloc, desk, all, &mut pass, of_last);
    Some((pass, course))
}

fn course_of<R: Wait>(
    rt: &R,
    alloc: Global,
    desk: &Desk,
    all: Vec<Returned>,
    pass: &mut Pass<Office>,
    of_last: Vec<Told>,
) -> Result<Course, AllocError>
    requires all { All (λ back. IsOf desk.now back.0 × (back.0.holds ≡ false)) all.items }
    requires pass { IsOf desk.now pass.old × (pass.old.holds ≡ false) }
    ensures { IsOf desk.now pass.new × (pass.new.holds ≡ false) }
{
    let mut told = vec![in alloc; of_last]?;
    meet_all(desk, all, pass, &mut told)?;
    let part = journal_part(rt, desk, pass, 1_000_000)?;
    Ok((part, told))
}

/// What came, where it has all entries.
fn whole(entries: usize, course: Result<Course, AllocError>) -> Result<Course, Fail> {
    let course = course?;
    if course.0.len() != entries {
        return Err(Fail::from("the whole journal"));
    }
    Ok(course)
}

/// Ten of the four threads' forty sessions are of each, and each has a ticket of its own.
#[test]
fn four_threads_submit_ten_sessions_each(rt: HostRuntime) -> Result<(), Fail> {
    let course = shared(&rt, rt.alloc(), ALONE, Job::Submit(10))?;
    assert!(rt; is_whole(rt.alloc(), &course, 40, 10)?);
    assert!(rt; each_is_told_once(&course.1));
    Ok(())
}

/// Whether each of the tickets 1 to 40 was told once, and no other one.
fn each_is_told_once(told: &[Vec<Told>]) -> bool {
    let mut tickets = [0u32; 41];
    for list in told {
        count_tickets(&mut tickets, list);
    }
    tickets[0] == 0 && tickets[1..].iter().all(|n| *n == 1)
}

fn count_tickets(counts: &mut [u32; 41], told: &[Told]) {
    for one in told {
        if let Some(count) = counts.get_mut(one.ticket as usize) {
            *count = count.saturating_add(1);
        }
    }
}

/// Whether there are so many entries, and each thread was told so often what they say.
fn is_whole(
    alloc: Global,
    course: &Course,
    entries: usize,
    times: usize,
) -> Result<bool, AllocError> {
    let (part, told) = course;
    Ok(part.len() == entries && are_told(alloc, part, told, times)?)
}

/// Whether there are four threads, each was told so often, and the entries of its tag are what it was told, in its order.
fn are_told(
    alloc: Global,
    part: &[Entry],
    told: &[Vec<Told>],
    times: usize,
) -> Result<bool, AllocError> {
    for (list, tag) in told.iter().zip([3u8, 2, 1, 0]) {
        if list.len() != times || in_journal(alloc, part, tag)?.as_slice() != list.as_slice() {
            return Ok(false);
        }
    }
    Ok(told.len() == 4)
}

/// 200,000 calls of four threads. A session is submitted and starts, drinks, works and finishes, and two frames go.
#[test]
fn four_threads_find_their_calls_in_the_journal(rt: HostRuntime) -> Result<(), Fail> {
    let course = shared(&rt, rt.alloc(), PAIR, Job::Serve(10_000))?;
    assert!(rt; is_whole(rt.alloc(), &course, 280_000, 10_000)?);
    Ok(())
}
