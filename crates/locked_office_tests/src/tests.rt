ghost use Rattle.std.specs.Prelude.{◌≡◌, ◌<◌, ◌≤◌, false, IfOk, IfSome};
ghost use Rattle.own_lock.specs.Passes.{IsOf, AreIdle};

use bottle_values::Value;
use frame_codec::{Frame, decode};
use locked_office::{Desk, Stopped};
use office_map::{OfficeId, Plan, RecordId};
use own_lock::{Busy, Pass};
use session_language::read_sessions;
use session_meaning::{End, Outcome, RecordValues};
use session_programs::Program;
use site_core::{Entry, Office, Refusal, Reply};
use std::alloc::{AllocError, Global};
use std::process::Abort;
use std::sync::Wait;
use std::test::Fail;

mod caller;
mod meanwhile;
mod threads;

/// Two offices, and two records of theirs.
const PAIR: &str =
    "plan 1 run 42\noffice a -\noffice b -\npair a b fork a\nrecord x a b 100 at a\nrecord y a b 0 at b\n";

/// A session that moves 30 from one record to the other, and one that reads nothing.
const SESSIONS: &str =
    "session a\nlet v = read x\nset x = v - 30\nset y = read y + 30\ngive read x\ngive read y\nend\nsession a\ngive 1\nend\n";

/// The first office asks for the second record's bottle.
const ASKS: &[u8] =
    b"\x44\x50\x01\x01\x00\x00\x00\x2a\x00\x01\x00\x00\x00\x00\x00\x00\x00\x01\x00\x00\x00\x00\x00\x00\x00\x00\x03\x00\x01";

/// The second office gives it, with 0.
const GIVES: &[u8] =
    b"\x44\x50\x01\x01\x00\x00\x00\x2a\x01\x00\x00\x00\x00\x00\x00\x00\x00\x01\x00\x00\x00\x00\x00\x00\x00\x01\x04\x00\x01\x00\x00\x00\x00\x00\x00\x00\x00";

/// The sessions of the text under the plan.
fn programs(alloc: Global, plan: &str, sessions: &str) -> Result<Vec<Program>, Fail> {
    let plan = Plan::read(alloc, plan.as_bytes())?;
    Ok(read_sessions(alloc, sessions.as_bytes(), &plan)?)
}

/// The first office of the plan.
fn office(alloc: Global, plan: &str) -> Result<Office, Fail> {
    let plan = Plan::read(alloc, plan.as_bytes())?;
    if plan.offices() == 0 {
        return Err(Fail::from("an office"));
    }
    Ok(Office::open(alloc, &plan, OfficeId::new(0))?)
}

/// A desk of the first office of the plan, and so many passes.
fn opened(alloc: Global, plan: &str, passes: u8) -> Result<(Desk, Vec<Pass<Office>>), Fail>
    requires some { 0 < passes }
    requires few { passes ≤ 16 }
    ensures { IfOk result (λ r. AreIdle r.0 r.1.items) }
{
    let office = office(alloc, plan)?;
    match Desk::open(alloc, office, passes) {
        Ok(opened) => Ok(opened),
        Err(_) => Err(Fail::from("memory for a desk")),
    }
}

/// The last of the passes.
fn last(desk: &Desk, passes: &mut Vec<Pass<Office>>) -> Option<Pass<Office>>
    requires { AreIdle desk.now passes.old.items }
    ensures rest { AreIdle desk.now passes.new.items }
    ensures last { IfSome result (λ pass. IsOf desk.now pass × (pass.holds ≡ false)) }
{
    passes.pop()
}

// A test owns its desk and lends it: who owns a desk or a pass and leaves early is long to prove, and who owns an office.

/// While one pass has the office the other finds it taken, and submits after that.
#[test]
fn a_busy_desk_says_so(rt: HostRuntime) -> Result<(), Fail> {
    let programs = programs(rt.alloc(), PAIR, SESSIONS)?;
    assert!(rt; is_closed_after(&rt, rt.alloc(), &programs)?);
    Ok(())
}

/// Whether the pass that found the office taken ends the desk.
fn is_closed_after<R: Wait + Abort>(
    rt: &R,
    alloc: Global,
    programs: &[Program],
) -> Result<bool, Fail> {
    let (desk, mut passes) = opened(alloc, PAIR, 2)?;
    match submits_after(rt, &desk, &mut passes, programs) {
        Some(pass) => Ok(entries_after(desk, pass).is_some()),
        None => Ok(false),
    }
}

/// How many entries the office has when the desk ends.
fn entries_after(desk: Desk, pass: Pass<Office>) -> Option<usize>
    requires { IsOf desk pass }
{
    let closed = desk.close(pass);
    entries_of(&closed)
}

fn entries_of(office: &Option<Office>) -> Option<usize> {
    match office {
        Some(office) => Some(office.journal().len()),
        None => None,
    }
}

/// The pass that found the office taken.
fn submits_after<R: Wait + Abort>(
    rt: &R,
    desk: &Desk,
    passes: &mut Vec<Pass<Office>>,
    programs: &[Program],
) -> Option<Pass<Office>>
    requires { AreIdle desk.now passes.old.items }
    ensures { IfSome result (λ pass. IsOf desk.now pass × (pass.holds ≡ false)) }
{
    let program = programs.get(1)?;
    let mut b = last(desk, passes)?;
    let mut a = last(desk, passes)?;
    finds_taken(rt, desk, &mut a, &mut b, program);
    Some(b)
}

fn finds_taken<R: Wait + Abort>(
    rt: &R,
    desk: &Desk,
    a: &mut Pass<Office>,
    b: &mut Pass<Office>,
    program: &Program,
)
    requires a { IsOf desk.now a.old × (a.old.holds ≡ false) }
    requires b { IsOf desk.now b.old × (b.old.holds ≡ false) }
    ensures { IsOf desk.now b.new × (b.new.holds ≡ false) }
{
    let busy = while_held(desk, a, b, program);
    assert_eq!(rt; busy, Some(4));
    let ticket = try_submit(desk, b, program);
    assert_eq!(rt; ticket, Some(Ok(Reply::Ticket(1))));
    assert_eq!(rt; tags(rt, desk, b, 10), Ok([0, 1, 0, 0]));
}

/// How many of the calls find the office taken while the first pass has it.
fn while_held(
    desk: &Desk,
    a: &mut Pass<Office>,
    b: &mut Pass<Office>,
    program: &Program,
) -> Option<u32>
    requires a { IsOf desk.now a.old × (a.old.holds ≡ false) }
    requires b { IsOf desk.now b.old × (b.old.holds ≡ false) }
    ensures a { IsOf desk.now a.new × (a.new.holds ≡ false) }
    ensures b { IsOf desk.now b.new × (b.new.holds ≡ false) }
{
    match desk.lock().try_take(a) {
        Ok(held) => {
            let busy = count_busy(desk, b, program);
            desk.lock().give(a, held);
            Some(busy)
        }
        Err(Busy) => None,
    }
}

fn count_busy(desk: &Desk, pass: &mut Pass<Office>, program: &Program) -> u32
    requires { IsOf desk.now pass.old × (pass.old.holds ≡ false) }
    ensures { IsOf desk.now pass.new × (pass.new.holds ≡ false) }
{
    let submitted = try_submit(desk, pass, program).is_none();
    let taken = try_took(desk, pass, GIVES).is_none();
    let told = try_outcome(desk, pass, 1).is_none();
    let withdrawn = try_withdraw(desk, pass, 1).is_none();
    submitted as u32 + taken as u32 + told as u32 + withdrawn as u32
}

/// A session fetches a bottle through the desk.
#[test]
fn a_session_finishes_at_a_desk(rt: HostRuntime) -> Result<(), Fail> {
    let programs = programs(rt.alloc(), PAIR, SESSIONS)?;
    let (desk, mut passes) = opened(rt.alloc(), PAIR, 1)?;
    assert!(rt; finishes(&rt, &desk, &mut passes, &programs));
    Ok(())
}

/// Whether there is a pass, and the session's outcome is told by it in both ways, and no other one.
fn finishes<R: Wait + Abort>(
    rt: &R,
    desk: &Desk,
    passes: &mut Vec<Pass<Office>>,
    programs: &[Program],
) -> bool
    requires { AreIdle desk.now passes.old.items }
{
    let Some(program) = programs.get(0) else {
        return false;
    };
    let Some(mut pass) = last(desk, passes) else {
        return false;
    };
    ask_for_the_bottle(rt, desk, &mut pass, program);
    get_the_bottle(rt, desk, &mut pass);
    is_told(rt, desk, &mut pass)
}

fn is_told<R: Wait>(rt: &R, desk: &Desk, pass: &mut Pass<Office>) -> bool
    requires { IsOf desk.now pass.old × (pass.old.holds ≡ false) }
{
    let told = outcome(rt, desk, pass, 1).is_ok_and(|o| has_moved(&o));
    let tried = match try_outcome(desk, pass, 1) {
        Some(Ok(o)) => has_moved(&o),
        _ => false,
    };
    told && tried && outcome(rt, desk, pass, 2).is_ok_and(|o| o.is_none())
}

fn ask_for_the_bottle<R: Wait + Abort>(
    rt: &R,
    desk: &Desk,
    pass: &mut Pass<Office>,
    program: &Program,
)
    requires { IsOf desk.now pass.old × (pass.old.holds ≡ false) }
    ensures { IsOf desk.now pass.new × (pass.new.holds ≡ false) }
{
    assert_eq!(rt; submit(rt, desk, pass, program), Ok(Reply::Ticket(1)));
    assert_eq!(rt; advance(rt, desk, pass, 9), Ok(4));
    assert_eq!(rt; waiting(rt, desk, pass, 1), Ok((1, 1)));
    assert_eq!(rt; waiting(rt, desk, pass, 0), Err(Refusal::NotNow));
    assert_eq!(rt;
        try_outcome(desk, pass, 1).map(|o| o.is_ok_and(|o| o.is_none())),
        Some(true)
    );
    let asks = decode(ASKS).map(Reply::Frame).ok();
    assert_eq!(rt; send(rt, desk, pass, 1).ok(), asks);
    ask_by_number(rt, desk, pass);
}

/// The message that waits has the number 1, and goes out by it once more; no other waits, and none for an office itself.
fn ask_by_number<R: Wait + Abort>(rt: &R, desk: &Desk, pass: &mut Pass<Office>)
    requires { IsOf desk.now pass.old × (pass.old.holds ≡ false) }
    ensures { IsOf desk.now pass.new × (pass.new.holds ≡ false) }
{
    assert_eq!(rt; send_number(rt, desk, pass, 1, 1), Ok(decode(ASKS).ok()));
    assert_eq!(rt; send_number(rt, desk, pass, 1, 0), Ok(None));
    assert_eq!(rt; send_number(rt, desk, pass, 1, 2), Ok(None));
    assert_eq!(rt; send_number(rt, desk, pass, 0, 1), Ok(None));
}

fn get_the_bottle<R: Wait + Abort>(rt: &R, desk: &Desk, pass: &mut Pass<Office>)
    requires { IsOf desk.now pass.old × (pass.old.holds ≡ false) }
    ensures { IsOf desk.now pass.new × (pass.new.holds ≡ false) }
{
    assert_eq!(rt; try_took(desk, pass, GIVES), Some(Ok(Reply::Taken)));
    assert_eq!(rt; took(rt, desk, pass, GIVES), Ok(Reply::Repeat));
    assert_eq!(rt; waiting(rt, desk, pass, 1), Ok((2, 0)));
    assert_eq!(rt; send_number(rt, desk, pass, 1, 1), Ok(None));
    assert_eq!(rt; advance(rt, desk, pass, 9), Ok(4));
    assert_eq!(rt; advance(rt, desk, pass, 9), Ok(0));
}

/// 64 sessions wait; one more is taken once one has finished.
#[test]
fn sixty_four_sessions_wait_at_a_desk(rt: HostRuntime) -> Result<(), Fail> {
    let programs = programs(rt.alloc(), PAIR, SESSIONS)?;
    let (desk, mut passes) = opened(rt.alloc(), PAIR, 1)?;
    assert!(rt; takes_one_more(&rt, &desk, &mut passes, &programs));
    Ok(())
}

/// Whether there is a pass, and it submits 64 sessions, and one more after one has finished.
fn takes_one_more<R: Wait + Abort>(
    rt: &R,
    desk: &Desk,
    passes: &mut Vec<Pass<Office>>,
    programs: &[Program],
) -> bool
    requires { AreIdle desk.now passes.old.items }
{
    let Some(program) = programs.get(1) else {
        return false;
    };
    let Some(mut pass) = last(desk, passes) else {
        return false;
    };
    fill(rt, desk, &mut pass, program);
    assert_eq!(rt; tags(rt, desk, &mut pass, 99), Ok([64, 0, 0, 0]));
    assert_eq!(rt; advance(rt, desk, &mut pass, 6), Ok(6));
    submit(rt, desk, &mut pass, program) == Ok(Reply::Ticket(65))
}

fn fill<R: Wait + Abort>(rt: &R, desk: &Desk, pass: &mut Pass<Office>, program: &Program)
    requires { IsOf desk.now pass.old × (pass.old.holds ≡ false) }
    ensures { IsOf desk.now pass.new × (pass.new.holds ≡ false) }
{
    for i in 0..64u32 {
        assert_eq!(rt; submit(rt, desk, pass, program), Ok(Reply::Ticket(i + 1)));
    }
    assert_eq!(rt; submit(rt, desk, pass, program), Err(Refusal::QueueFull));
}

/// Two sessions of one record.
const TWO_OF_X: &str = "session a\nset x = 1\nend\nsession a\ngive read x\nend\n";

/// Sessions that wait are withdrawn at a desk, each once.
#[test]
fn waiting_sessions_are_withdrawn(rt: HostRuntime) -> Result<(), Fail> {
    let programs = programs(rt.alloc(), PAIR, TWO_OF_X)?;
    let (desk, mut passes) = opened(rt.alloc(), PAIR, 1)?;
    assert!(rt; are_withdrawn(&rt, &desk, &mut passes, &programs));
    Ok(())
}

/// Whether there are a pass and both sessions, and these are submitted, and withdrawn in both ways.
fn are_withdrawn<R: Wait + Abort>(
    rt: &R,
    desk: &Desk,
    passes: &mut Vec<Pass<Office>>,
    programs: &[Program],
) -> bool
    requires { AreIdle desk.now passes.old.items }
{
    let (Some(first), Some(second)) = (programs.get(0), programs.get(1)) else {
        return false;
    };
    let Some(mut pass) = last(desk, passes) else {
        return false;
    };
    assert_eq!(rt; submit(rt, desk, &mut pass, first), Ok(Reply::Ticket(1)));
    assert_eq!(rt; submit(rt, desk, &mut pass, second), Ok(Reply::Ticket(2)));
    withdraws_both(rt, desk, &mut pass);
    tags(rt, desk, &mut pass, 99) == Ok([4, 0, 0, 0])
}

fn withdraws_both<R: Wait + Abort>(rt: &R, desk: &Desk, pass: &mut Pass<Office>)
    requires { IsOf desk.now pass.old × (pass.old.holds ≡ false) }
    ensures { IsOf desk.now pass.new × (pass.new.holds ≡ false) }
{
    assert_eq!(rt; withdraw(rt, desk, pass, 1), Ok(Reply::Done));
    assert_eq!(rt; try_withdraw(desk, pass, 2), Some(Ok(Reply::Done)));
    assert_eq!(rt; withdraw(rt, desk, pass, 1), Err(Refusal::NotNow));
    assert_eq!(rt; try_withdraw(desk, pass, 2), Some(Err(Refusal::NotNow)));
    assert_eq!(rt; advance(rt, desk, pass, 9), Ok(0));
}

// ---- calls of which tests know what they answer

fn try_submit(
    desk: &Desk,
    pass: &mut Pass<Office>,
    program: &Program,
) -> Option<Result<Reply, Refusal>>
    requires { IsOf desk.now pass.old × (pass.old.holds ≡ false) }
    ensures { IsOf desk.now pass.new × (pass.new.holds ≡ false) }
{
    desk.try_submit(pass, program).ok()
}

fn try_withdraw(desk: &Desk, pass: &mut Pass<Office>, ticket: u32) -> Option<Result<Reply, Refusal>>
    requires { IsOf desk.now pass.old × (pass.old.holds ≡ false) }
    ensures { IsOf desk.now pass.new × (pass.new.holds ≡ false) }
{
    desk.try_withdraw(pass, ticket).ok()
}

fn try_took(desk: &Desk, pass: &mut Pass<Office>, bytes: &[u8]) -> Option<Result<Reply, Refusal>>
    requires { IsOf desk.now pass.old × (pass.old.holds ≡ false) }
    ensures { IsOf desk.now pass.new × (pass.new.holds ≡ false) }
{
    desk.try_took(pass, bytes).ok()
}

fn try_outcome(
    desk: &Desk,
    pass: &mut Pass<Office>,
    ticket: u32,
) -> Option<Result<Option<Outcome>, AllocError>>
    requires { IsOf desk.now pass.old × (pass.old.holds ≡ false) }
    ensures { IsOf desk.now pass.new × (pass.new.holds ≡ false) }
{
    desk.try_outcome(pass, ticket).ok()
}

/// How many of the first so many entries have each of the tags 0 to 3.
fn tags<R: Wait>(
    rt: &R,
    desk: &Desk,
    pass: &mut Pass<Office>,
    most: usize,
) -> Result<[u32; 4], AllocError>
    requires { IsOf desk.now pass.old × (pass.old.holds ≡ false) }
    ensures { IsOf desk.now pass.new × (pass.new.holds ≡ false) }
{
    let part = journal_part(rt, desk, pass, most);
    Ok(count_tags(&part?))
}

fn journal_part<R: Wait>(
    rt: &R,
    desk: &Desk,
    pass: &mut Pass<Office>,
    most: usize,
) -> Result<Vec<Entry>, AllocError>
    requires { IsOf desk.now pass.old × (pass.old.holds ≡ false) }
    ensures { IsOf desk.now pass.new × (pass.new.holds ≡ false) }
{
    desk.journal_part(rt, pass, 0, most)
}

fn count_tags(entries: &[Entry]) -> [u32; 4] {
    let mut counts = [0u32; 4];
    for entry in entries {
        if let Some(count) = counts.get_mut(entry.tag as usize) {
            *count = count.saturating_add(1);
        }
    }
    counts
}

fn submit<R: Wait>(
    rt: &R,
    desk: &Desk,
    pass: &mut Pass<Office>,
    program: &Program,
) -> Result<Reply, Refusal>
    requires { IsOf desk.now pass.old × (pass.old.holds ≡ false) }
    ensures { IsOf desk.now pass.new × (pass.new.holds ≡ false) }
{
    desk.submit(rt, pass, program)
}

fn withdraw<R: Wait>(
    rt: &R,
    desk: &Desk,
    pass: &mut Pass<Office>,
    ticket: u32,
) -> Result<Reply, Refusal>
    requires { IsOf desk.now pass.old × (pass.old.holds ≡ false) }
    ensures { IsOf desk.now pass.new × (pass.new.holds ≡ false) }
{
    desk.withdraw(rt, pass, ticket)
}

fn took<R: Wait>(
    rt: &R,
    desk: &Desk,
    pass: &mut Pass<Office>,
    bytes: &[u8],
) -> Result<Reply, Refusal>
    requires { IsOf desk.now pass.old × (pass.old.holds ≡ false) }
    ensures { IsOf desk.now pass.new × (pass.new.holds ≡ false) }
{
    desk.took(rt, pass, bytes)
}

fn send<R: Wait>(rt: &R, desk: &Desk, pass: &mut Pass<Office>, i: usize) -> Result<Reply, Refusal>
    requires { IsOf desk.now pass.old × (pass.old.holds ≡ false) }
    ensures { IsOf desk.now pass.new × (pass.new.holds ≡ false) }
{
    desk.send(rt, pass, OfficeId::new(1), i)
}

fn send_number<R: Wait>(
    rt: &R,
    desk: &Desk,
    pass: &mut Pass<Office>,
    v: u8,
    number: u64,
) -> Result<Option<Frame>, Refusal>
    requires { IsOf desk.now pass.old × (pass.old.holds ≡ false) }
    ensures { IsOf desk.now pass.new × (pass.new.holds ≡ false) }
{
    desk.send_number(rt, pass, OfficeId::new(v), number)
}

fn advance<R: Wait>(rt: &R, desk: &Desk, pass: &mut Pass<Office>, most: u32) -> Result<u32, Stopped>
    requires { IsOf desk.now pass.old × (pass.old.holds ≡ false) }
    ensures { IsOf desk.now pass.new × (pass.new.holds ≡ false) }
{
    desk.advance(rt, pass, most)
}

fn waiting<R: Wait>(
    rt: &R,
    desk: &Desk,
    pass: &mut Pass<Office>,
    v: u8,
) -> Result<(u64, usize), Refusal>
    requires { IsOf desk.now pass.old × (pass.old.holds ≡ false) }
    ensures { IsOf desk.now pass.new × (pass.new.holds ≡ false) }
{
    desk.waiting(rt, pass, OfficeId::new(v))
}

/// Whether the outcome of that ticket is there, and is its own.
fn ended<R: Wait>(rt: &R, desk: &Desk, pass: &mut Pass<Office>, ticket: u32) -> bool
    requires { IsOf desk.now pass.old × (pass.old.holds ≡ false) }
    ensures { IsOf desk.now pass.new × (pass.new.holds ≡ false) }
{
    match desk.outcome(rt, pass, ticket) {
        Ok(Some(outcome)) => outcome.ticket == ticket,
        _ => false,
    }
}

fn outcome<R: Wait>(
    rt: &R,
    desk: &Desk,
    pass: &mut Pass<Office>,
    ticket: u32,
) -> Result<Option<Outcome>, AllocError>
    requires { IsOf desk.now pass.old × (pass.old.holds ≡ false) }
    ensures { IsOf desk.now pass.new × (pass.new.holds ≡ false) }
{
    desk.outcome(rt, pass, ticket)
}

/// Whether the first session of the first office moved 30.
fn has_moved(outcome: &Option<Outcome>) -> bool {
    let Some(outcome) = outcome else {
        return false;
    };
    let ending = &outcome.ending;
    outcome.office.number() == 0
        && outcome.ticket == 1
        && ending.end == End::Done
        && are(&ending.reads, 100, 0)
        && are(&ending.writes, 70, 30)
        && ending.gives.len() == 2
        && ending.gives.get(0) == Value::from(70)
        && ending.gives.get(1) == Value::from(30)
}

/// Whether the first two records have these values.
fn are(values: &RecordValues, x: i64, y: i64) -> bool {
    let x = (RecordId::new(0), Value::from(x));
    let y = (RecordId::new(1), Value::from(y));
    values.as_slice() == [x, y].as_slice()
}
