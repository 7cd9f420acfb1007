ghost use Rattle.std.specs.Prelude.{◌≡◌, false, IfOk, IfSome};
ghost use Rattle.own_lock.specs.Passes.{IsOf, AreIdle};

use bottle_values::Value;
use locked_office::Desk;
use office_map::{OfficeId, Plan};
use own_lock::Pass;
use session_language::read_sessions;
use session_programs::Program;
use site_core::{Office, Reply};
use socket_pump::memory::{FaultWire, MemoryWire};
use socket_pump::{Pump, PumpFault, Turn, Wire};
use std::alloc::Global;
use std::process::Abort;
use std::sync::Wait;
use std::test::Fail;

mod caller;
mod failing_wires;
mod resends;
mod sockets;

/// Two offices, and two records of theirs.
const PAIR: &str =
    "plan 1 run 42\noffice a -\noffice b -\npair a b fork a\nrecord x a b 100 at a\nrecord y a b 0 at b\n";

/// A session of each: one moves 30 from one record to the other, and one moves them back.
const SESSIONS: &str =
    "session a\nset x = read x - 30\nset y = read y + 30\nend\nsession b\nset x = read x + 30\nset y = read y - 30\nend\n";

/// An office between two others, with a record of each.
const STAR: &str =
    "plan 1 run 42\noffice a -\noffice b -\noffice c -\npair a b fork a\npair a c fork a\nrecord x a b 100 at a\nrecord y a c 0 at c\n";

/// A session of the middle one, for which the third has to give its bottle, and one of the second, for which the middle one has to.
const STAR_SESSIONS: &str =
    "session a\nset y = read y + 1\nend\nsession b\nset x = read x - 30\nend\n";

/// An office with its pump.
#[derive(Drop)]
struct Side {
    desk: Desk,
    pass: Pass<Office>,
    pump: Pump,
    ghost same: { desk.key ≡ pump.key },
    ghost of: { IsOf desk pass },
    ghost idle: { pass.holds ≡ false },
}

/// An office of the plan.
fn office(alloc: Global, plan: &str, me: u8) -> Result<Office, Fail> {
    let plan = Plan::read(alloc, plan.as_bytes())?;
    if usize::from(me) >= plan.offices() {
        return Err(Fail::from("an office"));
    }
    Ok(Office::open(alloc, &plan, OfficeId::new(me))?)
}

/// A pump of the office.
fn pump_of(alloc: Global, office: &Office) -> Result<Pump, Fail>
    ensures { IfOk result (λ p. p.key ≡ (office.now.plan, office.now.me)) }
{
    if office.number().index() >= office.plan().offices() {
        return Err(Fail::from("an office"));
    }
    Ok(Pump::open(alloc, office.plan(), office.number())?)
}

/// A desk of the office, and its one pass.
fn opened(alloc: Global, office: Office) -> Result<(Desk, Vec<Pass<Office>>), Fail>
    ensures key { IfOk result (λ r. r.0.key ≡ (office.plan, office.me)) }
    ensures idle { IfOk result (λ r. AreIdle r.0 r.1.items) }
{
    match Desk::open(alloc, office, 1) {
        Ok(opened) => Ok(opened),
        Err(_) => Err(Fail::from("memory for a desk")),
    }
}

/// The last of the passes.
fn last(desk: &Desk, passes: &mut Vec<Pass<Office>>) -> Option<Pass<Office>>
    requires { AreIdle desk.now passes.old.items }
    ensures { IfSome result (λ pass. IsOf desk.now pass × (pass.holds ≡ false)) }
{
    passes.pop()
}

/// An office of the plan with its pump, in a box: who owns so many fields and leaves early is long to prove.
fn open_side(alloc: Global, plan: &str, me: u8) -> Result<Box<Side>, Fail> {
    let office = office(alloc, plan, me)?;
    let pump = pump_of(alloc, &office)?;
    side_of(alloc, office, pump)
}

fn side_of(alloc: Global, office: Office, pump: Pump) -> Result<Box<Side>, Fail>
    requires { (office.plan, office.me) ≡ pump.key }
{
    let (desk, mut passes) = opened(alloc, office)?;
    match last(&desk, &mut passes) {
        Some(pass) => boxed(alloc, Side { desk, pass, pump }),
        None => Err(Fail::from("a pass")),
    }
}

fn boxed(alloc: Global, side: Side) -> Result<Box<Side>, Fail> {
    Ok(Box::new(alloc, side)?)
}

/// The sessions of the plan's offices.
fn programs(alloc: Global) -> Result<Vec<Program>, Fail> {
    programs_of(alloc, PAIR, SESSIONS)
}

fn programs_of(alloc: Global, plan: &str, sessions: &str) -> Result<Vec<Program>, Fail> {
    let plan = Plan::read(alloc, plan.as_bytes())?;
    Ok(read_sessions(alloc, sessions.as_bytes(), &plan)?)
}

fn turn<R: Wait, W: Wire>(
    rt: &R,
    side: &mut Side,
    wire: &mut W,
    now: u64,
) -> Result<Turn, PumpFault> {
    side.pump.turn(rt, wire, &side.desk, &mut side.pass, now)
}

fn adaptive_turn<R: Wait, W: Wire>(
    rt: &R,
    side: &mut Side,
    wire: &mut W,
    now: u64,
) -> Result<Turn, PumpFault> {
    side.pump
        .adaptive_turn(rt, wire, &side.desk, &mut side.pass, now)
}

fn submit<R: Wait>(rt: &R, side: &mut Side, program: &Program) -> Option<u32> {
    match side.desk.submit(rt, &mut side.pass, program) {
        Ok(Reply::Ticket(ticket)) => Some(ticket),
        _ => None,
    }
}

/// The first record's value when that session of the office had finished.
fn value_after<R: Wait>(rt: &R, side: &mut Side, ticket: u32) -> Option<i64> {
    match side.desk.outcome(rt, &mut side.pass, ticket) {
        Ok(Some(outcome)) => outcome
            .ending
            .writes
            .as_slice()
            .first()
            .and_then(|w| number_in(&w.1)),
        _ => None,
    }
}

fn number_in(value: &Value) -> Option<i64> {
    match value {
        Value::Number(number) => Some(*number),
        Value::Text(_) => None,
    }
}

/// What went out to it since comes to that office, and nothing comes to others.
fn carry(
    from: &MemoryWire,
    carried: &mut usize,
    v: OfficeId,
    to: &mut MemoryWire,
) -> Result<(), Fail> {
    let all = from.accepted();
    for i in *carried..all.len() {
        if all[i].0 == v {
            to.comes(all[i].1.bytes())?;
        }
    }
    *carried = all.len();
    Ok(())
}

/// Both offices, with a wire each, which fails at a call; what one sends comes to the other.
#[derive(Drop)]
struct Both {
    a: Box<Side>,
    b: Box<Side>,
    wire_a: FaultWire<MemoryWire>,
    wire_b: FaultWire<MemoryWire>,
    from_a: usize,
    from_b: usize,
}

/// More calls than any wire here gets.
const NEVER: u64 = u64::MAX;

fn open_both(alloc: Global) -> Result<Box<Both>, Fail> {
    open_both_of(alloc, PAIR)
}

/// The first two offices of the plan.
fn open_both_of(alloc: Global, plan: &str) -> Result<Box<Both>, Fail> {
    open_failing(alloc, plan, NEVER, NEVER)
}

/// The same, where of each one's wire so many calls go before one fails.
fn open_failing(alloc: Global, plan: &str, calls_a: u64, calls_b: u64) -> Result<Box<Both>, Fail> {
    let a = open_side(alloc, plan, 0)?;
    let b = open_side(alloc, plan, 1)?;
    Ok(Box::new(alloc, linked(alloc, a, b, calls_a, calls_b))?)
}

fn linked(alloc: Global, a: Box<Side>, b: Box<Side>, calls_a: u64, calls_b: u64) -> Both {
    Both {
        a,
        b,
        wire_a: FaultWire::new(MemoryWire::new(alloc), calls_a),
        wire_b: FaultWire::new(MemoryWire::new(alloc), calls_b),
        from_a: 0,
        from_b: 0,
    }
}

impl Both {
    /// The first office's turn, by one of the two calls.
    fn turn_a<R: Wait>(&mut self, rt: &R, call: Call, now: u64) -> Result<Turn, PumpFault> {
        match call {
            Call::Turn => turn(rt, &mut self.a, &mut self.wire_a, now),
            Call::AdaptiveTurn => adaptive_turn(rt, &mut self.a, &mut self.wire_a, now),
        }
    }

    /// What went out comes to the other.
    fn carry(&mut self) -> Result<(), Fail> {
        carry(
            &self.wire_a.wire,
            &mut self.from_a,
            OfficeId::new(1),
            &mut self.wire_b.wire,
        )?;
        self.carry_back()
    }

    /// What the second sent comes to the first.
    fn carry_back(&mut self) -> Result<(), Fail> {
        carry(
            &self.wire_b.wire,
            &mut self.from_b,
            OfficeId::new(0),
            &mut self.wire_a.wire,
        )
    }
}

#[derive(Clone, Copy)]
enum Who {
    A,
    B,
}

/// The call by which a pump is turned.
#[derive(Clone, Copy)]
enum Call {
    Turn,
    AdaptiveTurn,
}

/// 1 where the wire failed.
fn broke_off(turn: Result<Turn, PumpFault>) -> Result<u32, Fail> {
    match turn {
        Ok(_) => Ok(0),
        Err(PumpFault::WireFailed) => Ok(1),
        Err(_) => Err(Fail::from("room")),
    }
}
