//! A wire that fails breaks off the turn in which it does, and no other.

use crate::tests::{
    Both, NEVER, PAIR, Side, Who, broke_off, open_failing, programs_of, submit, turn,
};
use office_map::Plan;
use session_programs::Program;
use session_reports::report::add_outcome;
use socket_pump::memory::{FaultWire, MemoryWire};
use std::alloc::Global;
use std::process::Abort;
use std::sync::Wait;
use std::test::Fail;

/// Moves 30 from one record to the other, and tells what both are then.
const MOVES: &str =
    "session a\nlet v = read x\nset x = v - 30\nset y = read y + 30\ngive read x\ngive read y\nend\n";

/// What is told of it where it ran alone.
const MOVED: &str = "a.1 done reads x=100 y=0 writes x=70 y=30 gives 70 30\n";

/// A wire that fails once, at whichever call, breaks off the turn in which it does and no other, and the session ends as alone.
#[test]
fn a_wire_fails_at_each_call(rt: HostRuntime) -> Result<(), Fail> {
    let programs = programs_of(rt.alloc(), PAIR, MOVES)?;
    let calls = fail_at_each(&rt, rt.alloc(), &programs, Who::A)?;
    assert!(rt; calls > 15, "a's calls: {calls}");
    let calls = fail_at_each(&rt, rt.alloc(), &programs, Who::B)?;
    assert!(rt; calls > 15, "b's calls: {calls}");
    Ok(())
}

/// Each call of its wire fails, in a run of its own, up to one that isn't made. How many were made.
fn fail_at_each<R: Wait + Abort>(
    rt: &R,
    alloc: Global,
    programs: &[Program],
    who: Who,
) -> Result<u64, Fail> {
    for call in 0..100 {
        let (failed, line) = fails_at(rt, alloc, programs, who, call)?;
        assert_eq!(rt; line.as_str(), MOVED, "call {call}");
        if failed == 0 {
            return Ok(call);
        }
        assert_eq!(rt; failed, 1, "call {call}");
    }
    Err(Fail::from("fewer calls"))
}

fn fails_at<R: Wait>(
    rt: &R,
    alloc: Global,
    programs: &[Program],
    who: Who,
    call: u64,
) -> Result<(u32, String), Fail> {
    let (calls_a, calls_b) = match who {
        Who::A => (call, NEVER),
        Who::B => (NEVER, call),
    };
    let mut both = open_failing(alloc, PAIR, calls_a, calls_b)?;
    ends_with(rt, alloc, &mut both, programs)
}

fn ends_with<R: Wait>(
    rt: &R,
    alloc: Global,
    both: &mut Both,
    programs: &[Program],
) -> Result<(u32, String), Fail> {
    let failed = goes_on(rt, both, programs)?;
    Ok((failed, line_of(rt, alloc, &mut both.a)?))
}

/// In how many turns of thirty, each 50 milliseconds after the one before, the wire failed.
fn goes_on<R: Wait>(rt: &R, both: &mut Both, programs: &[Program]) -> Result<u32, Fail> {
    let Some(program) = programs.get(0) else {
        return Err(Fail::from("a session"));
    };
    if submit(rt, &mut both.a, program) != Some(1) {
        return Err(Fail::from("a ticket"));
    }
    let mut failed = 0;
    for round in 0..15u64 {
        let now = round * 100;
        failed = failed_in(rt, &mut both.a, &mut both.wire_a, now)?.saturating_add(failed);
        both.carry()?;
        failed = failed_in(rt, &mut both.b, &mut both.wire_b, now + 50)?.saturating_add(failed);
        both.carry()?;
    }
    Ok(failed)
}

/// What is told of the office's first session.
fn line_of<R: Wait>(rt: &R, alloc: Global, side: &mut Side) -> Result<String, Fail> {
    let plan = Plan::read(alloc, PAIR.as_bytes())?;
    let mut line = String::new(alloc);
    if let Some(outcome) = side.desk.outcome(rt, &mut side.pass, 1)? {
        add_outcome(&mut line, &plan, &outcome)?;
    }
    Ok(line)
}

/// 1 where the wire failed in the turn: it breaks off just then.
fn failed_in<R: Wait>(
    rt: &R,
    side: &mut Side,
    wire: &mut FaultWire<MemoryWire>,
    now: u64,
) -> Result<u32, Fail> {
    let before = wire.left.is_some();
    let broke = broke_off(turn(rt, side, wire, now))?;
    let fails = before && wire.left.is_none();
    if broke != u32::from(fails) {
        return Err(Fail::from("a turn that breaks off where its wire fails"));
    }
    Ok(broke)
}
