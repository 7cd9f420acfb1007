//! What stands at the head of `socket_pump`, and what comes of it.

use locked_office::Desk;
use office_map::{OfficeId, Plan};
use session_language::read_sessions;
use session_programs::Program;
use site_core::Office;
use socket_pump::memory::MemoryWire;
use socket_pump::{Pump, Turn, Wire};
use std::alloc::Global;
use std::sync::Wait;
use std::test::Fail;

/// The first office of a plan submits a session and is turned once.
fn turned<R: Wait, W: Wire>(
    rt: &R,
    alloc: Global,
    plan: &Plan,
    program: &Program,
    wire: &mut W,
) -> Result<Turn, Fail> {
    let me = OfficeId::new(0);
    if me.index() >= plan.offices() {
        return Err(Fail::from("an office"));
    }
    let mut pump = Pump::open(alloc, plan, me)?;
    let (desk, mut passes) = Desk::open(alloc, Office::open(alloc, plan, me)?, 1)?;
    let Some(mut pass) = passes.pop() else {
        return Err(Fail::from("a pass"));
    };
    desk.submit(rt, &mut pass, program)?;
    // Of an office that runs, again and again, with the time in milliseconds.
    Ok(pump.turn(rt, wire, &desk, &mut pass, 0)?)
}

#[test]
fn an_office_is_turned(rt: HostRuntime) -> Result<(), Fail> {
    let plan = Plan::read(rt.alloc(), super::PAIR.as_bytes())?;
    let programs = read_sessions(rt.alloc(), super::SESSIONS.as_bytes(), &plan)?;
    assert!(rt; asks(&rt, rt.alloc(), &plan, &programs)?);
    Ok(())
}

/// Whether a datagram that is no frame is refused, and the session asks for the bottle that it lacks, and for nothing else: the fork
/// is here.
fn asks<R: Wait>(rt: &R, alloc: Global, plan: &Plan, programs: &[Program]) -> Result<bool, Fail> {
    let Some(program) = programs.first() else {
        return Ok(false);
    };
    let mut wire = MemoryWire::new(alloc);
    wire.comes(b"no frame")?;
    let turn = turned(rt, alloc, plan, program, &mut wire)?;
    Ok(turn.refused == 1 && turn.sent == 1 && wire.accepted().len() == 1)
}
