//! What stands at the head of `world_schedule`, and what comes of it.

use frame_world::{NextStep, WorldRefusal};
use office_map::Plan;
use session_language::read_sessions;
use session_programs::Program;
use std::alloc::Global;
use std::test::Fail;
use world_schedule::World;

/// Sessions are submitted, and then the offices are left to themselves, until no session is left.
fn settle(world: &mut World, programs: &[Program]) -> Result<(), WorldRefusal> {
    for program in programs {
        world.submit(program.office(), program)?;
    }
    for _ in 0..1_000 {
        match world.next_step() {
            NextStep::Rule(office, rule) => drop(world.act(office, &rule)?),
            NextStep::Message(from, to, number) => {
                let i = world.place_of(from, to, number);
                world.send(from, to, i)?;
                world.deliver(world.frames())?;
            }
            NextStep::AllFinished => break,
        }
    }
    Ok(())
}

#[test]
fn sessions_finish_by_themselves(rt: HostRuntime) -> Result<(), Fail> {
    let plan = Plan::read(rt.alloc(), crate::tests::PAIR.as_bytes())?;
    let programs = read_sessions(rt.alloc(), crate::tests::MOVE.as_bytes(), &plan)?;
    assert_eq!(rt; finished(rt.alloc(), plan, &programs)?, 1);
    Ok(())
}

/// How many sessions finish, where none is left.
fn finished(alloc: Global, plan: Plan, programs: &[Program]) -> Result<usize, Fail> {
    let mut world = World::open(alloc, plan)?;
    Ok(finished_in(&mut world, programs)?)
}

fn finished_in(world: &mut World, programs: &[Program]) -> Result<usize, WorldRefusal> {
    settle(world, programs)?;
    Ok(if world.unfinished() == 0 {
        world.finished().len()
    } else {
        0
    })
}
