//! What stands at the head of `journal_weave`, and what comes of it.

use journal_weave::{GivenJournal, WeaveFault, weave};
use office_map::Plan;
use std::alloc::Global;
use std::test::Fail;
use world_schedule::World;

/// How many sessions finished in the run of which these are the journals, one of each office; or why there is no such run.
fn audited(alloc: Global, plan: &Plan, journals: &[GivenJournal]) -> Result<usize, WeaveFault> {
    if journals.len() != plan.offices() {
        return Ok(0);
    }
    let events = weave(alloc, plan, journals)?;
    let mut world = World::open(alloc, plan.copy(alloc)?)?;
    match world.run(&events) {
        Ok(_) => Ok(world.finished().len()),
        Err(_) => Err(WeaveFault::Memory),
    }
}

#[test]
fn journals_of_a_run_are_audited(rt: HostRuntime) -> Result<(), Fail> {
    let plan = Plan::read(rt.alloc(), crate::tests::PAIR.as_bytes())?;
    for (second, finished) in [(super::GIVES, Some(1)), (super::SILENT, None)] {
        let journals = super::both(rt.alloc(), &plan, super::MOVES, second)?;
        assert_eq!(rt; audited(rt.alloc(), &plan, &journals).ok(), finished);
    }
    Ok(())
}
