//! What a world does next, left to itself.

ghost use Rattle.std.specs.Prelude.{◌≡◌, ◌<◌, IsTrue, length};
ghost use Rattle.office_map.specs.PlanValue.{are_neighbours};
ghost use Rattle.frame_world.specs.Standstill.{first_office, rule_at, message_from, message_to, IsStep};
ghost use Rattle.world_schedule.specs.Resting.{RestIn, RestAfter};
ghost use Rattle.world_schedule.specs.refinement.Marks.{step_at};

use crate::resting::Resting;
use crate::sought::Sought;
use crate::world::World;
use frame_world::NextStep;
use office_map::OfficeId;
use site_core::laws::links_only_grow;

/// The next rule, or the next message, of the least office that has one.
pub(crate) fn next_of(world: &World, sought: Sought, resting: &mut Resting) -> Option<NextStep>
    requires { RestIn world.now resting.old }
    ensures step { result ≡ first_office world.now (step_at sought world.now) }
    ensures rest { RestIn world.now resting.new }
{
    for a in 0..world.plan().offices() {
        if let Some(found) = step_at(world, sought, OfficeId::new(a as u8), resting) {
            return Some(found);
        }
    }
    None
}

/// The next rule of an office, or its next message.
fn step_at(
    world: &World,
    sought: Sought,
    office: OfficeId,
    resting: &mut Resting,
) -> Option<NextStep>
    requires office { office < length world.now.plan.offices }
    requires rest { RestIn world.now resting.old }
    ensures step { result ≡ step_at sought world.now office }
    ensures rest { RestIn world.now resting.new }
{
    // There are at most 16 offices.
    let _ = world.plan().offices();
    if resting.has_none(sought, office) {
        return None;
    }
    let Some(found) = found_at(world, sought, office) else {
        resting.found_none(sought, office);
        return None;
    };
    Some(found)
}

/// The same, without a look at who is known to have none.
fn found_at(world: &World, sought: Sought, office: OfficeId) -> Option<NextStep>
    requires { office < length world.now.plan.offices }
    ensures { result ≡ step_at sought world.now office }
{
    match sought {
        Sought::Rule => rule_at(world, office),
        Sought::Message => message_from(world, office),
    }
}

/// The next rule of an office.
fn rule_at(world: &World, office: OfficeId) -> Option<NextStep>
    requires { office < length world.now.plan.offices }
    ensures { result ≡ rule_at world.now office }
{
    let Some(rule) = world.office(office).next_rule() else {
        return None;
    };
    Some(NextStep::Rule(office, rule))
}

/// The next message of an office, for the least neighbour that has one to take.
fn message_from(world: &World, from: OfficeId) -> Option<NextStep>
    requires { from < length world.now.plan.offices }
    ensures { result ≡ message_from world.now from }
{
    for to in world.plan().neighbours(from) {
        if let Some(message) = message_to(world, from, *to) {
            return Some(message);
        }
    }
    None
}

/// The next message of an office for a neighbour: one past those that it took, where so many were sent.
fn message_to(world: &World, from: OfficeId, to: OfficeId) -> Option<NextStep>
    requires sender { from < length world.now.plan.offices }
    requires taker { to < length world.now.plan.offices }
    requires near { IsTrue (are_neighbours world.now.plan from to) }
    ensures { result ≡ message_to world.now from to }
{
    let (first, waiting) = world.office(from).waiting(to).unwrap();
    let taken = world.office(to).taken(from).unwrap();
    let sent = first - 1 + waiting as u64;
    if taken < sent {
        Some(NextStep::Message(from, to, taken + 1))
    } else {
        None
    }
}

/// The office that a step may leave otherwise is asked again after it. Who makes a frame stays as it is.
pub(crate) fn wake(world: &World, step: &NextStep, resting: &mut Resting)
    requires step { IsStep world.now step.now }
    requires rest { RestIn world.now resting.old }
    ensures { RestAfter world.now step.now resting.new }
{
    links_only_grow();
    // There are at most 16 offices, and neighbours are offices.
    let _ = world.plan().offices();
    match *step {
        NextStep::Rule(office, _) => resting.wake(office),
        NextStep::Message(_, to, _) => resting.wake(to),
        NextStep::AllFinished => {}
    }
}
