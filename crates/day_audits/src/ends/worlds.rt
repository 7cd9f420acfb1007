//! What the offices of a world leave.

ghost use Rattle.std.specs.Prelude.{◌≡◌, ◌<◌, ◌++◌, All, IfOk, OnOk, length};
ghost use Rattle.std.specs.String.{string_bytes};
ghost use Rattle.frame_world.specs.Worlds.{site_at};
ghost use Rattle.serial_replay.specs.Serial.{ListsValues};
ghost use Rattle.day_audits.specs.left.Left.{left_programs};
ghost use Rattle.day_audits.specs.left.LeftTexts.{ReadsBack, texts_of};
ghost use Rattle.day_audits.specs.plans.NextPlans.{IsNextPlan};
ghost use Rattle.day_audits.specs.ends.DayEnds.{end_map, IsLeftOnce, IsLeftText};

use crate::ends::plans::next_plan_with;
use crate::left::add_left;
use crate::left::laws::{nothing_is_lost_or_twice, texts_are_read_in_turn};
use bottle_values::Value;
use office_map::{OfficeId, RecordId};
use std::alloc::{AllocError, Global};
use world_schedule::World;

/// The text of the plan of the day after a world's.
pub fn next_plan_of(alloc: Global, world: &World) -> Result<String, AllocError>
    ensures { IfOk result (λ text. IsNextPlan world.now.plan (end_map world.now) (string_bytes text)) }
{
    let values = values_of(alloc, world)?;
    next_plan_with(alloc, world.plan(), &values)
}

/// The values of all records, in order of number: those of their bottles.
fn values_of(alloc: Global, world: &World) -> Result<Vec<Value>, AllocError>
    ensures { IfOk result (λ v. ListsValues v.items (length world.now.plan.records) (end_map world.now)) }
{
    let plan = world.plan();
    let mut values = Vec::with_capacity(alloc, plan.records())?;
    for i in 0..plan.records() {
        values.push(world.value_of(RecordId::new(i as u16)))?;
    }
    Ok(values)
}

/// The text of the sessions that the offices of a world have left, by office and ticket.
pub fn left_of(alloc: Global, world: &World) -> Result<String, AllocError>
    ensures { IfOk result (λ text. IsLeftText world.now (string_bytes text)) }
{
    texts_are_read_in_turn();
    let mut text = String::new(alloc);
    for a in 0..world.plan().offices() {
        add_office(alloc, &mut text, world, OfficeId::new(a as u8))?;
    }
    Ok(text)
}

/// The texts of the sessions that an office of a world has left are added.
fn add_office(
    alloc: Global,
    text: &mut String,
    world: &World,
    office: OfficeId,
) -> Result<(), AllocError>
    requires { office < length world.now.plan.offices }
    ensures added { OnOk result (string_bytes text.new ≡ string_bytes text.old ++ texts_of world.now.plan (left_programs (site_at world.now office))) }
    ensures read { OnOk result (All (ReadsBack world.now.plan) (left_programs (site_at world.now office))) }
    ensures once { IsLeftOnce (site_at world.now office) }
{
    nothing_is_lost_or_twice();
    // Its journal is legal.
    let _ = world.journal(office);
    add_left(alloc, text, world.office(office))
}
