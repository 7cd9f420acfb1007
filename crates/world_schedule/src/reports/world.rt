//! The report of a world.

ghost use Rattle.std.specs.Prelude.{◌≡◌, ◌++◌, Some, slice_get, OnOk};
ghost use Rattle.std.specs.List.{flat_map};
ghost use Rattle.std.specs.String.{string_bytes};
ghost use Rattle.session_meaning.specs.declared.ending.Outcome.{Outcome};
ghost use Rattle.frame_world.specs.Headline.{outcomes};
ghost use Rattle.session_reports.specs.form.Forms.{outcome_as, unfinished_as, values_as};
ghost use Rattle.world_schedule.specs.reports.WorldReport.{bottle_value, world_report};

use crate::World;
use office_map::RecordId;
use session_reports::form::Form;
use session_reports::form::report::{add_outcome, add_unfinished, add_value};
use session_reports::laws::rows_are_added;
use std::alloc::AllocError;

/// The report of a world in that form, of whose sessions so many are told as unfinished: the finished sessions in finishing order, that
/// number, and the records' values. Where memory runs out, a part of it may be added.
pub fn add_world(
    text: &mut String,
    form: Form,
    world: &World,
    unfinished: usize,
) -> Result<(), AllocError>
    ensures { OnOk result (string_bytes text.new ≡ string_bytes text.old ++ world_report form world.now unfinished) }
{
    add_finished(text, form, world)?;
    add_rest(text, form, world, unfinished)?;
    Ok(())
}

fn add_finished(text: &mut String, form: Form, world: &World) -> Result<(), AllocError>
    ensures { OnOk result (string_bytes text.new ≡ string_bytes text.old ++ flat_map (outcome_as form world.now.plan) (outcomes world.now)) }
{
    for i in 0..world.finished().len() {
        add_nth(text, form, world, i)?;
    }
    Ok(())
}

/// The line of the session that finished as the `i`-th, from 0.
pub(crate) fn add_nth(
    text: &mut String,
    form: Form,
    world: &World,
    i: usize,
) -> Result<(), AllocError>
    ensures { OnOk result ((o : Outcome) → slice_get (outcomes world.now) i ≡ Some o → string_bytes text.new ≡ string_bytes text.old ++ outcome_as form world.now.plan o) }
{
    match world.outcome(i) {
        Some(outcome) => add_outcome(text, form, world.plan(), outcome),
        None => Ok(()),
    }
}

/// What stands after the finished sessions: how many haven't finished, and the records' values.
pub(crate) fn add_rest(
    text: &mut String,
    form: Form,
    world: &World,
    unfinished: usize,
) -> Result<(), AllocError>
    ensures { OnOk result (string_bytes text.new ≡ string_bytes text.old ++ (unfinished_as form unfinished ++ values_as form world.now.plan (bottle_value world.now))) }
{
    add_unfinished(text, form, unfinished)?;
    add_bottles(text, form, world)?;
    Ok(())
}

fn add_bottles(text: &mut String, form: Form, world: &World) -> Result<(), AllocError>
    ensures { OnOk result (string_bytes text.new ≡ string_bytes text.old ++ values_as form world.now.plan (bottle_value world.now)) }
{
    rows_are_added();
    let plan = world.plan();
    for i in 0..plan.records() {
        let id = RecordId::new(i as u16);
        add_value(text, form, plan, id, world.value_of(id))?;
    }
    Ok(())
}
