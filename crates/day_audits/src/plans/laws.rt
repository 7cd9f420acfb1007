//! What holds of the texts of plans.

ghost use Rattle.day_audits.specs.plans.LeftValues.{LeftValuesAreAdmitted};
ghost use Rattle.day_audits.specs.plans.NextPlans.{NextPlansAreRead};
ghost use Rattle.day_audits.specs.plans.WrittenPlans.{PlanTextsAreRead};

use crate::carried::laws::carried_starts_with;
use session_meaning::laws::values_fit;

/// The text of a plan means that plan.
pub fn plan_texts_are_read()
    ensures { PlanTextsAreRead }
{}

/// The text of the next day's plan means it, and it starts with the values that are carried on.
pub fn next_plans_are_read()
    ensures { NextPlansAreRead }
{
    carried_starts_with();
}

/// What sessions that fit a plan leave, one after another, are values of its version: so the text of the next day's plan is read.
pub fn left_values_are_admitted()
    ensures { LeftValuesAreAdmitted }
{
    values_fit();
}
