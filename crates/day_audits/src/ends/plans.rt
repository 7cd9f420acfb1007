//! The plan of the next day, with values from a list.

ghost use Rattle.std.specs.Prelude.{◌≡◌, ℕ, IfOk, length};
ghost use Rattle.std.specs.String.{string_bytes};
ghost use Rattle.bottle_values.specs.declared.Value as bottle;
ghost use Rattle.serial_replay.specs.Serial.{ListsValues};
ghost use Rattle.day_audits.specs.plans.NextPlans.{IsNextPlan};

use crate::plans::next_plan;
use bottle_values::Value;
use office_map::Plan;
use std::alloc::{AllocError, Global};

/// The text of the plan of the next day, which starts with these values, one for each record in order of number.
pub fn next_plan_with(alloc: Global, plan: &Plan, values: &[Value]) -> Result<String, AllocError>
    requires { length values.now ≡ length plan.now.records }
    ensures { IfOk result (λ text. (m : ℕ → bottle.Value) → ListsValues values.now (length plan.now.records) m → IsNextPlan plan.now m (string_bytes text)) }
{
    next_plan(alloc, plan, values)
}
