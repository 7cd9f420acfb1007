//! The lines of outcomes and of values, in either form.

ghost use Rattle.std.specs.Prelude.{◌≡◌, ◌++◌, length, IfOk, OnOk};
ghost use Rattle.std.specs.List.{flat_map};
ghost use Rattle.std.specs.String.{string_bytes};
ghost use Rattle.session_reports.specs.Report.{value_at};
ghost use Rattle.session_reports.specs.form.Forms.{outcome_as, report_as, unfinished_as, value_as};

use crate::form::forms::Form;
use crate::json::report as json;
use crate::report as plain;
use bottle_values::Value;
use office_map::{Plan, RecordId};
use session_meaning::Outcome;
use std::alloc::{AllocError, Global};

/// One line for each outcome, in this order, and then one line for each record, in order of number.
/// There is one value for each record of the plan.
pub fn report(
    alloc: Global,
    form: Form,
    plan: &Plan,
    outcomes: &[Outcome],
    values: &[Value],
) -> Result<String, AllocError>
    requires { length values.now ≡ length plan.now.records }
    ensures { IfOk result (λ text. string_bytes text ≡ report_as form plan.now outcomes.now (value_at values.now)) }
{
    match form {
        Form::Plain => plain::report(alloc, plan, outcomes, values),
        Form::Json => json::report(alloc, plan, outcomes, values),
    }
}

/// The line of an outcome is added. Where memory runs out, a part of it may be.
pub fn add_outcome(
    text: &mut String,
    form: Form,
    plan: &Plan,
    outcome: &Outcome,
) -> Result<(), AllocError>
    ensures { OnOk result (string_bytes text.new ≡ string_bytes text.old ++ outcome_as form plan.now outcome.now) }
{
    match form {
        Form::Plain => plain::add_outcome(text, plan, outcome),
        Form::Json => json::add_outcome(text, plan, outcome),
    }
}

/// The lines of these outcomes are added, and how many they are is told. Where memory runs out, some may be.
pub fn add_outcomes(
    text: &mut String,
    form: Form,
    plan: &Plan,
    outcomes: &[Outcome],
) -> Result<usize, AllocError>
    ensures lines { OnOk result (string_bytes text.new ≡ string_bytes text.old ++ flat_map (outcome_as form plan.now) outcomes.now) }
    ensures count { IfOk result (λ n. n ≡ length outcomes.now) }
{
    for outcome in outcomes {
        add_outcome(text, form, plan, outcome)?;
    }
    Ok(outcomes.len())
}

/// The line of a record with its value is added. Where memory runs out, a part of it may be.
pub fn add_value(
    text: &mut String,
    form: Form,
    plan: &Plan,
    id: RecordId,
    value: Value,
) -> Result<(), AllocError>
    ensures { OnOk result (string_bytes text.new ≡ string_bytes text.old ++ value_as form plan.now id value) }
{
    match form {
        Form::Plain => plain::add_value(text, plan, id, value),
        Form::Json => json::add_value(text, plan, id, value),
    }
}

/// The line that says how many sessions haven't finished is added. Where memory runs out, a part of it may be.
pub fn add_unfinished(text: &mut String, form: Form, count: usize) -> Result<(), AllocError>
    ensures { OnOk result (string_bytes text.new ≡ string_bytes text.old ++ unfinished_as form count) }
{
    match form {
        Form::Plain => plain::add_unfinished(text, count),
        Form::Json => json::add_unfinished(text, count),
    }
}
