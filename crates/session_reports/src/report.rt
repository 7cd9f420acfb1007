//! The lines of outcomes and of values.

ghost use Rattle.std.specs.Prelude.{◌≡◌, ◌++◌, ◌∷◌, [], codes, length, IfOk, OnOk};
ghost use Rattle.std.specs.List.{flat_map};
ghost use Rattle.std.specs.String.{string_bytes};
ghost use Rattle.bottle_values.specs.Printed.{value_text};
ghost use Rattle.session_reports.specs.Report.{end_text, listed, record_text, title, outcome_line, unfinished_line, value_at, value_line, value_lines, report_of};

use crate::names::{office_name, record_name};
use crate::numbers::add_number;
use bottle_values::Value;
use itoa::Buffer;
use office_map::{Plan, RecordId};
use session_meaning::{End, Gives, Outcome};
use std::alloc::{AllocError, Global};

/// One line for each outcome, in this order, and then one line for each record, in order of number.
/// There is one value for each record of the plan.
pub fn report(
    alloc: Global,
    plan: &Plan,
    outcomes: &[Outcome],
    values: &[Value],
) -> Result<String, AllocError>
    requires { length values.now ≡ length plan.now.records }
    ensures { IfOk result (λ text. string_bytes text ≡ report_of plan.now outcomes.now (value_at values.now)) }
{
    let mut text = String::new(alloc);
    for outcome in outcomes {
        add_outcome(&mut text, plan, outcome)?;
    }
    add_values(&mut text, plan, values)?;
    Ok(text)
}

/// The line of an outcome is added. Where memory runs out, a part of it may be.
pub fn add_outcome(text: &mut String, plan: &Plan, outcome: &Outcome) -> Result<(), AllocError>
    ensures { OnOk result (string_bytes text.new ≡ string_bytes text.old ++ outcome_line plan.now outcome.now) }
{
    add_title(text, plan, outcome)?;
    add_records(text, " reads", plan, outcome.ending.reads.as_slice())?;
    add_records(text, " writes", plan, outcome.ending.writes.as_slice())?;
    add_gives(text, &outcome.ending.gives)?;
    text.push_str("\n")?;
    Ok(())
}

fn add_title(text: &mut String, plan: &Plan, outcome: &Outcome) -> Result<(), AllocError>
    ensures { OnOk result (string_bytes text.new ≡ string_bytes text.old ++ title plan.now outcome.now) }
{
    text.push_str(office_name(plan, outcome.office))?;
    text.push_str(".")?;
    add_number(text, u64::from(outcome.ticket))?;
    text.push_str(" ")?;
    add_end(text, outcome.ending.end)
}

fn add_end(text: &mut String, end: End) -> Result<(), AllocError>
    ensures { OnOk result (string_bytes text.new ≡ string_bytes text.old ++ end_text end) }
{
    match end {
        End::Done => text.push_str("done"),
        End::Refused(code) => write!(text, "refused {code}"),
        End::Overflow => text.push_str("overflow"),
        End::Mismatch => text.push_str("mismatch"),
    }
}

fn add_records(
    text: &mut String,
    label: &str,
    plan: &Plan,
    records: &[(RecordId, Value)],
) -> Result<(), AllocError>
    ensures { OnOk result (string_bytes text.new ≡ string_bytes text.old ++ (label.now ++ listed (record_text plan.now) records.now)) }
{
    text.push_str(label)?;
    if records.is_empty() {
        return text.push_str(" -");
    }
    for (id, value) in records {
        add_record(text, plan, *id, *value)?;
    }
    Ok(())
}

fn add_record(text: &mut String, plan: &Plan, id: RecordId, value: Value) -> Result<(), AllocError>
    ensures { OnOk result (string_bytes text.new ≡ string_bytes text.old ++ (32 ∷ record_text plan.now (id, value))) }
{
    text.push_str(" ")?;
    text.push_str(record_name(plan, id))?;
    text.push_str("=")?;
    add_text(text, value)
}

fn add_gives(text: &mut String, gives: &Gives) -> Result<(), AllocError>
    ensures { OnOk result (string_bytes text.new ≡ string_bytes text.old ++ (codes " gives" ++ listed value_text gives.now)) }
{
    text.push_str(" gives")?;
    if gives.len() == 0 {
        return text.push_str(" -");
    }
    for i in 0..gives.len() {
        add_given(text, gives.get(i))?;
    }
    Ok(())
}

fn add_given(text: &mut String, value: Value) -> Result<(), AllocError>
    ensures { OnOk result (string_bytes text.new ≡ string_bytes text.old ++ (32 ∷ value_text value)) }
{
    text.push_str(" ")?;
    add_text(text, value)
}

fn add_text(text: &mut String, value: Value) -> Result<(), AllocError>
    ensures { OnOk result (string_bytes text.new ≡ string_bytes text.old ++ value_text value) }
{
    match value {
        Value::Number(number) => {
            let mut buffer = Buffer::new();
            text.push_str(buffer.format(number))
        }
        Value::Text(words) => {
            text.push_str("\"")?;
            text.push_str(words.as_str())?;
            text.push_str("\"")
        }
    }
}

fn add_values(text: &mut String, plan: &Plan, values: &[Value]) -> Result<(), AllocError>
    requires { length values.now ≡ length plan.now.records }
    ensures { OnOk result (string_bytes text.new ≡ string_bytes text.old ++ value_lines plan.now (value_at values.now)) }
{
    for i in 0..plan.records() {
        add_value(text, plan, RecordId::new(i as u16), values[i])?;
    }
    Ok(())
}

/// The line of a record with its value is added. Where memory runs out, a part of it may be.
pub fn add_value(
    text: &mut String,
    plan: &Plan,
    id: RecordId,
    value: Value,
) -> Result<(), AllocError>
    ensures { OnOk result (string_bytes text.new ≡ string_bytes text.old ++ value_line plan.now id value) }
{
    text.push_str("value ")?;
    text.push_str(record_name(plan, id))?;
    text.push_str(" ")?;
    add_text(text, value)?;
    text.push_str("\n")
}

/// The line that says how many sessions haven't finished is added. Where memory runs out, a part of it may be.
pub fn add_unfinished(text: &mut String, count: usize) -> Result<(), AllocError>
    ensures { OnOk result (string_bytes text.new ≡ string_bytes text.old ++ unfinished_line count) }
{
    writeln!(text, "unfinished {count}")
}
