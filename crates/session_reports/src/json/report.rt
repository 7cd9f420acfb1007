//! The lines of outcomes and of values.

ghost use Rattle.std.specs.Prelude.{◌≡◌, ◌<◌, ◌++◌, ◌∷◌, [], if◌then◌else◌, codes, length, IfOk, IsTrue, OnOk};
ghost use Rattle.std.specs.List.{flat_map, list_all};
ghost use Rattle.std.specs.Fmt.{decimal};
ghost use Rattle.std.specs.String.{string_bytes};
ghost use Rattle.bottle_values.specs.Texts.{is_text_byte};
ghost use Rattle.session_reports.specs.Report.{value_at};
ghost use Rattle.session_reports.specs.json.Json.{escaped, field, joined, json_array, json_end, json_member, json_object, json_outcome, json_report_of, json_title, json_unfinished, json_unwoven, json_value, json_value_line, json_value_lines, key, quoted};

use crate::laws::rows_are_added;
use crate::names::{office_name, record_name};
use crate::numbers::add_number;
use bottle_values::{Text, Value};
use itoa::Buffer;
use office_map::{OfficeId, Plan, RecordId};
use session_meaning::{End, Gives, Outcome};
use std::alloc::{AllocError, Global};

/// One line for each outcome, in this order, and then one line for each record, in order of number.
/// There is one value for each record of the plan.
pub fn report(
    alloc: Global,
    plan: &Plan,
    outcomes: &[Outcome],
    values: &[Value],
) -> Result<String, AllocError>
    requires { length values.now ≡ length plan.now.records }
    ensures { IfOk result (λ text. string_bytes text ≡ json_report_of plan.now outcomes.now (value_at values.now)) }
{
    let mut text = String::new(alloc);
    for outcome in outcomes {
        add_outcome(&mut text, plan, outcome)?;
    }
    add_values(&mut text, plan, values)?;
    Ok(text)
}

/// The line of an outcome is added. Where memory runs out, a part of it may be.
pub fn add_outcome(text: &mut String, plan: &Plan, outcome: &Outcome) -> Result<(), AllocError>
    ensures { OnOk result (string_bytes text.new ≡ string_bytes text.old ++ json_outcome plan.now outcome.now) }
{
    add_title(text, plan, outcome)?;
    add_object_field(text, "reads", plan, outcome.ending.reads.as_slice())?;
    add_object_field(text, "writes", plan, outcome.ending.writes.as_slice())?;
    add_gives(text, &outcome.ending.gives)?;
    text.push_str("}\n")
}

/// A line up to what the session read.
fn add_title(text: &mut String, plan: &Plan, outcome: &Outcome) -> Result<(), AllocError>
    ensures { OnOk result (string_bytes text.new ≡ string_bytes text.old ++ json_title plan.now outcome.now) }
{
    text.push_str("{")?;
    add_key(text, "office")?;
    add_quoted(text, office_name(plan, outcome.office))?;
    add_ticket(text, outcome.ticket)?;
    add_end_field(text, outcome.ending.end)
}

fn add_ticket(text: &mut String, ticket: u32) -> Result<(), AllocError>
    ensures { OnOk result (string_bytes text.new ≡ string_bytes text.old ++ field (codes "ticket") (decimal ticket)) }
{
    add_field_key(text, "ticket")?;
    add_number(text, u64::from(ticket))
}

fn add_end_field(text: &mut String, end: End) -> Result<(), AllocError>
    ensures { OnOk result (string_bytes text.new ≡ string_bytes text.old ++ field (codes "end") (json_end end)) }
{
    add_field_key(text, "end")?;
    add_end(text, end)
}

fn add_object_field(
    text: &mut String,
    name: &str,
    plan: &Plan,
    records: &[(RecordId, Value)],
) -> Result<(), AllocError>
    ensures { OnOk result (string_bytes text.new ≡ string_bytes text.old ++ field name.now (json_object plan.now records.now)) }
{
    add_field_key(text, name)?;
    add_object(text, plan, records)
}

fn add_gives(text: &mut String, gives: &Gives) -> Result<(), AllocError>
    ensures { OnOk result (string_bytes text.new ≡ string_bytes text.old ++ field (codes "gives") (json_array gives.now)) }
{
    add_field_key(text, "gives")?;
    add_array(text, gives)
}

fn add_field_key(text: &mut String, name: &str) -> Result<(), AllocError>
    ensures { OnOk result (string_bytes text.new ≡ string_bytes text.old ++ (44 ∷ key name.now)) }
{
    text.push_str(",")?;
    add_key(text, name)
}

fn add_quoted(text: &mut String, name: &str) -> Result<(), AllocError>
    ensures { OnOk result (string_bytes text.new ≡ string_bytes text.old ++ quoted name.now) }
{
    text.push_str("\"")?;
    text.push_str(name)?;
    text.push_str("\"")
}

fn add_key(text: &mut String, name: &str) -> Result<(), AllocError>
    ensures { OnOk result (string_bytes text.new ≡ string_bytes text.old ++ key name.now) }
{
    text.push_str("\"")?;
    text.push_str(name)?;
    text.push_str("\":")
}

fn add_end(text: &mut String, end: End) -> Result<(), AllocError>
    ensures { OnOk result (string_bytes text.new ≡ string_bytes text.old ++ json_end end) }
{
    match end {
        End::Done => add_quoted(text, "done"),
        End::Refused(code) => add_refused(text, code),
        End::Overflow => add_quoted(text, "overflow"),
        End::Mismatch => add_quoted(text, "mismatch"),
    }
}

fn add_refused(text: &mut String, code: u16) -> Result<(), AllocError>
    ensures { OnOk result (string_bytes text.new ≡ string_bytes text.old ++ json_end (End.Refused code)) }
{
    text.push_str("{")?;
    add_key(text, "refused")?;
    add_number(text, u64::from(code))?;
    text.push_str("}")
}

fn add_object(
    text: &mut String,
    plan: &Plan,
    records: &[(RecordId, Value)],
) -> Result<(), AllocError>
    ensures { OnOk result (string_bytes text.new ≡ string_bytes text.old ++ json_object plan.now records.now) }
{
    text.push_str("{")?;
    if let Some((first, others)) = records.split_first() {
        add_member(text, plan, first.0, first.1)?;
        add_more_members(text, plan, others)?;
    }
    text.push_str("}")
}

fn add_more_members(
    text: &mut String,
    plan: &Plan,
    records: &[(RecordId, Value)],
) -> Result<(), AllocError>
    ensures { OnOk result (string_bytes text.new ≡ string_bytes text.old ++ flat_map (λ w. 44 ∷ json_member plan.now w) records.now) }
{
    for (id, value) in records {
        add_next_member(text, plan, *id, *value)?;
    }
    Ok(())
}

fn add_next_member(
    text: &mut String,
    plan: &Plan,
    id: RecordId,
    value: Value,
) -> Result<(), AllocError>
    ensures { OnOk result (string_bytes text.new ≡ string_bytes text.old ++ (44 ∷ json_member plan.now (id, value))) }
{
    text.push_str(",")?;
    add_member(text, plan, id, value)
}

fn add_member(text: &mut String, plan: &Plan, id: RecordId, value: Value) -> Result<(), AllocError>
    ensures { OnOk result (string_bytes text.new ≡ string_bytes text.old ++ json_member plan.now (id, value)) }
{
    add_key(text, record_name(plan, id))?;
    add_one(text, value)
}

fn add_array(text: &mut String, gives: &Gives) -> Result<(), AllocError>
    ensures { OnOk result (string_bytes text.new ≡ string_bytes text.old ++ json_array gives.now) }
{
    text.push_str("[")?;
    add_items(text, gives)?;
    text.push_str("]")
}

fn add_items(text: &mut String, gives: &Gives) -> Result<(), AllocError>
    ensures { OnOk result (string_bytes text.new ≡ string_bytes text.old ++ joined json_value gives.now) }
{
    for i in 0..gives.len() {
        add_item(text, i == 0, gives.get(i))?;
    }
    Ok(())
}

/// A value of an array, behind a comma where it isn't the first.
fn add_item(text: &mut String, is_first: bool, value: Value) -> Result<(), AllocError>
    ensures { OnOk result (string_bytes text.new ≡ string_bytes text.old ++ ((if is_first then [] else 44 ∷ []) ++ json_value value)) }
{
    if !is_first {
        text.push_str(",")?;
    }
    add_one(text, value)
}

fn add_one(text: &mut String, value: Value) -> Result<(), AllocError>
    ensures { OnOk result (string_bytes text.new ≡ string_bytes text.old ++ json_value value) }
{
    match value {
        Value::Number(number) => {
            let mut buffer = Buffer::new();
            text.push_str(buffer.format(number))
        }
        Value::Text(words) => add_string(text, words),
    }
}

fn add_string(text: &mut String, words: Text) -> Result<(), AllocError>
    ensures { OnOk result (string_bytes text.new ≡ string_bytes text.old ++ quoted (flat_map escaped words)) }
{
    text.push_str("\"")?;
    add_escaped(text, words.as_bytes())?;
    text.push_str("\"")
}

fn add_escaped(text: &mut String, bytes: &[u8]) -> Result<(), AllocError>
    requires { IsTrue (list_all is_text_byte bytes.now) }
    ensures { OnOk result (string_bytes text.new ≡ string_bytes text.old ++ flat_map escaped bytes.now) }
{
    for byte in bytes {
        add_byte(text, *byte)?;
    }
    Ok(())
}

fn add_byte(text: &mut String, byte: u8) -> Result<(), AllocError>
    requires { byte < 128 }
    ensures { OnOk result (string_bytes text.new ≡ string_bytes text.old ++ escaped byte) }
{
    text.push(char::from(byte))?;
    if byte == b'\\' {
        text.push_str("\\")?;
    }
    Ok(())
}

fn add_values(text: &mut String, plan: &Plan, values: &[Value]) -> Result<(), AllocError>
    requires { length values.now ≡ length plan.now.records }
    ensures { OnOk result (string_bytes text.new ≡ string_bytes text.old ++ json_value_lines plan.now (value_at values.now)) }
{
    rows_are_added();
    for i in 0..plan.records() {
        add_value(text, plan, RecordId::new(i as u16), values[i])?;
    }
    Ok(())
}

/// The line of a record with its value is added. Where memory runs out, a part of it may be.
pub fn add_value(
    text: &mut String,
    plan: &Plan,
    id: RecordId,
    value: Value,
) -> Result<(), AllocError>
    ensures { OnOk result (string_bytes text.new ≡ string_bytes text.old ++ json_value_line plan.now id value) }
{
    text.push_str("{")?;
    add_key(text, "value")?;
    add_quoted(text, record_name(plan, id))?;
    text.push_str(",")?;
    add_key(text, "is")?;
    add_one(text, value)?;
    text.push_str("}\n")
}

/// The line that says how many sessions haven't finished is added. Where memory runs out, a part of it may be.
pub fn add_unfinished(text: &mut String, count: usize) -> Result<(), AllocError>
    ensures { OnOk result (string_bytes text.new ≡ string_bytes text.old ++ json_unfinished count) }
{
    text.push_str("{")?;
    add_key(text, "unfinished")?;
    add_number(text, count as u64)?;
    text.push_str("}\n")
}

/// The line that names an entry of an office's journal, from 1, which no schedule has, is added. Where memory runs out, a part of it may be.
pub fn add_unwoven(
    text: &mut String,
    plan: &Plan,
    office: OfficeId,
    entry: usize,
) -> Result<(), AllocError>
    ensures { OnOk result (string_bytes text.new ≡ string_bytes text.old ++ json_unwoven plan.now office entry) }
{
    text.push_str("{")?;
    add_key(text, "unwoven")?;
    add_quoted(text, office_name(plan, office))?;
    add_entry(text, entry)?;
    text.push_str("}\n")
}

fn add_entry(text: &mut String, entry: usize) -> Result<(), AllocError>
    ensures { OnOk result (string_bytes text.new ≡ string_bytes text.old ++ field (codes "entry") (decimal entry)) }
{
    add_field_key(text, "entry")?;
    add_number(text, entry as u64)
}
