//! Writing the plan of the next day.

ghost use Rattle.std.specs.Prelude.{◌≡◌, ◌<◌, ◌++◌, ◌∷◌, [], codes, length, IfOk, OnOk, IsTrue, All};
ghost use Rattle.std.specs.String.{string_bytes};
ghost use Rattle.bottle_values.specs.Operations.{is_value};
ghost use Rattle.bottle_values.specs.Printed.{value_text};
ghost use Rattle.session_reports.specs.Report.{value_at};
ghost use Rattle.day_audits.specs.carried.Days.{with_values};
ghost use Rattle.day_audits.specs.plans.WrittenPlans.{ended, header_words, office_lines, pair_lines, pair_words, record_lines};
ghost use Rattle.day_audits.specs.plans.NextPlans.{IsNextPlan};
ghost use Rattle.day_audits.specs.plans.refinement.LinesByNumber.{office_line, record_line};

use crate::carried::run_numbers::next_run;
use crate::plans::laws::next_plans_are_read;
use bottle_values::{Value, Version};
use itoa::Buffer;
use office_map::{OfficeId, PairEntry, Plan, RecordId};
use session_reports::names::{office_name, record_name};
use std::alloc::{AllocError, Global};

/// The text of the plan of the next day: the same offices, pairs and records, with these values, one for each record, and
/// the next run number.
pub fn next_plan(alloc: Global, plan: &Plan, values: &[Value]) -> Result<String, AllocError>
    requires { length values.now ≡ length plan.now.records }
    ensures { IfOk result (λ text. IsNextPlan plan.now (value_at values.now) (string_bytes text)) }
{
    next_plans_are_read();
    // The plan is accepted.
    let _ = plan.offices();
    let mut text = String::new(alloc);
    add_header(&mut text, plan.version(), next_run(plan.run()))?;
    add_offices(&mut text, plan)?;
    add_pairs(&mut text, plan, plan.pairs())?;
    add_records(&mut text, plan, values)?;
    Ok(text)
}

/// The first line is added.
fn add_header(text: &mut String, version: Version, run: u32) -> Result<(), AllocError>
    ensures { OnOk result (string_bytes text.new ≡ string_bytes text.old ++ ended (header_words version run)) }
{
    let number = version.number();
    write!(text, "plan {number} run {run}\n")
}

/// The lines of the offices are added.
fn add_offices(text: &mut String, plan: &Plan) -> Result<(), AllocError>
    ensures { OnOk result (string_bytes text.new ≡ string_bytes text.old ++ office_lines plan.now.offices) }
{
    for i in 0..plan.offices() {
        add_office(text, plan, OfficeId::new(i as u8))?;
    }
    Ok(())
}

/// The line of an office is added.
fn add_office(text: &mut String, plan: &Plan, id: OfficeId) -> Result<(), AllocError>
    requires { id < length plan.now.offices }
    ensures { OnOk result (string_bytes text.new ≡ string_bytes text.old ++ office_line plan.now id) }
{
    add_office_line(text, office_name(plan, id), plan.address(id))
}

fn add_office_line(text: &mut String, name: &str, address: &str) -> Result<(), AllocError>
    ensures { OnOk result (string_bytes text.new ≡ string_bytes text.old ++ ended (codes "office" ∷ name.now ∷ address.now ∷ [])) }
{
    write!(text, "office {name} {address}\n")
}

/// The lines of pairs of a plan are added.
fn add_pairs(text: &mut String, plan: &Plan, pairs: &[PairEntry]) -> Result<(), AllocError>
    ensures { OnOk result (string_bytes text.new ≡ string_bytes text.old ++ pair_lines plan.now pairs.now) }
{
    for pair in pairs {
        add_pair(text, plan, pair)?;
    }
    Ok(())
}

/// The line of a pair is added.
fn add_pair(text: &mut String, plan: &Plan, pair: &PairEntry) -> Result<(), AllocError>
    ensures { OnOk result (string_bytes text.new ≡ string_bytes text.old ++ ended (pair_words plan.now pair.now)) }
{
    let first = office_name(plan, pair.first);
    let second = office_name(plan, pair.second);
    let end = office_name(plan, pair.fork_end());
    write!(text, "pair {first} {second} fork {end}\n")
}

/// The lines of the records are added, with these values.
fn add_records(text: &mut String, plan: &Plan, values: &[Value]) -> Result<(), AllocError>
    requires { length values.now ≡ length plan.now.records }
    ensures lines { OnOk result (string_bytes text.new ≡ string_bytes text.old ++ record_lines plan.now (with_values (value_at values.now) 0 plan.now.records)) }
    ensures values { OnOk result (All (λ v. IsTrue (is_value v)) values.now) }
{
    for i in 0..plan.records() {
        add_record(text, plan, RecordId::new(i as u16), values[i])?;
    }
    Ok(())
}

/// The line of a record with this value is added.
fn add_record(text: &mut String, plan: &Plan, id: RecordId, value: Value) -> Result<(), AllocError>
    requires { id < length plan.now.records }
    ensures line { OnOk result (string_bytes text.new ≡ string_bytes text.old ++ record_line plan.now id value) }
    ensures value { OnOk result (IsTrue (is_value value)) }
{
    let (a, b) = plan.ends(id);
    let end = plan.start_end(id);
    add_record_line(
        text,
        record_name(plan, id),
        office_name(plan, a),
        office_name(plan, b),
        value,
        office_name(plan, end),
    )
}

fn add_record_line(
    text: &mut String,
    name: &str,
    a: &str,
    b: &str,
    value: Value,
    end: &str,
) -> Result<(), AllocError>
    ensures line { OnOk result (string_bytes text.new ≡ string_bytes text.old ++ ended (codes "record" ∷ name.now ∷ a.now ∷ b.now ∷ value_text value ∷ codes "at" ∷ end.now ∷ [])) }
    ensures value { OnOk result (IsTrue (is_value value)) }
{
    write!(text, "record {name} {a} {b} ")?;
    add_value(text, value)?;
    write!(text, " at {end}\n")
}

/// A value is added: a number in decimal, or a text between two `"`.
fn add_value(text: &mut String, value: Value) -> Result<(), AllocError>
    ensures text { OnOk result (string_bytes text.new ≡ string_bytes text.old ++ value_text value) }
    ensures value { OnOk result (IsTrue (is_value value)) }
{
    match value {
        Value::Number(number) => {
            let mut buffer = Buffer::new();
            text.push_str(buffer.format(number))
        }
        Value::Text(held) => {
            // Its bytes are those of a text.
            let _ = held.as_bytes();
            write!(text, "{held}")
        }
    }
}
