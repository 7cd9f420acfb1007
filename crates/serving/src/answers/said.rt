//! The lines that an office says.

ghost use Rattle.std.specs.Prelude.{◌≡◌, ◌++◌, OnOk};
ghost use Rattle.std.specs.String.{string_bytes};
ghost use Rattle.office_map.specs.PlanValue.{PlanValue, peer};
ghost use Rattle.session_reports.specs.Names.{office_name};
ghost use Rattle.serving.specs.answers.Said.{Away, NotOurs, OtherSession, Pending, Taken, TicketAhead, Unread, away_as, ready_as, rule_text, said_as, unread_as};
ghost use Rattle.serving.specs.answers.Answers.{known, look};

use office_map::{OfficeId, RecordId};
use session_language::{SessionRefusal, SessionRule};
use session_reports::form::Form;
use session_reports::form::report::{add_outcome, add_value};
use session_reports::form::words::{add_count, add_words};
use session_reports::names::{office_name, record_name};
use site_core::Office;
use std::alloc::AllocError;
use std::fmt::Write;

/// ticket T: the session has this ticket.
pub(crate) fn add_taken(text: &mut String, form: Form, ticket: u32) -> Result<(), AllocError>
    ensures { OnOk result ((p : PlanValue) → string_bytes text.new ≡ string_bytes text.old ++ said_as form p (Taken ticket)) }
{
    add_count(text, form, "ticket", u64::from(ticket))
}

/// What became of the session with a ticket: the line of its outcome, or pending T.
pub(crate) fn add_known(
    text: &mut String,
    form: Form,
    office: &Office,
    ticket: u32,
) -> Result<(), AllocError>
    ensures { OnOk result (string_bytes text.new ≡ string_bytes text.old ++ said_as form office.now.plan (known office.now ticket)) }
{
    match office.outcome(ticket) {
        Some(outcome) => add_outcome(text, form, office.plan(), outcome),
        None => add_pending(text, form, ticket),
    }
}

fn add_pending(text: &mut String, form: Form, ticket: u32) -> Result<(), AllocError>
    ensures { OnOk result ((p : PlanValue) → string_bytes text.new ≡ string_bytes text.old ++ said_as form p (Pending ticket)) }
{
    add_count(text, form, "pending", u64::from(ticket))
}

/// Another session has the ticket.
pub(crate) fn add_other(text: &mut String, form: Form) -> Result<(), AllocError>
    ensures { OnOk result ((p : PlanValue) → string_bytes text.new ≡ string_bytes text.old ++ said_as form p OtherSession) }
{
    add_words(text, form, "refused", "O6 OtherSession")
}

/// Tickets before this one weren't given yet.
pub(crate) fn add_ahead(text: &mut String, form: Form) -> Result<(), AllocError>
    ensures { OnOk result ((p : PlanValue) → string_bytes text.new ≡ string_bytes text.old ++ said_as form p TicketAhead) }
{
    add_words(text, form, "refused", "O7 TicketAhead")
}

/// The session is another office's.
pub(crate) fn add_not_ours(text: &mut String, form: Form) -> Result<(), AllocError>
    ensures { OnOk result ((p : PlanValue) → string_bytes text.new ≡ string_bytes text.old ++ said_as form p NotOurs) }
{
    add_words(text, form, "refused", "O2 NotOurs")
}

/// The value of a record, where its bottle is here; else the neighbour at which it is, or on its way to or from there.
pub(crate) fn add_look(
    text: &mut String,
    form: Form,
    office: &Office,
    id: RecordId,
) -> Result<(), AllocError>
    ensures { OnOk result (string_bytes text.new ≡ string_bytes text.old ++ said_as form office.now.plan (look office.now id)) }
{
    match office.held_value(id) {
        Some(value) => add_value(text, form, office.plan(), id, value),
        None => add_not_here(text, form, office, id),
    }
}

fn add_not_here(
    text: &mut String,
    form: Form,
    office: &Office,
    id: RecordId,
) -> Result<(), AllocError>
    ensures { OnOk result (string_bytes text.new ≡ string_bytes text.old ++ said_as form office.now.plan (Away id (peer office.now.plan office.now.me id))) }
{
    let name = record_name(office.plan(), id);
    add_away(text, form, name, other_name(office, id))
}

/// The record of that name is away, at this neighbour or between.
fn add_away(text: &mut String, form: Form, name: &str, neighbour: &str) -> Result<(), AllocError>
    ensures { OnOk result (string_bytes text.new ≡ string_bytes text.old ++ away_as form name.now neighbour.now) }
{
    match form {
        Form::Plain => writeln!(text, "away {name} {neighbour}"),
        Form::Json => writeln!(
            text,
            "{{\"away\":\"{name}\",\"neighbour\":\"{neighbour}\"}}"
        ),
    }
}

/// The name of the office at a record's other end; of a record that the plan hasn't, that of its first office.
fn other_name(office: &Office, id: RecordId) -> &str
    ensures { result.now ≡ office_name office.now.plan (peer office.now.plan office.now.me id) }
{
    let plan = office.plan();
    if id.index() < plan.records() {
        office_name(plan, plan.other_end(id, office.number()))
    } else {
        office_name(plan, OfficeId::new(0))
    }
}

/// What was asked can't be read, and the first line at which that is seen.
pub(crate) fn add_misread(
    text: &mut String,
    form: Form,
    refusal: SessionRefusal,
) -> Result<(), AllocError>
    ensures { OnOk result ((p : PlanValue) → string_bytes text.new ≡ string_bytes text.old ++ said_as form p (Unread refusal)) }
{
    add_unread(text, form, rule_text(refusal.rule), refusal.line)
}

fn add_unread(text: &mut String, form: Form, rule: &str, line: u64) -> Result<(), AllocError>
    ensures { OnOk result (string_bytes text.new ≡ string_bytes text.old ++ unread_as form rule.now line) }
{
    match form {
        Form::Plain => writeln!(text, "refused {rule} line {line}"),
        Form::Json => writeln!(text, "{{\"refused\":\"{rule}\",\"line\":{line}}}"),
    }
}

/// The code and the name of a rule.
fn rule_text(rule: SessionRule) -> &'static str
    ensures { result.now ≡ rule_text rule }
{
    match rule {
        SessionRule::Syntax => "S1 Syntax",
        SessionRule::UnknownName => "S2 UnknownName",
        SessionRule::UnknownRecord => "S3 UnknownRecord",
        SessionRule::TooDeep => "S4 TooDeep",
        SessionRule::TooLong => "S5 TooLong",
        SessionRule::TooManyRecords => "S6 TooManyRecords",
        SessionRule::TooManyGives => "S7 TooManyGives",
        SessionRule::TooManyVariables => "S8 TooManyVariables",
    }
}

/// ready T: so many tickets were given.
pub fn add_ready(text: &mut String, form: Form, tickets: u32) -> Result<(), AllocError>
    ensures { OnOk result (string_bytes text.new ≡ string_bytes text.old ++ ready_as form tickets) }
{
    add_count(text, form, "ready", u64::from(tickets))
}
