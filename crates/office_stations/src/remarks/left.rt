//! Which sessions of an office are left, and what each waits for.

ghost use Rattle.std.specs.Prelude.{◌≡◌, filter, IfOk};
ghost use Rattle.std.specs.Option.{option_copied};
ghost use Rattle.office_journal.specs.Shown.{event_shown};
ghost use Rattle.office_stations.specs.remarks.Left.{left_of, is_left, is_away, submitted_as, program_with, missing, IsWaitFor};

use office_map::RecordId;
use session_programs::Program;
use site_core::{EventRef, Journal, Office, Reply};
use std::alloc::{AllocError, Global};

/// What a session waits for that is left.
#[derive(Drop)]
pub enum WaitsFor {
    /// For these records.
    Records(Vec<RecordId>),
    /// For nothing: it would have gone on.
    Nothing,
    /// For the session with this ticket, which is before it.
    Session(u32),
    /// To be submitted.
    Submission,
}

/// The tickets of an office's sessions that haven't finished, of so many that are its own.
pub fn tickets_left(alloc: Global, office: &Office, sessions: u32) -> Result<Vec<u32>, AllocError>
    ensures { IfOk result (λ v. v.items ≡ left_of office.now sessions) }
{
    let mut tickets = Vec::new(alloc);
    for i in 0..sessions {
        let ticket = i + 1;
        if is_left(office, ticket) {
            tickets.push(ticket)?;
        }
    }
    Ok(tickets)
}

/// Whether the session with this ticket hasn't finished.
fn is_left(office: &Office, ticket: u32) -> bool
    ensures { result ≡ is_left office.now ticket }
{
    office.outcome(ticket).is_none()
}

/// What the session with this ticket waits for, which is left, and that one before it, if one is.
pub fn wait_for(
    alloc: Global,
    office: &Office,
    ticket: u32,
    before: Option<u32>,
) -> Result<WaitsFor, AllocError>
    ensures { IfOk result (IsWaitFor office.now ticket before) }
{
    if ticket > office.tickets() {
        return Ok(WaitsFor::Submission);
    }
    if let Some(first) = before {
        return Ok(WaitsFor::Session(first));
    }
    let records = missing(alloc, office, ticket)?;
    if records.is_empty() {
        return Ok(WaitsFor::Nothing);
    }
    Ok(WaitsFor::Records(records))
}

/// The records that a session needs, and whose bottles aren't here.
fn missing(alloc: Global, office: &Office, ticket: u32) -> Result<Vec<RecordId>, AllocError>
    ensures { IfOk result (λ v. v.items ≡ missing office.now ticket) }
{
    match program_with(office.journal(), ticket) {
        Some(program) => away(alloc, office, program.needs()),
        None => Ok(Vec::new(alloc)),
    }
}

/// Those of the records whose bottles aren't here.
fn away(alloc: Global, office: &Office, needs: &[RecordId]) -> Result<Vec<RecordId>, AllocError>
    ensures { IfOk result (λ v. v.items ≡ filter (is_away office.now) needs.now) }
{
    let mut records = Vec::new(alloc);
    for r in needs {
        if is_away(office, *r) {
            records.push(*r)?;
        }
    }
    Ok(records)
}

/// Whether the record's bottle isn't here.
fn is_away(office: &Office, r: RecordId) -> bool
    ensures { result ≡ is_away office.now r }
{
    office.held_value(r).is_none()
}

/// The program of the session with this ticket.
fn program_with(journal: &Journal, ticket: u32) -> Option<&Program>
    ensures { option_copied result ≡ program_with ticket journal.now.entries }
{
    // A journal's places are numbers of this type.
    let _ = journal.len();
    let mut place = 0;
    while let Some(entry) = journal.get(place) {
        if let Some(program) = submitted_as(ticket, &entry.event, &entry.reply) {
            return Some(program);
        }
        place += 1;
    }
    None
}

/// The program that an entry submits, if its reply is this ticket.
fn submitted_as<'a>(ticket: u32, event: &EventRef<'a>, reply: &Reply) -> Option<&'a Program>
    ensures { option_copied result ≡ submitted_as ticket (event_shown event.now) reply.now }
{
    let Reply::Ticket(n) = *reply else {
        return None;
    };
    match *event {
        EventRef::Submit(program) if n == ticket => Some(program),
        _ => None,
    }
}
