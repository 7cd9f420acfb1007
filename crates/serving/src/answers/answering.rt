//! What an office answers to what is asked.

ghost use Rattle.std.specs.Prelude.{◌≡◌, ◌<◌, ◌≤◌, ◌↔◌, ℕ, suc, length, take, drop, slice_get, true, IfErr, IfOk, IsOk, IsTrue};
ghost use Rattle.std.specs.Option.{option_copied};
ghost use Rattle.std.specs.String.{string_bytes};
ghost use Rattle.session_programs.specs.Program.{fits};
ghost use Rattle.office_journal.specs.Shown.{event_shown};
ghost use Rattle.session_streams.specs.declared.requests.asked.Asked.TheVariants as asks;
ghost use Rattle.site_core.specs.Submitted.{submitted_in};
ghost use Rattle.serving.specs.declared.answers.lack.Lack.TheVariants as lacks;
ghost use Rattle.serving.specs.answers.Answers.{Answered, Lacks, session_in, session_under, tickets_of};
ghost use Rattle.serving.specs.answers.TicketLaws.{AreNumbered};
ghost use Rattle.serving.specs.answers.refinement.{IsAgain, Submitted, session_by, submitted_as};

use crate::answers::lack::Lack;
use crate::answers::laws::tickets_are_numbered;
use crate::answers::said::{
    add_ahead, add_known, add_look, add_misread, add_not_ours, add_other, add_taken,
};
use office_journal::{EventRef, Refusal, Reply};
use office_map::Plan;
use session_language::laws::reads_back;
use session_programs::Program;
use session_reports::form::Form;
use session_streams::requests::Asked;
use site_core::{Journal, Office};
use std::alloc::{AllocError, Global};

/// Answers what is asked, and adds the line that says so; or answers that the office's queue is full, and then nothing is said. A
/// ticket that was given is looked for in the office's journal from the place on that is handed in, and then before it: so one that
/// hands in what the call before left, and asks for sessions again in their order, pays for one walk. The answer is the same.
///
/// # Errors
/// `JournalFull` or `Memory`. Where it is `Memory`, a session may have been submitted.
pub fn answer(
    alloc: Global,
    form: Form,
    office: &mut Office,
    tag: u8,
    asked: &Asked,
    from: &mut usize,
    text: &mut String,
) -> Result<bool, Lack>
    requires { tag < 16 }
    ensures answered { IfOk result (λ b. Answered form tag office.old asked.now b office.new (string_bytes text.old) (string_bytes text.new)) }
    ensures lacks { IfErr result (λ lack. Lacks tag office.old asked.now lack office.new) }
{
    match asked {
        Asked::Session(program) => submit(office, form, tag, program, text),
        Asked::Numbered(ticket, program) => {
            answer_numbered(alloc, form, office, tag, *ticket, program, from, text)
        }
        Asked::Look(record) => said(add_look(text, form, office, *record)),
        Asked::Misread(refusal) => said(add_misread(text, form, *refusal)),
    }
}

/// That a line was said.
fn said(added: Result<(), AllocError>) -> Result<bool, Lack>
    ensures said { IfOk result (λ b. (b ≡ true) × IsOk added) }
    ensures memory { IfErr result (λ lack. lack ≡ lacks.Memory) }
{
    match added {
        Ok(()) => Ok(true),
        Err(AllocError) => Err(Lack::Memory),
    }
}

/// A session under a ticket. It is submitted where the ticket is the next; where it was given, what became of the session is
/// said, if it is the same.
fn answer_numbered(
    alloc: Global,
    form: Form,
    office: &mut Office,
    tag: u8,
    ticket: u32,
    program: &Program,
    from: &mut usize,
    text: &mut String,
) -> Result<bool, Lack>
    requires { tag < 16 }
    ensures answered { IfOk result (λ b. Answered form tag office.old (asks.Numbered ticket program.now) b office.new (string_bytes text.old) (string_bytes text.new)) }
    ensures lacks { IfErr result (λ lack. Lacks tag office.old (asks.Numbered ticket program.now) lack office.new) }
{
    if is_next(office, ticket) {
        return submit(office, form, tag, program, text);
    }
    match look_again(alloc, office, ticket, program, from) {
        Ok(Again::Same) => said(add_known(text, form, office, ticket)),
        Ok(Again::Other) => said(add_other(text, form)),
        Ok(Again::Never) => said(add_ahead(text, form)),
        Err(AllocError) => Err(Lack::Memory),
    }
}

/// Submits a session, and says its ticket, or that it is of another office.
fn submit(
    office: &mut Office,
    form: Form,
    tag: u8,
    program: &Program,
    text: &mut String,
) -> Result<bool, Lack>
    requires { tag < 16 }
    ensures submitted { IfOk result (λ b. Submitted form tag office.old program.now b office.new (string_bytes text.old) (string_bytes text.new)) }
    ensures lacks { IfErr result (λ lack. Lacks tag office.old (asks.Session program.now) lack office.new) }
{
    match office.submit(tag, program) {
        Ok(Reply::Ticket(ticket)) => said(add_taken(text, form, ticket)),
        Err(Refusal::NotOurs) => said(add_not_ours(text, form)),
        Err(Refusal::QueueFull) => Ok(false),
        Err(Refusal::JournalFull) => Err(Lack::JournalFull),
        Ok(_) | Err(_) => Err(Lack::Memory),
    }
}

/// Whether this ticket is the next that the office gives.
fn is_next(office: &Office, ticket: u32) -> bool
    ensures { IsTrue result ↔ (ticket ≡ suc (tickets_of office.now)) }
{
    u64::from(ticket) == u64::from(office.tickets()) + 1
}

/// Which session has a ticket: the same as one that is asked for, another, or none.
#[derive(Clone, Copy)]
pub(crate) enum Again {
    Same,
    Other,
    Never,
}

/// Which session has this ticket. None has one that wasn't given: for that no journal is looked through.
fn look_again(
    alloc: Global,
    office: &Office,
    ticket: u32,
    program: &Program,
    from: &mut usize,
) -> Result<Again, AllocError>
    ensures { IfOk result (λ a. IsAgain (session_under office.now ticket) program.now a) }
{
    let journal = office.journal();
    tickets_are_numbered();
    if ticket > office.tickets() {
        return Ok(Again::Never);
    }
    let Some(given) = session_under(journal, ticket, from) else {
        return Ok(Again::Never);
    };
    match is_same(alloc, office.plan(), given, program) {
        Ok(true) => Ok(Again::Same),
        Ok(false) => Ok(Again::Other),
        Err(AllocError) => Err(AllocError),
    }
}

/// The session that has this ticket, in a journal whose sessions have their tickets in order. It is looked for from a place on, and
/// then before it; the place is then that after its entry. So it costs one walk in all to ask for sessions again in their order.
fn session_under<'a>(journal: &'a Journal, ticket: u32, from: &mut usize) -> Option<&'a Program>
    requires numbered { (n : ℕ) × AreNumbered 0 (submitted_in journal.now.entries) n }
    ensures { option_copied result ≡ session_in ticket journal.now.entries }
{
    let count = journal.len();
    let first = (*from).min(count);
    if let Some(program) = session_among(journal, first, count, ticket, from) {
        return Some(program);
    }
    session_among(journal, 0, first, ticket, from)
}

/// The first session with this ticket that the entries from one place on submit, up to another. The place after its entry is noted.
fn session_among<'a>(
    journal: &'a Journal,
    first: usize,
    end: usize,
    ticket: u32,
    after: &mut usize,
) -> Option<&'a Program>
    requires order { first ≤ end }
    requires within { end ≤ length journal.now.entries }
    ensures { option_copied result ≡ session_in ticket (drop first (take end journal.now.entries)) }
{
    for place in first..end {
        if let Some(program) = session_at(journal, place, ticket) {
            *after = place + 1;
            return Some(program);
        }
    }
    None
}

/// The session that the entry at this place submits, if it has this ticket.
fn session_at(journal: &Journal, place: usize, ticket: u32) -> Option<&Program>
    ensures { option_copied result ≡ session_by ticket (slice_get journal.now.entries place) }
{
    let Some(entry) = journal.get(place) else {
        return None;
    };
    submitted_as(ticket, &entry.event, &entry.reply)
}

/// The session that an event submits, if its reply is this ticket.
fn submitted_as<'a>(ticket: u32, event: &EventRef<'a>, reply: &Reply) -> Option<&'a Program>
    ensures { option_copied result ≡ submitted_as ticket (event_shown event.now) reply.now }
{
    let Reply::Ticket(given) = *reply else {
        return None;
    };
    match *event {
        EventRef::Submit(program) if given == ticket => Some(program),
        _ => None,
    }
}

/// Whether two sessions are the same: they are where their texts are.
fn is_same(alloc: Global, plan: &Plan, one: &Program, other: &Program) -> Result<bool, AllocError>
    requires { IsTrue (fits plan.now one.now) }
    ensures { IfOk result (λ b. IsTrue b ↔ (one.now ≡ other.now)) }
{
    if !other.fits(plan) {
        return Ok(false);
    }
    reads_back(one, plan);
    reads_back(other, plan);
    let left = one.text(alloc, plan)?;
    let right = other.text(alloc, plan)?;
    Ok(left.as_bytes() == right.as_bytes())
}
