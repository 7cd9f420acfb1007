//! Writing a journal.

ghost use Rattle.std.specs.Prelude.{◌≡◌, ◌<◌, ◌^◌, ◌++◌, ◌∷◌, [], length, drop, true, IfOk, OnOk, IsTrue, All};
ghost use Rattle.std.specs.Fmt.{decimal};
ghost use Rattle.std.specs.String.{string_bytes};
ghost use Rattle.session_programs.specs.Program.{fits};
ghost use Rattle.site_core.specs.Journals.{IsLegal};
ghost use Rattle.office_journal.specs.Shown.{event_shown, entry_shown};
ghost use Rattle.office_journal.specs.declared.event.Event.TheVariants as events;
ghost use Rattle.journal_texts.specs.wording.Digits.{frame_digits};
ghost use Rattle.journal_texts.specs.wording.Words.{line_of_words};
ghost use Rattle.journal_texts.specs.JournalText.{IsJournal};
ghost use Rattle.journal_texts.specs.Written.{header_line, event_words, entry_line, lines_of, journal_text};
ghost use Rattle.journal_texts.specs.refinement.WrittenValues.{HasText, FrameReadsBack, EventReadsBack, EntryReadsBack};

use crate::laws::written_is_read;
use crate::wording::digits::{add_frame_digits, digits};
use crate::wording::replies::add_reply;
use crate::wording::rules::add_rule;
use crate::wording::words::office_name;
use frame_codec::Frame;
use office_map::{OfficeId, Plan};
use session_language::laws::reads_back;
use session_programs::Program;
use site_core::{EntryRef, EventRef, Journal};
use std::alloc::{AllocError, Global};

/// The text of an office's journal: a first line, and then a line for each entry.
pub fn text(
    alloc: Global,
    journal: &Journal,
    plan: &Plan,
    office: OfficeId,
) -> Result<String, AllocError>
    requires office { office < length plan.now.offices }
    requires legal { IsLegal (record { plan = plan.now; me = office; entries = journal.now.entries }) }
    ensures text { IfOk result (λ text. string_bytes text ≡ journal_text plan.now office journal.now.entries) }
    ensures reads_back { IfOk result (λ text. IsJournal plan.now (string_bytes text) office journal.now.entries true) }
{
    written_is_read();
    // The plan is consistent.
    let _ = plan.offices();
    let mut text = String::new(alloc);
    add_header(&mut text, plan, office)?;
    add_lines(alloc, &mut text, journal, plan, office, 0)?;
    Ok(text)
}

/// The lines of an office's entries from that place on, from 0, are added: a text of the entries before them becomes the text
/// of the journal. But for sessions they take no memory but the text's.
pub fn add_lines(
    alloc: Global,
    text: &mut String,
    journal: &Journal,
    plan: &Plan,
    office: OfficeId,
    from: usize,
) -> Result<(), AllocError>
    requires legal { IsLegal (record { plan = plan.now; me = office; entries = journal.now.entries }) }
    ensures lines { OnOk result (string_bytes text.new ≡ string_bytes text.old ++ lines_of plan.now (drop from journal.now.entries)) }
    ensures reads_back { OnOk result (All (EntryReadsBack plan.now) (drop from journal.now.entries)) }
{
    // The plan is consistent.
    let _ = plan.offices();
    let mut place = from;
    while let Some(entry) = journal.get(place) {
        add_entry(alloc, text, plan, &entry)?;
        place += 1;
    }
    Ok(())
}

/// The first line of an office's journal is added.
pub fn add_header(text: &mut String, plan: &Plan, office: OfficeId) -> Result<(), AllocError>
    ensures run { plan.now.run < 2 ^ 32 }
    ensures line { OnOk result (string_bytes text.new ≡ string_bytes text.old ++ header_line plan.now office) }
{
    let run = plan.run();
    let name = office_name(plan, office);
    write!(text, "journal 1 run {run} office {name}\n")
}

fn add_entry(
    alloc: Global,
    text: &mut String,
    plan: &Plan,
    entry: &EntryRef<'_>,
) -> Result<(), AllocError>
    requires { HasText plan.now (event_shown entry.now.event) }
    ensures line { OnOk result (string_bytes text.new ≡ string_bytes text.old ++ entry_line plan.now (entry_shown entry.now)) }
    ensures reads_back { OnOk result (EntryReadsBack plan.now (entry_shown entry.now)) }
{
    let tag = entry.tag;
    write!(text, "{tag} ")?;
    add_event(alloc, text, plan, &entry.event)?;
    text.push_str(" = ")?;
    add_reply(text, None, &entry.reply)?;
    text.push_str("\n")?;
    Ok(())
}

fn add_event(
    alloc: Global,
    text: &mut String,
    plan: &Plan,
    event: &EventRef<'_>,
) -> Result<(), AllocError>
    requires { HasText plan.now (event_shown event.now) }
    ensures words { OnOk result (string_bytes text.new ≡ string_bytes text.old ++ line_of_words (event_words plan.now (event_shown event.now))) }
    ensures reads_back { OnOk result (EventReadsBack plan.now (event_shown event.now)) }
{
    match *event {
        EventRef::Submit(program) => add_program(alloc, text, plan, program),
        EventRef::Do(rule) => {
            text.push_str("do ")?;
            add_rule(text, plan, rule)
        }
        EventRef::Send(v, i) => add_send(text, plan, v, i),
        EventRef::Took(frame) => add_frame(text, "took ", &frame),
        EventRef::Withdraw(ticket) => add_ticket(text, "withdraw ", ticket),
    }
}

/// A session's canonical text, as digits.
fn add_program(
    alloc: Global,
    text: &mut String,
    plan: &Plan,
    program: &Program,
) -> Result<(), AllocError>
    requires { IsTrue (fits plan.now program.now) }
    ensures words { OnOk result (string_bytes text.new ≡ string_bytes text.old ++ line_of_words (event_words plan.now (events.Submit program.now))) }
    ensures reads_back { OnOk result (EventReadsBack plan.now (events.Submit program.now)) }
{
    reads_back(program, plan);
    let canonical = program.text(alloc, plan)?;
    let digits = digits(alloc, canonical.as_bytes())?;
    text.push_str("submit ")?;
    text.push_str(digits.as_str())
}

fn add_send(text: &mut String, plan: &Plan, v: OfficeId, i: usize) -> Result<(), AllocError>
    ensures { OnOk result (string_bytes text.new ≡ string_bytes text.old ++ line_of_words (event_words plan.now (events.Send v i))) }
{
    let neighbour = office_name(plan, v);
    write!(text, "send {neighbour} {i}")
}

/// A frame's bytes as digits, after a word.
fn add_frame(text: &mut String, word: &str, frame: &Frame) -> Result<(), AllocError>
    ensures words { OnOk result (string_bytes text.new ≡ string_bytes text.old ++ (word.now ++ frame_digits frame.now)) }
    ensures reads_back { OnOk result (FrameReadsBack frame.now) }
{
    text.push_str(word)?;
    add_frame_digits(text, frame)
}

/// A ticket, after a word.
fn add_ticket(text: &mut String, word: &str, ticket: u32) -> Result<(), AllocError>
    ensures words { OnOk result (string_bytes text.new ≡ string_bytes text.old ++ (word.now ++ decimal ticket)) }
    ensures range { ticket < 2 ^ 32 }
{
    write!(text, "{word}{ticket}")
}
