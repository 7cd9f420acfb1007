//! The journals of a plan's offices, as their texts are read and judged one after another.

ghost use Rattle.std.specs.Prelude.{◌≡◌, ◌+◌, ◌<◌, ◌^◌, All, IfErr, IfOk, IsSome, List, OnOk, ℕ, length, map};
ghost use Rattle.host_files.specs.inputs.Words.{HasText, HaveTexts, Unread};
ghost use Rattle.day_audits.specs.audit.Following.{Gathers};
ghost use Rattle.day_audits.specs.declared.audit.fault.GatherFault.TheVariants as gather;
ghost use Rattle.drink_commands.specs.Audit.{IsToldAs, journal_inputs};
ghost use Rattle.command_outputs.specs.Fault.{IsAmong, IsFaultAt};
ghost use Rattle.drink_commands.specs.refinement.Journals.{GathersFirst, IsNamed, SaysFrom, SaysJournals, SaysOne, TakesAll, TakesOne};

use crate::diagnosed::of_journal;
use crate::limits::MOST_JOURNAL;
use command_outputs::Fault;
use command_outputs::fault::Why;
use day_audits::audit::{GatherFault, Journals};
use host_files::inputs::{Sources, StandardInput};
use journal_texts::wording::words::office_name;
use journal_texts::{JournalFault, JournalRefusal, JournalRule};
use office_map::{OfficeId, Plan};
use serial_command::reading::{Input, TextFault, at_line, lines_above, text};
use std::alloc::{AllocError, Global};
use std::io::ErrorKind;

/// The journals of a plan's offices for which these words stand, one of each. Each text is read and judged before the next one is read.
pub fn read_journals<S: Sources>(
    alloc: Global,
    sources: &S,
    standard: &mut StandardInput<S::Standard>,
    words: &[&str],
    plan: &Plan,
) -> Result<Journals, Fault>
    ensures whole { IfOk result (λ j. All (λ slot. IsSome slot) j.slots) }
    ensures meaning { IfOk result (λ j. (texts : List (List ℕ)) → HaveTexts (S.file_text sources.now) standard.old (map (λ w. w.now) words.now) texts → Gathers plan.now texts j) }
    ensures gathered { IfOk result (λ _. GathersFirst (S.file_text sources.now) plan.now standard.old (map (λ w. w.now) words.now)) }
    ensures fault { IfErr result (SaysFrom (S.file_text sources.now) plan.now standard.old (map (λ w. w.now) words.now)) }
{
    let mut journals = Journals::new(alloc, plan)?;
    read_each(alloc, sources, standard, words, 0, plan, &mut journals)?;
    match journals.missing() {
        Some(office) => Err(lacking(alloc, plan, office)),
        None => Ok(journals),
    }
}

/// That no journal is of this office.
fn lacking(alloc: Global, plan: &Plan, office: OfficeId) -> Fault
    ensures { IsNamed plan.now office result }
{
    match String::from_str(alloc, office_name(plan, office)) {
        Ok(name) => Fault::NoJournal(name),
        Err(_) => Fault::Memory,
    }
}

/// The journals that these words stand for come to those that are there, the first as the one at this place. There are no more than
/// offices before one of them comes twice, so this calls itself no more often.
fn read_each<S: Sources>(
    alloc: Global,
    sources: &S,
    standard: &mut StandardInput<S::Standard>,
    words: &[&str],
    place: usize,
    plan: &Plan,
    journals: &mut Journals,
) -> Result<(), Fault>
    requires { place + length words.now < 2 ^ 64 }
    ensures taken { OnOk result (TakesAll (S.file_text sources.now) plan.now standard.old (map (λ w. w.now) words.now) journals.old standard.new journals.new) }
    ensures among { IfErr result (IsAmong (journal_inputs place (length words.now))) }
    ensures fault { IfErr result (SaysJournals (S.file_text sources.now) plan.now standard.old (map (λ w. w.now) words.now) place journals.old) }
{
    let Some((word, rest)) = words.split_first() else {
        return Ok(());
    };
    read_one(alloc, sources, standard, word, place, plan, journals)?;
    read_each(alloc, sources, standard, rest, place + 1, plan, journals)
}

/// The journal that a word stands for comes to those that are there.
fn read_one<S: Sources>(
    alloc: Global,
    sources: &S,
    standard: &mut StandardInput<S::Standard>,
    word: &str,
    place: usize,
    plan: &Plan,
    journals: &mut Journals,
) -> Result<(), Fault>
    ensures taken { OnOk result (TakesOne (S.file_text sources.now) plan.now standard.old word.now journals.old standard.new journals.new) }
    ensures fault { IfErr result (SaysOne (S.file_text sources.now) plan.now standard.old word.now place journals.old) }
{
    let text = journal_text(alloc, sources, standard, word, place)?;
    match journals.read(alloc, &text) {
        Ok(()) => Ok(()),
        Err(fault) => Err(refused(
            alloc,
            &text,
            plan,
            place,
            lines_above(standard, word),
            fault,
        )),
    }
}

/// A text that isn't gathered, as the one at this place, below so many lines of the standard input.
fn refused(
    alloc: Global,
    text: &[u8],
    plan: &Plan,
    place: usize,
    lines_above: u64,
    fault: GatherFault,
) -> Fault
    ensures { IsFaultAt (Input.Journal place) (IsToldAs fault) result }
{
    match fault {
        GatherFault::Unread(fault) => unread(alloc, text, plan, place, lines_above, fault),
        GatherFault::Twice(office) => second(alloc, plan, place, office),
    }
}

/// What people are told of one that is no journal.
fn sentence(
    alloc: Global,
    text: &[u8],
    plan: &Plan,
    lines_above: u64,
    refusal: JournalRefusal,
) -> Result<String, AllocError> {
    let place = at_line(alloc, refusal.line, lines_above)?;
    let rule = refusal.rule;
    let found = of_journal(alloc, text, plan, refusal)?;
    format!(in alloc; "{place}{rule}: {found}")
}

/// One that is no journal.
fn unread(
    alloc: Global,
    text: &[u8],
    plan: &Plan,
    place: usize,
    lines_above: u64,
    fault: JournalFault,
) -> Fault
    ensures { IsFaultAt (Input.Journal place) (IsToldAs (gather.Unread fault)) result }
{
    let refusal = match fault {
        JournalFault::Memory => return Fault::Memory,
        JournalFault::Refused(refusal) => refusal,
    };
    match sentence(alloc, text, plan, lines_above, refusal) {
        Ok(said) => Fault::Refused(Why::Journal(place, refusal), said),
        Err(_) => Fault::Memory,
    }
}

/// A second journal of an office.
fn second(alloc: Global, plan: &Plan, place: usize, office: OfficeId) -> Fault
    ensures { IsFaultAt (Input.Journal place) (IsToldAs (gather.Twice office)) result }
{
    match of_second(alloc, plan, office) {
        Ok(said) => Fault::Refused(Why::Twice(place), said),
        Err(_) => Fault::Memory,
    }
}

/// The text of a journal. One that is longer than any may be has no end, for all that is known.
fn journal_text<S: Sources>(
    alloc: Global,
    sources: &S,
    standard: &mut StandardInput<S::Standard>,
    word: &str,
    place: usize,
) -> Result<Vec<u8>, Fault>
    ensures text { IfOk result (λ v. (text : List ℕ) (after : Unread) → HasText (S.file_text sources.now) standard.old word.now text after → (v.items ≡ text) × (standard.new ≡ after)) }
    ensures fault { IfErr result (IsFaultAt (Input.Journal place) (λ _. ⊥)) }
{
    let input = Input::Journal(place);
    let text = text(alloc, sources, standard, word, input, MOST_JOURNAL)?;
    if text.len() > MOST_JOURNAL {
        let endless = TextFault::ReadFailed(input, ErrorKind::FileTooLarge);
        return Err(Fault::Text(endless));
    }
    Ok(text)
}

/// What people are told of a second journal of an office.
fn of_second(alloc: Global, plan: &Plan, office: OfficeId) -> Result<String, AllocError> {
    let rule = JournalRule::JournalHeader;
    let name = office_name(plan, office);
    format!(in alloc;
        "{rule}: a journal of the office `{name}` is named before it, and an audit takes one of each office"
    )
}
