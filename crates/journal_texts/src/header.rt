//! The first line of a journal.

ghost use Rattle.std.specs.Prelude.{◌≡◌, ◌<◌, ◌&&◌, Some, IfOk, codes, length};
ghost use Rattle.std.specs.Str.{bytes_eq};
ghost use Rattle.text_lines.specs.Text.{words_of};
ghost use Rattle.journal_texts.specs.JournalText.{header_said, header_of, office_of_header};

use crate::fault::JournalRule;
use crate::line::are;
use office_map::{OfficeId, Plan};
use text_lines::{ShortName, first_word, is_plain, number, short_name};

/// Whose journal a first line begins, or what is wrong with it.
///
/// A word that is no name, or no number, makes it another form, before the run is looked at.
pub(crate) fn header(plan: &Plan, line: &[u8]) -> Result<OfficeId, JournalRule>
    ensures line { result ≡ header_of plan.now line.now }
    ensures office { IfOk result (λ a. a < length plan.now.offices) }
{
    if !is_plain(line) {
        return Err(JournalRule::Journal);
    }
    match run_and_name(line) {
        Some((run, name)) => office_of(plan, run, &name),
        None => Err(JournalRule::Journal),
    }
}

/// The run and the office's name, of a line that is `journal 1 run N office NAME`.
fn run_and_name(line: &[u8]) -> Option<(u64, ShortName)>
    ensures { result ≡ header_said (words_of line.now) }
{
    let (journal, left) = first_word(line)?;
    let (one, left) = first_word(left)?;
    let (run, left) = first_word(left)?;
    let (n, left) = first_word(left)?;
    let (office, left) = first_word(left)?;
    let (word, left) = first_word(left)?;
    if first_word(left).is_some() || !is_header(journal, one, run, office) {
        return None;
    }
    let run = number(n)?;
    let name = short_name(word)?;
    Some((run, name))
}

/// Whether these are the words of a header beside the run and the name.
fn is_header(journal: &[u8], one: &[u8], run: &[u8], office: &[u8]) -> bool
    ensures { result ≡ ((bytes_eq journal.now (codes "journal") && bytes_eq one.now (codes "1")) && (bytes_eq run.now (codes "run") && bytes_eq office.now (codes "office"))) }
{
    are(journal, "journal", one, "1") && are(run, "run", office, "office")
}

/// The office of that name, where the run is the plan's.
#[tactic(auto, using(crate::proofs::Headers::of_plan))]
fn office_of(plan: &Plan, run: u64, name: &ShortName) -> Result<OfficeId, JournalRule>
    ensures line { result ≡ office_of_header plan.now (Some (run, name.now)) }
    ensures office { IfOk result (λ a. a < length plan.now.offices) }
{
    if run != u64::from(plan.run()) {
        return Err(JournalRule::JournalHeader);
    }
    plan.office_of_name(name).ok_or(JournalRule::JournalHeader)
}
