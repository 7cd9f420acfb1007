//! An office as its store has it.

ghost use Rattle.std.specs.Prelude.{◌≡◌, ◌<◌, ◌≤◌, [], All, length, IfOk, IfErr, IsTrue};
ghost use Rattle.session_programs.specs.Program.{fits};
ghost use Rattle.site_core.specs.Journals.{IsLegal};
ghost use Rattle.site_core.specs.Reopening.{site_with};
ghost use Rattle.journal_texts.specs.Written.{journal_text};
ghost use Rattle.stored_runs.specs.Keeping.{IsFound, LeavesFrom, IsNotFound, IsNotKept};
ghost use Rattle.stored_runs.specs.refinement.Reading.{IsOffice, IsNoOffice, IsOtherText};

use crate::fault::{KeptFault, LineFault};
use crate::lines::{first_other_line, line_of};
use crate::submits::next_after;
use journal_texts::laws::{a_faulty_text_is_no_journal, a_text_is_one_journal};
use journal_texts::{JournalFault, read_journal, text, whole_lines};
use office_map::{OfficeId, Plan};
use session_programs::Program;
use site_core::{Office, ReopenFault, reopened};
use std::alloc::Global;
use std::marker::Model;

/// An office as its store has it, which can go on. Contracts see its journal, how many bytes of the store are that, and from which
/// place of a run's sessions on its own are left.
#[derive(Drop)]
pub struct Kept {
    pub(crate) office: Office,
    pub(crate) bytes: usize,
    pub(crate) next: usize,
}

impl Model for Kept {
    ghost use Rattle.std.specs.Prelude.{◌≡◌, []};
    ghost use Rattle.stored_runs.specs.Keeping.{Keeping};
    ghost use Rattle.std.specs.Coded.{Coded, codes};
    ghost use Rattle.session_meaning.specs.declared.node.Node.{Node};
    ghost use Rattle.session_meaning.specs.refinement.TreeEncoding.{Mark, term_code, block_code};

    ghost Value = { Keeping };

    ghost coded = { let nodes : Coded Node = Prim.hlevel codes in let marks : Coded Mark = Prim.hlevel (codes, term_code nodes) in Prim.hlevel (codes, block_code marks) };

    ghost view = { λ k. record { site = k.office; bytes = k.bytes; next = k.next } };

    ghost invariant = { λ k. k.bytes ≡ 0 → k.office.entries ≡ [] };
}

impl Kept {
    /// How many of the bytes that were found are kept. Those after them are a part of a line that couldn't be appended.
    pub fn bytes(&self) -> usize
        ensures { result ≡ self.now.bytes }
    {
        self.bytes
    }

    /// The office.
    pub fn into_office(self) -> Office
        ensures site { result ≡ self.site }
        ensures none { self.bytes ≡ 0 → result.entries ≡ [] }
    {
        let Kept {
            office,
            bytes: _,
            next: _,
        } = self;
        office
    }
}

/// The office of that number as what was found in its store has it, with the sessions of the list of which its own are left. Of a
/// store in which no line stands it is one that has done nothing.
///
/// # Errors
/// `Faulty` where the lines aren't as this office writes its journal under this plan, with the first that isn't; `OtherSessions`
/// where the sessions that it submitted don't begin its own of the list; `Memory`.
pub fn resumed(
    alloc: Global,
    plan: &Plan,
    me: OfficeId,
    programs: &[Program],
    found: &[u8],
) -> Result<Kept, KeptFault>
    requires office { me < length plan.now.offices }
    requires fit { All (λ p. IsTrue (fits plan.now p)) programs.now }
    ensures found { IfOk result (IsFound plan.now me found.now) }
    ensures left { IfOk result (λ k. LeavesFrom me programs.now k.site.entries k.next) }
    ensures within { IfOk result (λ k. k.next ≤ length programs.now) }
    ensures fault { IfErr result (IsNotKept plan.now me programs.now found.now) }
{
    let (whole, _) = whole_lines(found);
    let office = match office_in(alloc, plan, me, whole) {
        Ok(office) => office,
        Err(fault) => return Err(fault),
    };
    let next = match next_after(alloc, plan, office.journal(), me, programs) {
        Ok(next) => next,
        Err(fault) => return Err(fault),
    };
    Ok(Kept {
        office,
        bytes: whole.len(),
        next,
    })
}

/// The office of that number as what was found in its store has it, for a run that has no list of sessions.
///
/// # Errors
/// `Faulty` where the lines aren't as this office writes its journal under this plan, with the first that isn't; `Memory`.
pub fn found_in(alloc: Global, plan: &Plan, me: OfficeId, found: &[u8]) -> Result<Kept, KeptFault>
    requires office { me < length plan.now.offices }
    ensures found { IfOk result (IsFound plan.now me found.now) }
    ensures fault { IfErr result (IsNotFound plan.now me found.now) }
{
    let (whole, _) = whole_lines(found);
    let office = match office_in(alloc, plan, me, whole) {
        Ok(office) => office,
        Err(fault) => return Err(fault),
    };
    let bytes = whole.len();
    Ok(Kept {
        office,
        bytes,
        next: 0,
    })
}

/// The office of which this is the text of the journal; without a text it is one that has done nothing.
fn office_in(alloc: Global, plan: &Plan, me: OfficeId, text: &[u8]) -> Result<Office, KeptFault>
    requires { me < length plan.now.offices }
    ensures office { IfOk result (IsOffice plan.now me text.now) }
    ensures fault { IfErr result (IsNoOffice plan.now me text.now) }
{
    if text.is_empty() {
        return Ok(Office::open(alloc, plan, me)?);
    }
    read_office(alloc, plan, me, text)
}

/// The office of which this is the text of the journal.
fn read_office(alloc: Global, plan: &Plan, me: OfficeId, text: &[u8]) -> Result<Office, KeptFault>
    requires { me < length plan.now.offices }
    ensures office { IfOk result (IsOffice plan.now me text.now) }
    ensures fault { IfErr result (IsNoOffice plan.now me text.now) }
{
    a_text_is_one_journal();
    a_faulty_text_is_no_journal();
    let journal = match read_journal(alloc, text, plan) {
        Ok(journal) => journal,
        Err(JournalFault::Memory) => return Err(KeptFault::Memory),
        Err(JournalFault::Refused(refusal)) => {
            return Err(KeptFault::Faulty(refusal.line, LineFault::Refused(refusal.rule)));
        }
    };
    if journal.office != me {
        return Err(KeptFault::Faulty(line_of(text, 0), LineFault::OtherOffice));
    }
    if !journal.ends {
        let line = line_of(text, journal.entries.len() + 1);
        return Err(KeptFault::Faulty(line, LineFault::NotGiven));
    }
    let office = match reopened(alloc, plan, me, &journal.entries) {
        Ok(office) => office,
        Err(ReopenFault::Memory) => return Err(KeptFault::Memory),
        Err(ReopenFault::NotGiven(given)) => {
            return Err(KeptFault::Faulty(line_of(text, given + 1), LineFault::NotGiven));
        }
    };
    as_written(alloc, plan, me, text, office)
}

/// The office, if this is the text of its journal as it writes it.
///
/// A text that only reads as that journal, with a comment or a blank line in it, is refused: then nothing that is
/// appended could be the text of a journal that goes on, and who wrote it wasn't this program.
fn as_written(
    alloc: Global,
    plan: &Plan,
    me: OfficeId,
    found: &[u8],
    office: Office,
) -> Result<Office, KeptFault>
    requires me { me < length plan.now.offices }
    requires office { office ≡ site_with plan.now me office.entries }
    requires legal { IsLegal office }
    ensures same { IfOk result (λ o. o ≡ office) }
    ensures text { IfOk result (λ o. found.now ≡ journal_text plan.now me o.entries) }
    ensures fault { IfErr result (IsOtherText plan.now me found.now office.entries) }
{
    let written = text(alloc, office.journal(), plan, me)?;
    if written.as_bytes() != found {
        let line = first_other_line(written.as_bytes(), found);
        return Err(KeptFault::Faulty(line, LineFault::OtherText));
    }
    Ok(office)
}
