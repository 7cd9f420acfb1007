//! Reading a journal.

ghost use Rattle.std.specs.Prelude.{◌<◌, ◌+◌, ◌^◌, ℕ, List, length, IfOk, IfErr};
ghost use Rattle.office_map.specs.PlanValue.{PlanValue};
ghost use Rattle.office_journal.specs.declared.event.Entry.{Entry};
ghost use Rattle.text_lines.specs.Text.{lines, statements_from};
ghost use Rattle.journal_texts.specs.JournalText.{IsJournal, IsFaultOf};
ghost use Rattle.journal_texts.specs.Receiving.{IsReadAs};
ghost use Rattle.journal_texts.specs.refinement.ReadLines.{GoOn, AreTold, IsLineFault};

use crate::entries::Entries;
use crate::fault::{JournalFault, JournalRule, refused};
use crate::header::header;
use crate::journal_text::JournalText;
use crate::line::tell_line;
use office_map::{OfficeId, Plan};
use std::alloc::{AllocError, Global};
use text_lines::Statements;
use text_lines::marked::next_words;

/// The journal that a text is under a plan.
///
/// # Errors
/// The first line that is no line of a journal, or a first line of another run or of an office that the plan hasn't.
#[tactic(auto, using(crate::proofs::Receiving::as_text))]
pub fn read_journal(alloc: Global, text: &[u8], plan: &Plan) -> Result<JournalText, JournalFault>
    ensures meaning { IfOk result (λ j. IsJournal plan.now text.now j.office j.entries.items j.ends) }
    ensures fault { IfErr result (IsFaultOf plan.now text.now) }
{
    read_into::<JournalText>(alloc, text, plan)
}

/// What was told of the journal that a text is under a plan. All its lines are read, also those after one of which the digits spell no
/// frame, so that their faults are told.
///
/// # Errors
/// As [`read_journal`].
#[tactic(auto, using(crate::proofs::Receiving::all_told, crate::proofs::Receiving::fault_of, crate::proofs::Journals::header_fault, crate::proofs::Journals::no_header))]
pub fn read_into<E: Entries>(alloc: Global, text: &[u8], plan: &Plan) -> Result<E, JournalFault>
    ensures meaning { IfOk result (λ e. IsReadAs plan.now text.now (E.holds e plan.now)) }
    ensures fault { IfErr result (IsFaultOf plan.now text.now) }
{
    let mut left = Statements {
        rest: text,
        number: 1,
    };
    let Some((line, first)) = left.next() else {
        return Err(refused(JournalRule::Journal, 0));
    };
    let office = match header(plan, first) {
        Ok(office) => office,
        Err(rule) => return Err(refused(rule, line)),
    };
    told_of::<E>(alloc, plan, office, left)
}

/// What was told of the office's journal, whose entries are those of these lines.
#[tactic(auto, using(crate::proofs::Receiving::told_all))]
fn told_of<E: Entries>(
    alloc: Global,
    plan: &Plan,
    office: OfficeId,
    statements: Statements<'_>,
) -> Result<E, JournalFault>
    requires office { office < length plan.now.offices }
    requires fits { statements.number + length statements.rest.now < 2 ^ 64 }
    ensures told { IfOk result (λ e. AreTold plan.now (statements_from statements.entry.number (lines statements.entry.rest.now)) (length statements.entry.rest.now) (E.holds e plan.now office)) }
    ensures fault { IfErr result (IsLineFault plan.now (statements_from statements.entry.number (lines statements.entry.rest.now))) }
{
    let mut left = statements;
    let mut told = E::begin(alloc, plan, office)?;
    let mut goes_on = true;
    while let Some((line, _statement, words)) = next_words(&mut left) {
        match tell_line::<E>(alloc, plan, &mut told, goes_on, words)? {
            Some(more) => goes_on = more,
            None => return Err(refused(JournalRule::Journal, line)),
        }
    }
    Ok(told)
}
