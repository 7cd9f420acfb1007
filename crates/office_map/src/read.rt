//! The tables of a plan, from its text.

ghost use Rattle.std.specs.Prelude.{◌≡◌, ◌<◌, ◌+◌, ◌^◌, length, map, option_map, IfOk};
ghost use Rattle.text_lines.specs.Text.{lines, statements_from};
ghost use Rattle.office_map.specs.PlanWords.{plain_plan_words};
ghost use Rattle.office_map.specs.PlanText.{plan_of, read_line, read_lines, read_header};
ghost use Rattle.office_map.specs.refinement.PlanReader.{Fails};
ghost use Rattle.bottle_values.specs.Memory.{UnlessMemory};

use crate::fault::{PlanFault, PlanRule, refused};
use crate::limits::{FEWEST_OFFICES, TEXT_LIMIT};
use crate::line::{declaration_in, header_in};
use crate::line_words::plan_words;
use crate::plan_entries::PlanEntries;
use std::alloc::{AllocError, Global};
use text_lines::{Statements, is_plain};

/// The tables that a text means. The first faulty line is refused.
#[tactic(auto, unfolding(crate::specs::PlanText::plan_of))]
pub(crate) fn read_entries(alloc: Global, text: &[u8]) -> Result<PlanEntries, PlanFault>
    ensures { UnlessMemory (λ t. t) Fails result (plan_of text.now) }
{
    if text.len() > TEXT_LIMIT {
        return Err(refused(PlanRule::Limit, 0));
    }
    let mut statements = Statements {
        rest: text,
        number: 1,
    };
    let Some((number, line)) = statements.next() else {
        return Err(refused(PlanRule::Header, 0));
    };
    let tables = read_header(alloc, number, line)?;
    let tables = read_lines(alloc, tables, statements)?;
    if tables.offices().len() < FEWEST_OFFICES {
        return Err(refused(PlanRule::Limit, 0));
    }
    Ok(tables)
}

#[tactic(auto, unfolding(crate::specs::PlanText::read_header))]
fn read_header(alloc: Global, number: u64, line: &[u8]) -> Result<PlanEntries, PlanFault>
    ensures { UnlessMemory (λ t. t) Fails result (read_header (number, line.now)) }
{
    let Some(words) = plain_words(alloc, line)? else {
        return Err(refused(PlanRule::Header, number));
    };
    match header_in(&words) {
        Some((version, run)) => Ok(PlanEntries::new(alloc, version, run)),
        None => Err(refused(PlanRule::Header, number)),
    }
}

fn read_lines(
    alloc: Global,
    tables: PlanEntries,
    statements: Statements<'_>,
) -> Result<PlanEntries, PlanFault>
    requires { statements.number + length statements.rest.now < 2 ^ 64 }
    ensures { UnlessMemory (λ t. t) Fails result (read_lines tables (statements_from statements.entry.number (lines statements.entry.rest.now))) }
{
    let mut tables = tables;
    let mut left = statements;
    while let Some((number, line)) = left.next() {
        read_line(alloc, &mut tables, number, line)?;
    }
    Ok(tables)
}

#[tactic(auto, unfolding(crate::specs::PlanText::read_line))]
fn read_line(
    alloc: Global,
    tables: &mut PlanEntries,
    number: u64,
    line: &[u8],
) -> Result<(), PlanFault>
    ensures { UnlessMemory (λ _. tables.new) Fails result (read_line tables.old (number, line.now)) }
{
    if !is_plain(line) {
        return Err(refused(PlanRule::Line, number));
    }
    match declaration_in(tables.version(), line) {
        Some(declaration) => tables.declare(alloc, number, &declaration),
        None => Err(refused(PlanRule::Line, number)),
    }
}

/// The words of a line, where no byte of it is out of place.
fn plain_words(alloc: Global, line: &[u8]) -> Result<Option<Vec<&[u8]>>, AllocError>
    ensures { IfOk result (λ o. option_map (λ v. map (λ w. w.now) v.items) o ≡ plain_plan_words line.now) }
{
    if is_plain(line) {
        Ok(Some(plan_words(alloc, line)?))
    } else {
        Ok(None)
    }
}
