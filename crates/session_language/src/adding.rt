//! The first line of a statement that is added to the parts of an open session.

ghost use Rattle.std.specs.Prelude.{◌≡◌, ◌≤◌, IfOk, vec_len, OnOk};
ghost use Rattle.session_language.specs.refinement.ResolvedStatements.{seen_spoken};
ghost use Rattle.session_language.specs.refinement.PartsRefinement.{parts_of, with_variables};
ghost use Rattle.session_language.specs.refinement.ReaderRefinement.{Stops};
ghost use Rattle.bottle_values.specs.Memory.{UnlessMemory};
ghost use Rattle.session_language.specs.Reading.{add, place_of, with_variable, with_line, opens_block, named_after};
ghost use Rattle.session_programs.specs.Limits.{most_variables};

use crate::fault::{SessionRule, Stop};
use crate::limits::{MOST_BLOCKS, MOST_RECORDS, MOST_VARIABLES};
use crate::parts::{Head, Parts};
use crate::spoken::Spoken;
use office_map::RecordId;
use session_meaning::Statement;
use session_programs::measures::needs::{add_reads, add_record};
use std::alloc::{AllocError, Global};
use text_lines::{ShortName, place_of_name};

/// Adds the first line of a statement to the parts of a session.
pub(crate) fn add_to(alloc: Global, parts: &mut Parts, spoken: Spoken) -> Result<(), Stop>
    requires few { vec_len parts.old.variables ≤ most_variables }
    ensures { UnlessMemory (λ _. parts_of parts.new) Stops result (add (parts_of parts.old) (seen_spoken spoken)) }
{
    if opens_block(&spoken) && parts.outer.len() >= MOST_BLOCKS {
        return Err(Stop::Refused(SessionRule::TooDeep));
    }
    add_needs(&mut parts.needs, &spoken)?;
    place(alloc, parts, spoken)?;
    if parts.needs.len() > MOST_RECORDS {
        return Err(Stop::Refused(SessionRule::TooManyRecords));
    }
    if parts.variables.len() > MOST_VARIABLES {
        return Err(Stop::Refused(SessionRule::TooManyVariables));
    }
    Ok(())
}

/// Adds the records of the first line of a statement.
fn add_needs(needs: &mut Vec<RecordId>, spoken: &Spoken) -> Result<(), AllocError>
    ensures { OnOk result (needs.new.items ≡ named_after needs.old.items (seen_spoken spoken.now)) }
{
    match spoken {
        Spoken::Let(_, e) => add_reads(needs, e),
        Spoken::Set(id, e) => {
            add_record(needs, *id)?;
            add_reads(needs, e)
        }
        Spoken::Give(e) => add_reads(needs, e),
        Spoken::Repeat(_) => Ok(()),
        Spoken::Require(c, _) | Spoken::If(c) => {
            add_reads(needs, &c.left)?;
            add_reads(needs, &c.right)
        }
    }
}

fn opens_block(spoken: &Spoken) -> bool
    ensures { result ≡ opens_block (seen_spoken spoken.now) }
{
    match spoken {
        Spoken::If(_) | Spoken::Repeat(_) => true,
        Spoken::Let(_, _) | Spoken::Set(_, _) | Spoken::Give(_) | Spoken::Require(_, _) => false,
    }
}

/// Puts a line in its place; the variable of a `let` is new where it was not there.
fn place(alloc: Global, parts: &mut Parts, spoken: Spoken) -> Result<(), AllocError>
    requires { vec_len parts.old.variables ≤ most_variables }
    ensures { OnOk result (parts_of parts.new ≡ with_line (with_variables (parts_of parts.old) (seen_spoken spoken)) (seen_spoken spoken)) }
{
    match spoken {
        Spoken::Let(name, e) => {
            let place = place_of(&mut parts.variables, name)?;
            parts.push(Statement::Let(place, e))
        }
        Spoken::Set(id, e) => parts.push(Statement::Set(id, e)),
        Spoken::Give(e) => parts.push(Statement::Give(e)),
        Spoken::Require(c, code) => parts.push(Statement::Require(c, code)),
        Spoken::If(c) => parts.open(alloc, Head::If(c)),
        Spoken::Repeat(turns) => parts.open(alloc, Head::Repeat(turns)),
    }
}

/// The place of a variable, which is put at the end where it was not there.
fn place_of(variables: &mut Vec<ShortName>, name: ShortName) -> Result<u8, AllocError>
    requires { vec_len variables.old ≤ most_variables }
    ensures place { IfOk result (λ k. k ≡ place_of name variables.new.items) }
    ensures variables { OnOk result (variables.new.items ≡ with_variable name variables.old.items) }
{
    match place_of_name(variables, &name) {
        Some(place) => Ok(place as u8),
        None => {
            let place = variables.len() as u8;
            variables.push(name)?;
            Ok(place)
        }
    }
}
