//! Statements with their names in their places.

ghost use Rattle.std.specs.Prelude.{◌≡◌, ◌≤◌, ◌∷◌, if◌then◌else◌, IfOk, length};
ghost use Rattle.bottle_values.specs.Memory.{UnlessMemory};
ghost use Rattle.session_language.specs.refinement.ReaderRefinement.{Stops};
ghost use Rattle.session_language.specs.Lexer.{pieces_of, AWord};
ghost use Rattle.session_language.specs.Names.{scope_of};
ghost use Rattle.session_language.specs.Names as names;
ghost use Rattle.session_meaning.specs.refinement.TreeOfStatements.{test_of};
ghost use Rattle.session_language.specs.Form.{phrase_alone, assigned, else_code, count_alone, comparison_of};
ghost use Rattle.session_language.specs.refinement.ResolvedStatements.{ReadsAlone, ReadsAssigned, seen_spoken, spoken_after, judged};

use crate::builder::Builder;
use crate::fault::{SessionRule, Stop};
use crate::keyword::Keyword;
use crate::lexer::{Piece, Pieces, Symbol};
use crate::limits::{CODES_END, MOST_DEPTH, MOST_TURNS};
use crate::scope::Scope;
use crate::summary::Summary;
use office_map::RecordId;
use session_meaning::{Comparison, Condition, Expression};
use std::alloc::{AllocError, Global};
use text_lines::{ShortName, number, short_name};

/// The first line of a statement; a variable that is let is still a name.
#[derive(Drop)]
pub enum Spoken {
    Let(ShortName, Expression),
    Set(RecordId, Expression),
    Give(Expression),
    Require(Box<Condition>, u16),
    If(Box<Condition>),
    Repeat(u16),
}

/// Reads an expression that is the rest of a line.
fn alone(
    builder: &mut Builder,
    scope: &Scope<'_>,
    pieces: Pieces<'_>,
) -> Result<Option<Summary>, AllocError>
    requires { length scope.now.variables.now ≤ 255 }
    ensures { IfOk result (λ o. ReadsAlone o (scope_of scope.now) builder.new.nodes (phrase_alone (scope_of scope.now).plan.version (pieces_of pieces.entry.rest.now))) }
{
    let mut rest = pieces;
    match builder.phrase(scope, &mut rest)? {
        Some((summary, None)) => Ok(Some(summary)),
        _ => Ok(None),
    }
}

/// Reads a name, `=` and an expression.
fn assigned(
    builder: &mut Builder,
    scope: &Scope<'_>,
    pieces: Pieces<'_>,
) -> Result<Option<(ShortName, Summary)>, AllocError>
    requires { length scope.now.variables.now ≤ 255 }
    ensures { IfOk result (λ o. ReadsAssigned o (scope_of scope.now) builder.new.nodes (assigned (scope_of scope.now).plan.version (pieces_of pieces.entry.rest.now))) }
{
    let mut rest = pieces;
    let Some(Piece::Word(word)) = rest.next() else {
        return Ok(None);
    };
    let Some(Piece::Symbol(Symbol::Assign)) = rest.next() else {
        return Ok(None);
    };
    let Some(name) = short_name(word) else {
        return Ok(None);
    };
    match alone(builder, scope, rest)? {
        Some(summary) => Ok(Some((name, summary))),
        None => Ok(None),
    }
}

/// Reads the first line of a statement after a keyword. Of its faults the one that comes first in the order of
/// the refusals is told.
pub fn speak(
    builder: &mut Builder,
    alloc: Global,
    scope: &Scope<'_>,
    keyword: Keyword,
    pieces: Pieces<'_>,
) -> Result<Spoken, Stop>
    requires { length scope.now.variables.now ≤ 255 }
    ensures { UnlessMemory seen_spoken Stops result (spoken_after (scope_of scope.now) keyword (pieces_of pieces.entry.rest.now)) }
{
    match keyword {
        Keyword::Let => speak_let(builder, alloc, scope, pieces),
        Keyword::Set => speak_set(builder, alloc, scope, pieces),
        Keyword::Give => speak_give(builder, alloc, scope, pieces),
        Keyword::Require => speak_require(builder, alloc, scope, pieces),
        Keyword::If => speak_if(builder, alloc, scope, pieces),
        Keyword::Repeat => speak_repeat(pieces),
        Keyword::Session | Keyword::Else | Keyword::End | Keyword::Other => {
            Err(Stop::Refused(SessionRule::Syntax))
        }
    }
}

#[tactic(auto, using(crate::proofs::session_reading::ResolveNames::is_postfix, crate::proofs::session_reading::ResolveNames::its_tree))]
fn speak_let(
    builder: &mut Builder,
    alloc: Global,
    scope: &Scope<'_>,
    pieces: Pieces<'_>,
) -> Result<Spoken, Stop>
    requires { length scope.now.variables.now ≤ 255 }
    ensures { UnlessMemory seen_spoken Stops result (spoken_after (scope_of scope.now) Keyword.Let (pieces_of pieces.entry.rest.now)) }
{
    let Some((name, summary)) = assigned(builder, scope, pieces)? else {
        return Err(Stop::Refused(SessionRule::Syntax));
    };
    judge(summary)?;
    Ok(Spoken::Let(name, builder.expression(alloc)?))
}

#[tactic(auto, using(crate::proofs::session_reading::ResolveNames::is_postfix, crate::proofs::session_reading::ResolveNames::its_tree))]
fn speak_set(
    builder: &mut Builder,
    alloc: Global,
    scope: &Scope<'_>,
    pieces: Pieces<'_>,
) -> Result<Spoken, Stop>
    requires { length scope.now.variables.now ≤ 255 }
    ensures { UnlessMemory seen_spoken Stops result (spoken_after (scope_of scope.now) Keyword.Set (pieces_of pieces.entry.rest.now)) }
{
    let Some((name, summary)) = assigned(builder, scope, pieces)? else {
        return Err(Stop::Refused(SessionRule::Syntax));
    };
    let Some(record) = scope.record_of(&name) else {
        return Err(Stop::Refused(without_record(summary)));
    };
    judge(summary)?;
    Ok(Spoken::Set(record, builder.expression(alloc)?))
}

#[tactic(auto, using(crate::proofs::session_reading::ResolveNames::is_postfix, crate::proofs::session_reading::ResolveNames::its_tree))]
fn speak_give(
    builder: &mut Builder,
    alloc: Global,
    scope: &Scope<'_>,
    pieces: Pieces<'_>,
) -> Result<Spoken, Stop>
    requires { length scope.now.variables.now ≤ 255 }
    ensures { UnlessMemory seen_spoken Stops result (spoken_after (scope_of scope.now) Keyword.Give (pieces_of pieces.entry.rest.now)) }
{
    let Some(summary) = alone(builder, scope, pieces)? else {
        return Err(Stop::Refused(SessionRule::Syntax));
    };
    judge(summary)?;
    Ok(Spoken::Give(builder.expression(alloc)?))
}

#[tactic(auto, using(crate::proofs::session_reading::ResolveNames::is_postfix, crate::proofs::session_reading::ResolveNames::its_tree))]
fn speak_require(
    builder: &mut Builder,
    alloc: Global,
    scope: &Scope<'_>,
    pieces: Pieces<'_>,
) -> Result<Spoken, Stop>
    requires { length scope.now.variables.now ≤ 255 }
    ensures { UnlessMemory seen_spoken Stops result (spoken_after (scope_of scope.now) Keyword.Require (pieces_of pieces.entry.rest.now)) }
{
    let mut rest = pieces;
    let Some((first, Some(Piece::Symbol(symbol)))) = builder.phrase(scope, &mut rest)? else {
        return Err(Stop::Refused(SessionRule::Syntax));
    };
    let Some(comparison) = comparison_of(symbol) else {
        return Err(Stop::Refused(SessionRule::Syntax));
    };
    let left = builder.expression(alloc)?;
    let Some((second, Some(Piece::Word(word)))) = builder.phrase(scope, &mut rest)? else {
        return Err(Stop::Refused(SessionRule::Syntax));
    };
    let Some(code) = else_code(word, rest) else {
        return Err(Stop::Refused(SessionRule::Syntax));
    };
    judge(first.and(second))?;
    let right = builder.expression(alloc)?;
    let condition = compared(alloc, left, comparison, right)?;
    Ok(Spoken::Require(condition, code))
}

/// A condition, in memory of its own.
fn compared(
    alloc: Global,
    left: Expression,
    comparison: Comparison,
    right: Expression,
) -> Result<Box<Condition>, AllocError>
    ensures { IfOk result (λ c. test_of c.value ≡ record { left = left; comparison = comparison; right = right }) }
{
    let condition = Condition {
        left,
        comparison,
        right,
    };
    Ok(Box::new(alloc, condition)?)
}

#[tactic(auto, using(crate::proofs::session_reading::ResolveNames::is_postfix, crate::proofs::session_reading::ResolveNames::its_tree))]
fn speak_if(
    builder: &mut Builder,
    alloc: Global,
    scope: &Scope<'_>,
    pieces: Pieces<'_>,
) -> Result<Spoken, Stop>
    requires { length scope.now.variables.now ≤ 255 }
    ensures { UnlessMemory seen_spoken Stops result (spoken_after (scope_of scope.now) Keyword.If (pieces_of pieces.entry.rest.now)) }
{
    let mut rest = pieces;
    let Some((first, Some(Piece::Symbol(symbol)))) = builder.phrase(scope, &mut rest)? else {
        return Err(Stop::Refused(SessionRule::Syntax));
    };
    let Some(comparison) = comparison_of(symbol) else {
        return Err(Stop::Refused(SessionRule::Syntax));
    };
    let left = builder.expression(alloc)?;
    let Some(second) = alone(builder, scope, rest)? else {
        return Err(Stop::Refused(SessionRule::Syntax));
    };
    judge(first.and(second))?;
    let right = builder.expression(alloc)?;
    let condition = compared(alloc, left, comparison, right)?;
    Ok(Spoken::If(condition))
}

fn speak_repeat(pieces: Pieces<'_>) -> Result<Spoken, Stop>
    ensures { (s : names.Scope) → UnlessMemory seen_spoken Stops result (spoken_after s Keyword.Repeat (pieces_of pieces.entry.rest.now)) }
{
    match count_alone(pieces) {
        Some(turns) => Ok(Spoken::Repeat(turns)),
        None => Err(Stop::Refused(SessionRule::Syntax)),
    }
}

/// A count of turns, and nothing after it.
fn count_alone(pieces: Pieces<'_>) -> Option<u16>
    ensures { result ≡ count_alone (pieces_of pieces.entry.rest.now) }
{
    let mut rest = pieces;
    let Some(Piece::Word(word)) = rest.next() else {
        return None;
    };
    if rest.next().is_some() {
        return None;
    }
    let turns = number(word)?;
    if turns <= MOST_TURNS {
        Some(turns as u16)
    } else {
        None
    }
}

/// The first refusal of an expression's names and depth.
fn judge(summary: Summary) -> Result<(), SessionRule>
    ensures { result ≡ judged summary }
{
    if !summary.knows_variables {
        return Err(SessionRule::UnknownName);
    }
    if !summary.knows_records {
        return Err(SessionRule::UnknownRecord);
    }
    if summary.depth > MOST_DEPTH {
        return Err(SessionRule::TooDeep);
    }
    Ok(())
}

/// The first refusal where a record is unknown.
fn without_record(summary: Summary) -> SessionRule
    ensures { result ≡ (if summary.knows_variables then SessionRule.UnknownRecord else SessionRule.UnknownName) }
{
    if summary.knows_variables {
        SessionRule::UnknownRecord
    } else {
        SessionRule::UnknownName
    }
}

fn comparison_of(symbol: Symbol) -> Option<Comparison>
    ensures { result ≡ comparison_of symbol }
{
    match symbol {
        Symbol::Equal => Some(Comparison::Equal),
        Symbol::NotEqual => Some(Comparison::NotEqual),
        Symbol::Less => Some(Comparison::Less),
        Symbol::AtMost => Some(Comparison::AtMost),
        Symbol::Greater => Some(Comparison::Greater),
        Symbol::AtLeast => Some(Comparison::AtLeast),
        _ => None,
    }
}

/// The code after `else`, which `word` has to be.
fn else_code(word: &[u8], pieces: Pieces<'_>) -> Option<u16>
    ensures { result ≡ else_code (AWord word.now ∷ pieces_of pieces.entry.rest.now) }
{
    let mut rest = pieces;
    if word != b"else".as_slice() {
        return None;
    }
    let Some(Piece::Word(code)) = rest.next() else {
        return None;
    };
    if rest.next().is_some() {
        return None;
    }
    let code = number(code)?;
    if code < CODES_END {
        Some(code as u16)
    } else {
        None
    }
}
