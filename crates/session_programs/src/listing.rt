//! The canonical text of sessions.

ghost use Rattle.std.specs.Prelude.{◌≡◌, ◌∷◌, [], ◌++◌, OnOk, IfOk, codes};
ghost use Rattle.std.specs.String.{string_bytes};
ghost use Rattle.std.specs.Fmt.{decimal};
ghost use Rattle.session_meaning.specs.refinement.TreeOfStatements.{test_of, command_of, block_of};
ghost use Rattle.session_meaning.specs.Tree.{LetVar, SetTo, GiveOf, Requires};
ghost use Rattle.session_programs.specs.Text.{words_of, term_text, test_text, comparison_text, command_text, block_text, session_text, line};

use crate::text::{write_record, write_term, write_variable};
use crate::words::Words;
use itoa::Buffer;
use office_map::RecordId;
use session_meaning::{Comparison, Condition, Expression, Statement};
use std::alloc::{AllocError, Global};

/// The canonical text of a session with these statements.
pub fn session_text(
    alloc: Global,
    words: &Words<'_>,
    statements: &[Statement],
) -> Result<String, AllocError>
    ensures { IfOk result (λ t. string_bytes t ≡ session_text (words_of words.now) (block_of statements.now)) }
{
    let mut out = String::new(alloc);
    out.push_str("session ")?;
    out.push_str(words.office)?;
    out.push_str("\n")?;
    write_block(&mut out, words, statements)?;
    out.push_str("end\n")?;
    Ok(out)
}

#[cycle(listing)]
fn write_block(
    out: &mut String,
    words: &Words<'_>,
    statements: &[Statement],
) -> Result<(), AllocError>
    ensures { OnOk result (string_bytes out.new ≡ string_bytes out.old ++ block_text (words_of words.now) (block_of statements.now)) }
{
    for statement in statements {
        write_statement(out, words, statement)?;
    }
    Ok(())
}

#[cycle(listing)]
fn write_statement(
    out: &mut String,
    words: &Words<'_>,
    statement: &Statement,
) -> Result<(), AllocError>
    ensures { OnOk result (string_bytes out.new ≡ string_bytes out.old ++ command_text (words_of words.now) (command_of statement.now)) }
{
    match statement {
        Statement::Let(place, e) => write_let(out, words, *place, e),
        Statement::Set(id, e) => write_set(out, words, *id, e),
        Statement::Give(e) => write_give(out, words, e),
        Statement::Require(c, code) => write_require(out, words, c, *code),
        Statement::If(c, body) => {
            write_if(out, words, c)?;
            write_block(out, words, body)?;
            write_end(out)
        }
        Statement::IfElse(c, first, second) => {
            write_if(out, words, c)?;
            write_block(out, words, first)?;
            out.push_str("else\n")?;
            write_block(out, words, second)?;
            write_end(out)
        }
        Statement::Repeat(turns, body) => {
            write_repeat(out, *turns)?;
            write_block(out, words, body)?;
            write_end(out)
        }
    }
}

fn write_end(out: &mut String) -> Result<(), AllocError>
    ensures { OnOk result (string_bytes out.new ≡ string_bytes out.old ++ line (codes "end")) }
{
    out.push_str("end\n")
}

fn write_if(out: &mut String, words: &Words<'_>, c: &Condition) -> Result<(), AllocError>
    ensures { OnOk result (string_bytes out.new ≡ string_bytes out.old ++ line (codes "if " ++ test_text (words_of words.now) (test_of c.now))) }
{
    out.push_str("if ")?;
    write_condition(out, words, c)?;
    out.push_str("\n")
}

fn write_repeat(out: &mut String, turns: u16) -> Result<(), AllocError>
    ensures { OnOk result (string_bytes out.new ≡ string_bytes out.old ++ line (codes "repeat " ++ decimal turns)) }
{
    out.push_str("repeat ")?;
    write_number(out, turns)?;
    out.push_str("\n")
}

fn write_let(
    out: &mut String,
    words: &Words<'_>,
    place: u8,
    e: &Expression,
) -> Result<(), AllocError>
    ensures { OnOk result (string_bytes out.new ≡ string_bytes out.old ++ command_text (words_of words.now) (LetVar place e.now)) }
{
    out.push_str("let ")?;
    write_variable(out, words, place)?;
    out.push_str(" = ")?;
    write_expression(out, words, e)?;
    out.push_str("\n")
}

fn write_set(
    out: &mut String,
    words: &Words<'_>,
    id: RecordId,
    e: &Expression,
) -> Result<(), AllocError>
    ensures { OnOk result (string_bytes out.new ≡ string_bytes out.old ++ command_text (words_of words.now) (SetTo id e.now)) }
{
    out.push_str("set ")?;
    write_record(out, words.records, id)?;
    out.push_str(" = ")?;
    write_expression(out, words, e)?;
    out.push_str("\n")
}

fn write_give(out: &mut String, words: &Words<'_>, e: &Expression) -> Result<(), AllocError>
    ensures { OnOk result (string_bytes out.new ≡ string_bytes out.old ++ command_text (words_of words.now) (GiveOf e.now)) }
{
    out.push_str("give ")?;
    write_expression(out, words, e)?;
    out.push_str("\n")
}

fn write_require(
    out: &mut String,
    words: &Words<'_>,
    c: &Condition,
    code: u16,
) -> Result<(), AllocError>
    ensures { OnOk result (string_bytes out.new ≡ string_bytes out.old ++ command_text (words_of words.now) (Requires (test_of c.now) code)) }
{
    out.push_str("require ")?;
    write_condition(out, words, c)?;
    out.push_str(" else ")?;
    write_number(out, code)?;
    out.push_str("\n")
}

fn write_expression(out: &mut String, words: &Words<'_>, e: &Expression) -> Result<(), AllocError>
    ensures { OnOk result (string_bytes out.new ≡ string_bytes out.old ++ term_text (words_of words.now) e.now) }
{
    write_term(out, words, &e.nodes())
}

fn write_condition(out: &mut String, words: &Words<'_>, c: &Condition) -> Result<(), AllocError>
    ensures { OnOk result (string_bytes out.new ≡ string_bytes out.old ++ test_text (words_of words.now) (test_of c.now)) }
{
    write_expression(out, words, &c.left)?;
    out.push_str(comparison_text(c.comparison))?;
    write_expression(out, words, &c.right)
}

/// How a comparison is written between its two sides, with a space before and after it.
pub fn comparison_text(comparison: Comparison) -> &'static str
    ensures { result.now ≡ comparison_text comparison }
{
    match comparison {
        Comparison::Equal => " == ",
        Comparison::NotEqual => " != ",
        Comparison::Less => " < ",
        Comparison::AtMost => " <= ",
        Comparison::Greater => " > ",
        Comparison::AtLeast => " >= ",
    }
}

fn write_number(out: &mut String, n: u16) -> Result<(), AllocError>
    ensures { OnOk result (string_bytes out.new ≡ string_bytes out.old ++ decimal n) }
{
    let mut buffer = Buffer::new();
    out.push_str(buffer.format(n))
}
