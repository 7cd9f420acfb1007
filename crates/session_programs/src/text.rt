//! The canonical text of expressions and sessions.

ghost use Rattle.std.specs.Prelude.{◌≡◌, ◌∷◌, [], ◌++◌, OnOk, codes};
ghost use Rattle.std.specs.String.{string_bytes};
ghost use Rattle.std.specs.Fmt.{decimal};
ghost use Rattle.bottle_values.specs.Printed.{quoted};
ghost use Rattle.session_meaning.specs.Tree.{Term};
ghost use Rattle.session_meaning.specs.refinement.Postfix.{postfix};
ghost use Rattle.session_programs.specs.Text.{words_of, literal, magnitude, variable_name, record_names, rank_of, term_text, factor_text, product_text, operation_text, read_text};

use crate::rank::Rank;
use crate::words::{RecordNames, Words};
use bottle_values::{Text, Value};
use itoa::Buffer;
use office_map::RecordId;
use session_meaning::operands::operands;
use session_meaning::{Node, Nodes, Operator};
use std::alloc::AllocError;

/// What an expression may stand as without parentheses.
fn rank(nodes: &Nodes<'_>) -> Rank
    ensures { (e : Term) → nodes.now ≡ postfix e → result ≡ rank_of e }
{
    match nodes.split_last() {
        Some((Node::Apply(Operator::Times), _)) => Rank::Product,
        Some((Node::Apply(_), _)) => Rank::Sum,
        _ => Rank::Factor,
    }
}

#[cycle(text)]
pub fn write_term(out: &mut String, words: &Words<'_>, nodes: &Nodes<'_>) -> Result<(), AllocError>
    ensures { (e : Term) → nodes.now ≡ postfix e → OnOk result (string_bytes out.new ≡ string_bytes out.old ++ term_text (words_of words.now) e) }
{
    let Some((last, rest)) = nodes.split_last() else {
        return Ok(());
    };
    match last {
        Node::Literal(value) => write_literal(out, value),
        Node::Variable(place) => write_variable(out, words, place),
        Node::Read(record) => write_read(out, words, record),
        Node::Negate => {
            out.push_str("-")?;
            write_factor(out, words, &rest)
        }
        Node::Apply(operator) => write_operation(out, words, operator, &rest),
    }
}

#[cycle(text)]
fn write_operation(
    out: &mut String,
    words: &Words<'_>,
    operator: Operator,
    nodes: &Nodes<'_>,
) -> Result<(), AllocError>
    ensures { (a b : Term) → nodes.now ≡ postfix a ++ postfix b → OnOk result (string_bytes out.new ≡ string_bytes out.old ++ operation_text (words_of words.now) operator a b) }
{
    let (left, right) = operands(nodes);
    match operator {
        Operator::Times => {
            write_product(out, words, &left)?;
            out.push_str(" * ")?;
            write_factor(out, words, &right)
        }
        Operator::Plus => {
            write_term(out, words, &left)?;
            out.push_str(" + ")?;
            write_product(out, words, &right)
        }
        Operator::Minus => {
            write_term(out, words, &left)?;
            out.push_str(" - ")?;
            write_product(out, words, &right)
        }
    }
}

#[cycle(text)]
fn write_factor(out: &mut String, words: &Words<'_>, nodes: &Nodes<'_>) -> Result<(), AllocError>
    ensures { (e : Term) → nodes.now ≡ postfix e → OnOk result (string_bytes out.new ≡ string_bytes out.old ++ factor_text (rank_of e) (term_text (words_of words.now) e)) }
{
    match rank(nodes) {
        Rank::Factor => write_term(out, words, nodes),
        Rank::Product | Rank::Sum => {
            out.push_str("(")?;
            write_term(out, words, nodes)?;
            out.push_str(")")
        }
    }
}

#[cycle(text)]
fn write_product(out: &mut String, words: &Words<'_>, nodes: &Nodes<'_>) -> Result<(), AllocError>
    ensures { (e : Term) → nodes.now ≡ postfix e → OnOk result (string_bytes out.new ≡ string_bytes out.old ++ product_text (rank_of e) (term_text (words_of words.now) e)) }
{
    match rank(nodes) {
        Rank::Factor | Rank::Product => write_term(out, words, nodes),
        Rank::Sum => {
            out.push_str("(")?;
            write_term(out, words, nodes)?;
            out.push_str(")")
        }
    }
}

fn write_literal(out: &mut String, value: Value) -> Result<(), AllocError>
    ensures { OnOk result (string_bytes out.new ≡ string_bytes out.old ++ literal value) }
{
    match value {
        Value::Number(number) => write_number(out, number),
        Value::Text(text) => write_text(out, text),
    }
}

fn write_number(out: &mut String, number: i64) -> Result<(), AllocError>
    ensures { OnOk result (string_bytes out.new ≡ string_bytes out.old ++ decimal (magnitude number)) }
{
    let mut buffer = Buffer::new();
    out.push_str(buffer.format(magnitude(number)))
}

/// A text between two quotation marks.
pub fn write_text(out: &mut String, text: Text) -> Result<(), AllocError>
    ensures { OnOk result (string_bytes out.new ≡ string_bytes out.old ++ quoted text) }
{
    write!(out, "{text}")
}

/// The number of a literal, which has no sign.
pub fn magnitude(number: i64) -> u64
    ensures { result ≡ magnitude number }
{
    if number < 0 { 0 } else { number as u64 }
}

pub fn write_variable(out: &mut String, words: &Words<'_>, place: u8) -> Result<(), AllocError>
    ensures { OnOk result (string_bytes out.new ≡ string_bytes out.old ++ variable_name (words_of words.now) place) }
{
    match words.variables.get(place as usize) {
        Some(name) => out.push_str(name.as_str()),
        None => Ok(()),
    }
}

fn write_read(out: &mut String, words: &Words<'_>, id: RecordId) -> Result<(), AllocError>
    ensures { OnOk result (string_bytes out.new ≡ string_bytes out.old ++ read_text (record_names words.now.records id)) }
{
    out.push_str("read ")?;
    write_record(out, words.records, id)
}

pub fn write_record(
    out: &mut String,
    names: RecordNames<'_>,
    id: RecordId,
) -> Result<(), AllocError>
    ensures { OnOk result (string_bytes out.new ≡ string_bytes out.old ++ record_names names.entry id) }
{
    match names {
        RecordNames::Wide => out.push_str("0123456789abcdef"),
        RecordNames::Of(plan) => {
            if id.index() < plan.records() {
                out.push_str(plan.record_name(id))
            } else {
                Ok(())
            }
        }
    }
}
