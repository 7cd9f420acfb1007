//! How long a session is, and how many bytes its canonical text has where each office and record has a name of 16: exact up
//! to the limit, and one past it beyond. Each expression is summed in one pass over its nodes.

ghost use Rattle.std.specs.Prelude.{◌≡◌, ◌<◌, ◌≤◌, ◌++◌, ◌∷◌, [], IfOk, List, Some, min, ◌+◌, length, slice_get};
ghost use Rattle.std.specs.Fmt.{decimal};
ghost use Rattle.bottle_values.specs.Printed.{quoted};
ghost use Rattle.session_meaning.specs.refinement.TreeOfStatements.{test_of, command_of, block_of};
ghost use Rattle.session_programs.specs.Limits.{past_bytes};
ghost use Rattle.session_programs.specs.Program.{are_too_long};
ghost use Rattle.session_programs.specs.WellFormed.{IsDeclared};
ghost use Rattle.session_meaning.specs.Tree.{Term, Bin};
ghost use Rattle.session_meaning.specs.declared.node.Node.TheVariants.{Literal};
ghost use Rattle.bottle_values.specs.declared.Value.TheVariants as values;
ghost use Rattle.session_meaning.specs.refinement.Postfix.{push_node, push_nodes};
ghost use Rattle.session_programs.specs.Text.{Words, wide_words, literal, variable_name, rank_of, term_text, test_text, command_text, block_text, session_text};
ghost use Rattle.session_programs.specs.sizes.refinement.TextSizes.{ranks_of, bytes_of, around_factor, around_product, around_both};

use crate::measures::measures::block_measures;
use crate::sizes::limits::{MOST_BYTES, MOST_COST, MOST_STATEMENTS, PAST_BYTES, SHORT_EXTENT};
use crate::{Rank, comparison_text, magnitude};
use bottle_values::{Text, Value};
use session_meaning::{Condition, Expression, Node, Nodes, Operator, Part, Statement};
use std::alloc::{AllocError, Global};
use text_lines::ShortName;

/// Whether statements over these variables are past one of the limits of a session's length. Their text is measured only
/// where they have many nodes.
pub fn are_too_long(
    alloc: Global,
    variables: &[ShortName],
    statements: &[Statement],
) -> Result<bool, AllocError>
    requires { IsDeclared variables.now (block_of statements.now) }
    ensures { IfOk result (λ b. b ≡ are_too_long variables.now (block_of statements.now)) }
{
    let measures = block_measures(statements);
    if measures.statements > MOST_STATEMENTS {
        return Ok(true);
    }
    if measures.cost > MOST_COST {
        return Ok(true);
    }
    if measures.extent <= SHORT_EXTENT {
        return Ok(false);
    }
    Ok(session_size(alloc, variables, statements)? > MOST_BYTES)
}

/// The size of a session.
fn session_size(
    alloc: Global,
    variables: &[ShortName],
    statements: &[Statement],
) -> Result<u32, AllocError>
    ensures { IfOk result (λ n. n ≡ min past_bytes (length (session_text (wide_words variables.now) (block_of statements.now)))) }
{
    let mut ranks = Vec::new(alloc);
    Ok(sum(29, block_size(&mut ranks, variables, statements)?))
}

#[cycle(size)]
fn block_size(
    ranks: &mut Vec<Rank>,
    variables: &[ShortName],
    statements: &[Statement],
) -> Result<u32, AllocError>
    ensures { IfOk result (λ n. n ≡ min past_bytes (length (block_text (wide_words variables.now) (block_of statements.now)))) }
{
    let mut size = 0;
    for statement in statements {
        size = sum(size, statement_size(ranks, variables, statement)?);
    }
    Ok(size)
}

#[cycle(size)]
fn statement_size(
    ranks: &mut Vec<Rank>,
    variables: &[ShortName],
    statement: &Statement,
) -> Result<u32, AllocError>
    ensures { IfOk result (λ n. n ≡ min past_bytes (length (command_text (wide_words variables.now) (command_of statement.now)))) }
{
    match statement {
        Statement::Let(place, e) => {
            let name = name_size(variables, *place);
            Ok(sum(sum(8, name), expression_size(ranks, variables, e)?))
        }
        Statement::Set(_, e) => Ok(sum(24, expression_size(ranks, variables, e)?)),
        Statement::Give(e) => Ok(sum(6, expression_size(ranks, variables, e)?)),
        Statement::Require(c, code) => {
            let test = condition_size(ranks, variables, c)?;
            Ok(sum(15 + digits(*code as u64), test))
        }
        Statement::If(c, body) => {
            let test = condition_size(ranks, variables, c)?;
            let body = block_size(ranks, variables, body)?;
            Ok(sum(sum(8, test), body))
        }
        Statement::IfElse(c, first, second) => {
            let test = condition_size(ranks, variables, c)?;
            let a = block_size(ranks, variables, first)?;
            let b = block_size(ranks, variables, second)?;
            Ok(sum(sum(sum(13, test), a), b))
        }
        Statement::Repeat(turns, body) => {
            let body = block_size(ranks, variables, body)?;
            Ok(sum(12 + digits(*turns as u64), body))
        }
    }
}

fn condition_size(
    ranks: &mut Vec<Rank>,
    variables: &[ShortName],
    c: &Condition,
) -> Result<u32, AllocError>
    ensures { IfOk result (λ n. n ≡ min past_bytes (length (test_text (wide_words variables.now) (test_of c.now)))) }
{
    let left = expression_size(ranks, variables, &c.left)?;
    let right = expression_size(ranks, variables, &c.right)?;
    let sign = comparison_text(c.comparison).len() as u32;
    Ok(sum(sum(left, sign), right))
}

#[tactic(auto, using(crate::proofs::sizes_lemmas::SizeStep::one_left))]
fn expression_size(
    ranks: &mut Vec<Rank>,
    variables: &[ShortName],
    e: &Expression,
) -> Result<u32, AllocError>
    ensures { IfOk result (λ n. n ≡ min past_bytes (length (term_text (wide_words variables.now) e.now))) }
{
    nodes_size(ranks, variables, &e.nodes())
}

/// The bytes of what nodes in postfix order leave.
fn nodes_size(
    ranks: &mut Vec<Rank>,
    variables: &[ShortName],
    nodes: &Nodes<'_>,
) -> Result<u32, AllocError>
    ensures { IfOk result (λ n. n ≡ min past_bytes (bytes_of (wide_words variables.now) (push_nodes nodes.now []))) }
{
    ranks.clear();
    let mut size = 0;
    for i in 0..nodes.len() {
        size = with_node(ranks, size, variables, nodes, i)?;
    }
    Ok(size)
}

/// The bytes of all that waits once the node at this place has come, and the ranks with it.
fn with_node(
    ranks: &mut Vec<Rank>,
    size: u32,
    variables: &[ShortName],
    nodes: &Nodes<'_>,
    i: usize,
) -> Result<u32, AllocError>
    requires at { i < length nodes.now }
    requires size { size ≤ past_bytes }
    ensures { (st : List Term) (node : Node) → slice_get nodes.now i ≡ Some node → ranks.old.items ≡ ranks_of st → size ≡ min past_bytes (bytes_of (wide_words variables.now) st) →
        IfOk result (λ n. (ranks.new.items ≡ ranks_of (push_node node st)) × (n ≡ min past_bytes (bytes_of (wide_words variables.now) (push_node node st)))) }
{
    match nodes.part(i) {
        Part::Number(number) => with_leaf(ranks, size, number_size(number)),
        Part::Text => with_leaf(ranks, size, size_of_text(nodes, i)),
        Part::Variable(place) => with_leaf(ranks, size, name_size(variables, place)),
        Part::Read(_) => with_leaf(ranks, size, 21),
        Part::Negate => with_sign(ranks, size),
        Part::Apply(operator) => with_operator(ranks, size, operator),
    }
}

fn with_leaf(ranks: &mut Vec<Rank>, size: u32, bytes: u32) -> Result<u32, AllocError>
    requires size { size ≤ past_bytes }
    requires bytes { bytes ≤ past_bytes }
    ensures { IfOk result (λ n. (ranks.new.items ≡ ranks.old.items ++ Rank.Factor ∷ []) × (n ≡ min past_bytes (size + bytes))) }
{
    ranks.push(Rank::Factor)?;
    Ok(sum(size, bytes))
}

fn with_sign(ranks: &mut Vec<Rank>, size: u32) -> Result<u32, AllocError>
    requires size { size ≤ past_bytes }
    ensures { (w : Words) (st : List Term) → ranks.old.items ≡ ranks_of st → size ≡ min past_bytes (bytes_of w st) →
        IfOk result (λ n. (ranks.new.items ≡ ranks_of (push_node Node.Negate st)) × (n ≡ min past_bytes (bytes_of w (push_node Node.Negate st)))) }
{
    let Some(rank) = ranks.last_mut() else {
        return Ok(0);
    };
    let parentheses = around_factor(*rank);
    *rank = Rank::Factor;
    Ok(sum(size, 1 + parentheses))
}

fn with_operator(ranks: &mut Vec<Rank>, size: u32, operator: Operator) -> Result<u32, AllocError>
    requires size { size ≤ past_bytes }
    ensures { (w : Words) (st : List Term) → ranks.old.items ≡ ranks_of st → size ≡ min past_bytes (bytes_of w st) →
        IfOk result (λ n. (ranks.new.items ≡ ranks_of (push_node (Node.Apply operator) st)) × (n ≡ min past_bytes (bytes_of w (push_node (Node.Apply operator) st)))) }
{
    let Some(right) = ranks.pop() else {
        return Ok(0);
    };
    let Some(left) = ranks.last_mut() else {
        return Ok(0);
    };
    let parentheses = around_both(operator, *left, right);
    *left = rank_over(operator);
    Ok(sum(size, 3 + parentheses))
}

/// How tightly an operator binds.
fn rank_over(operator: Operator) -> Rank
    ensures { (a b : Term) → result ≡ rank_of (Bin operator a b) }
{
    match operator {
        Operator::Plus | Operator::Minus => Rank::Sum,
        Operator::Times => Rank::Product,
    }
}

/// The bytes of the parentheses around two operands.
fn around_both(operator: Operator, left: Rank, right: Rank) -> u32
    ensures { result ≡ around_both operator left right }
{
    match operator {
        Operator::Plus | Operator::Minus => around_product(right),
        Operator::Times => around_product(left) + around_factor(right),
    }
}

fn around_factor(rank: Rank) -> u32
    ensures { result ≡ around_factor rank }
{
    match rank {
        Rank::Factor => 0,
        Rank::Product | Rank::Sum => 2,
    }
}

fn around_product(rank: Rank) -> u32
    ensures { result ≡ around_product rank }
{
    match rank {
        Rank::Factor | Rank::Product => 0,
        Rank::Sum => 2,
    }
}

/// The bytes of a variable's name.
fn name_size(variables: &[ShortName], place: u8) -> u32
    ensures { result ≡ min past_bytes (length (variable_name (wide_words variables.now) place)) }
{
    match variables.get(place as usize) {
        Some(name) => at_most_past(name.len()),
        None => 0,
    }
}

fn at_most_past(n: usize) -> u32
    ensures { result ≡ min past_bytes n }
{
    n.min(PAST_BYTES as usize) as u32
}

fn sum(a: u32, b: u32) -> u32
    requires a { a ≤ past_bytes }
    requires b { b ≤ past_bytes }
    ensures { result ≡ min past_bytes (a + b) }
{
    (a + b).min(PAST_BYTES)
}

/// How many bytes the text after so many nodes has. It stands apart, so that no other node is sized with room for a text.
#[inline(never)]
fn size_of_text(nodes: &Nodes<'_>, i: usize) -> u32
    requires { i < length nodes.now }
    ensures count { (value : Value) → slice_get nodes.now i ≡ Some (Literal value) → result ≡ length (literal value) }
    ensures few { result ≤ 66 }
{
    match nodes.node(i) {
        Node::Literal(value) => literal_size(value),
        Node::Variable(_) | Node::Read(_) | Node::Negate | Node::Apply(_) => 0,
    }
}

/// How many bytes a literal has, a text with both its quotation marks.
fn literal_size(value: Value) -> u32
    ensures count { result ≡ length (literal value) }
    ensures few { result ≤ 66 }
{
    match value {
        Value::Number(number) => number_size(number),
        Value::Text(text) => text_size(text),
    }
}

fn number_size(number: i64) -> u32
    ensures count { result ≡ length (literal (values.Number number)) }
    ensures few { result ≤ 66 }
{
    digits(magnitude(number))
}

#[tactic(auto, using(crate::proofs::sizes_lemmas::SizeStep::quoted_bytes, crate::proofs::sizes_lemmas::SizeStep::few_bytes))]
fn text_size(text: Text) -> u32
    ensures count { result ≡ length (quoted text) }
    ensures few { result ≤ 66 }
{
    text.as_bytes().len() as u32 + 2
}

/// How many digits a number has.
fn digits(n: u64) -> u32
    ensures count { result ≡ length (decimal n) }
    ensures few { result ≤ 20 }
{
    let mut rest = n;
    let mut count = 1;
    while rest > 9 {
        rest /= 10;
        count += 1;
    }
    count
}
