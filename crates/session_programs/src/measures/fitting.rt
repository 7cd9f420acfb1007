//! Which sessions need texts.

ghost use Rattle.std.specs.Prelude.{◌≡◌, ◌&&◌};
ghost use Rattle.std.specs.List.{list_all};
ghost use Rattle.bottle_values.specs.declared.version.Version.TheVariants.{One};
ghost use Rattle.session_meaning.specs.Fitting.{term_fits, test_fits, command_fits, block_fits};
ghost use Rattle.session_meaning.specs.refinement.TreeOfStatements.{test_of, command_of, block_of};
ghost use Rattle.session_programs.specs.measures.refinement.NodeFitting.{node_fits};

use bottle_values::Value;
use session_meaning::{Condition, Expression, Node, Nodes, Statement};

/// Whether statements have numbers alone, and no text: whether they are those of a session of version 1.
#[cycle(fitting)]
pub fn are_of_numbers(statements: &[Statement]) -> bool
    ensures { result ≡ block_fits One (block_of statements.now) }
{
    for statement in statements {
        if !is_of_numbers(statement) {
            return false;
        }
    }
    true
}

#[cycle(fitting)]
fn is_of_numbers(statement: &Statement) -> bool
    ensures { result ≡ command_fits One (command_of statement.now) }
{
    match statement {
        Statement::Let(_, e) | Statement::Set(_, e) | Statement::Give(e) => has_numbers(e),
        Statement::Require(c, _) => compares_numbers(c),
        Statement::If(c, body) => both(compares_numbers(c), are_of_numbers(body)),
        Statement::IfElse(c, first, second) => both(
            compares_numbers(c),
            both(are_of_numbers(first), are_of_numbers(second)),
        ),
        Statement::Repeat(_, body) => are_of_numbers(body),
    }
}

fn both(a: bool, b: bool) -> bool
    ensures { result ≡ (a && b) }
{
    a && b
}

fn compares_numbers(c: &Condition) -> bool
    ensures { result ≡ test_fits One (test_of c.now) }
{
    both(has_numbers(&c.left), has_numbers(&c.right))
}

#[tactic(auto, using(crate::proofs::measures_lemmas::FittingNodes::term_fits_by_nodes))]
fn has_numbers(e: &Expression) -> bool
    ensures { result ≡ term_fits One e.now }
{
    are_numbers(&e.nodes())
}

fn are_numbers(nodes: &Nodes<'_>) -> bool
    ensures { result ≡ list_all node_fits nodes.now }
{
    for i in 0..nodes.len() {
        if !is_number(nodes.node(i)) {
            return false;
        }
    }
    true
}

fn is_number(node: Node) -> bool
    ensures { result ≡ node_fits node }
{
    match node {
        Node::Literal(value) => match value {
            Value::Number(_) => true,
            Value::Text(_) => false,
        },
        Node::Variable(_) | Node::Read(_) | Node::Negate | Node::Apply(_) => true,
    }
}
