//! Measures of sessions, exact up to 10,000, the most that a session may cost, and 10,001 beyond.

ghost use Rattle.std.specs.Prelude.{◌≡◌, ◌≤◌, min, max, ◌+◌, ◌*◌};
ghost use Rattle.session_meaning.specs.refinement.TreeOfStatements.{test_of, command_of, block_of};
ghost use Rattle.session_programs.specs.measures.Measures.{nodes, test_nodes, cost, block_cost, gives, block_gives, statements, block_statements};
ghost use Rattle.session_programs.specs.measures.refinement.Extent.{extent, block_extent, term_extent, test_extent};
ghost use Rattle.session_meaning.specs.refinement.TextBytes.{nodes_bytes, term_bytes, value_bytes};

use bottle_values::Value;
use session_meaning::{Condition, Expression, Node, Nodes, Statement};

/// One past the greatest cost of a session.
const PAST: u32 = 10_001;

/// What statements have, those in blocks included.
#[derive(Clone, Copy)]
pub struct Measures {
    /// Each statement, node, condition and turn costs 1, of an `if` the dearer part.
    pub cost: u32,
    /// How many values they give at most.
    pub gives: u32,
    /// How many statements there are.
    pub statements: u32,
    /// How many nodes and statements there are, and bytes of texts, which bounds the bytes of their text.
    pub extent: u32,
}

fn sum(a: u32, b: u32) -> u32
    ensures { result ≡ min 10001 (a + b) }
{
    a.saturating_add(b).min(PAST)
}

fn nodes(e: &Expression) -> u32
    ensures { result ≡ min 10001 (nodes e.now) }
{
    let count = e.nodes().len();
    if count < 10_001 { count as u32 } else { PAST }
}

/// The nodes of an expression, and the bytes of its texts.
fn extent(e: &Expression) -> u32
    ensures { result ≡ min 10001 (term_extent e.now) }
{
    sum(nodes(e), texts_of(e))
}

/// The bytes of an expression's texts.
#[tactic(auto, using(crate::proofs::measures_lemmas::TextBytes::bytes_are))]
fn texts_of(e: &Expression) -> u32
    ensures { result ≡ min 10001 (term_bytes e.now) }
{
    texts_bytes(&e.nodes())
}

/// The bytes of texts among nodes. Where there are none, the nodes aren't looked at.
fn texts_bytes(nodes: &Nodes<'_>) -> u32
    ensures { result ≡ min 10001 (nodes_bytes nodes.now) }
{
    if nodes.has_bytes() {
        bytes_of_all(nodes)
    } else {
        0
    }
}

fn bytes_of_all(nodes: &Nodes<'_>) -> u32
    ensures { result ≡ min 10001 (nodes_bytes nodes.now) }
{
    let mut bytes = 0;
    for i in 0..nodes.len() {
        if let Node::Literal(value) = nodes.node(i) {
            bytes = sum(bytes, value_bytes(value));
        }
    }
    bytes
}

/// The bytes of a text.
fn value_bytes(value: Value) -> u32
    ensures { result ≡ value_bytes value }
{
    match value {
        Value::Number(_) => 0,
        Value::Text(text) => text.as_bytes().len() as u32,
    }
}

fn test_extent(c: &Condition) -> u32
    ensures { result ≡ min 10001 (test_extent (test_of c.now)) }
{
    let left = extent(&c.left);
    let right = extent(&c.right);
    sum(sum(1, left), right)
}

fn test_nodes(c: &Condition) -> u32
    ensures { result ≡ min 10001 (test_nodes (test_of c.now)) }
{
    let left = nodes(&c.left);
    let right = nodes(&c.right);
    sum(sum(1, left), right)
}

/// What statements have, one after another, in one walk.
#[cycle(measures)]
pub fn block_measures(statements: &[Statement]) -> Measures
    ensures cost { result.cost ≡ min 10001 (block_cost (block_of statements.now)) }
    ensures gives { result.gives ≡ min 10001 (block_gives (block_of statements.now)) }
    ensures statements { result.statements ≡ min 10001 (block_statements (block_of statements.now)) }
    ensures extent { result.extent ≡ min 10001 (block_extent (block_of statements.now)) }
{
    let mut all = nothing();
    for statement in statements {
        all = both(all, measures_of(statement));
    }
    all
}

#[cycle(measures)]
fn measures_of(statement: &Statement) -> Measures
    ensures cost { result.cost ≡ min 10001 (cost (command_of statement.now)) }
    ensures gives { result.gives ≡ min 10001 (gives (command_of statement.now)) }
    ensures statements { result.statements ≡ min 10001 (statements (command_of statement.now)) }
    ensures extent { result.extent ≡ min 10001 (extent (command_of statement.now)) }
{
    match statement {
        Statement::Let(_, e) => plain(nodes(e), extent(e), 0),
        Statement::Set(_, e) => plain(nodes(e), extent(e), 0),
        Statement::Give(e) => plain(nodes(e), extent(e), 1),
        Statement::Require(c, _) => plain(test_nodes(c), test_extent(c), 0),
        Statement::If(c, body) => {
            let test = test_nodes(c);
            let extent = test_extent(c);
            let body = block_measures(body);
            headed(test, extent, body)
        }
        Statement::IfElse(c, first, second) => {
            let test = test_nodes(c);
            let extent = test_extent(c);
            let a = block_measures(first);
            let b = block_measures(second);
            headed(test, extent, either(a, b))
        }
        Statement::Repeat(turns, body) => {
            let body = block_measures(body);
            repeated(*turns, body)
        }
    }
}

fn nothing() -> Measures
    ensures cost { result.cost ≡ 0 }
    ensures gives { result.gives ≡ 0 }
    ensures statements { result.statements ≡ 0 }
    ensures extent { result.extent ≡ 0 }
{
    Measures {
        cost: 0,
        gives: 0,
        statements: 0,
        extent: 0,
    }
}

/// A statement without blocks, of so many nodes and tests and with such an extent, that gives so many values.
fn plain(size: u32, extent: u32, given: u32) -> Measures
    ensures cost { result.cost ≡ min 10001 (1 + size) }
    ensures gives { result.gives ≡ given }
    ensures statements { result.statements ≡ 1 }
    ensures extent { result.extent ≡ min 10001 (1 + extent) }
{
    Measures {
        cost: sum(1, size),
        gives: given,
        statements: 1,
        extent: sum(1, extent),
    }
}

/// One after the other.
fn both(a: Measures, b: Measures) -> Measures
    ensures cost { result.cost ≡ min 10001 (a.cost + b.cost) }
    ensures gives { result.gives ≡ min 10001 (a.gives + b.gives) }
    ensures statements { result.statements ≡ min 10001 (a.statements + b.statements) }
    ensures extent { result.extent ≡ min 10001 (a.extent + b.extent) }
{
    Measures {
        cost: sum(a.cost, b.cost),
        gives: sum(a.gives, b.gives),
        statements: sum(a.statements, b.statements),
        extent: sum(a.extent, b.extent),
    }
}

/// Two parts of which one is run.
fn either(a: Measures, b: Measures) -> Measures
    ensures cost { result.cost ≡ max a.cost b.cost }
    ensures gives { result.gives ≡ max a.gives b.gives }
    ensures statements { result.statements ≡ min 10001 (a.statements + b.statements) }
    ensures extent { result.extent ≡ min 10001 (a.extent + b.extent) }
{
    Measures {
        cost: a.cost.max(b.cost),
        gives: a.gives.max(b.gives),
        statements: sum(a.statements, b.statements),
        extent: sum(a.extent, b.extent),
    }
}

/// A body under a test of so many nodes and with such an extent.
fn headed(test: u32, extent: u32, body: Measures) -> Measures
    ensures cost { result.cost ≡ min 10001 (1 + test + body.cost) }
    ensures gives { result.gives ≡ body.gives }
    ensures statements { result.statements ≡ min 10001 (1 + body.statements) }
    ensures extent { result.extent ≡ min 10001 (1 + extent + body.extent) }
{
    let head = sum(1, test);
    Measures {
        cost: sum(head, body.cost),
        gives: body.gives,
        statements: sum(1, body.statements),
        extent: sum(sum(1, extent), body.extent),
    }
}

/// A body that is run so many times.
fn repeated(turns: u16, body: Measures) -> Measures
    requires cost { body.cost ≤ 10001 }
    requires gives { body.gives ≤ 10001 }
    ensures cost { result.cost ≡ min 10001 (1 + turns * (1 + body.cost)) }
    ensures gives { result.gives ≡ min 10001 (turns * body.gives) }
    ensures statements { result.statements ≡ min 10001 (1 + body.statements) }
    ensures extent { result.extent ≡ min 10001 (1 + body.extent) }
{
    Measures {
        cost: turns_cost(turns, body.cost),
        gives: turns_gives(turns, body.gives),
        statements: sum(1, body.statements),
        extent: sum(1, body.extent),
    }
}

fn turns_cost(turns: u16, body: u32) -> u32
    requires body { body ≤ 10001 }
    ensures { result ≡ min 10001 (1 + turns * (1 + body)) }
{
    (1 + turns as u32 * (1 + body)).min(PAST)
}

fn turns_gives(turns: u16, body: u32) -> u32
    requires body { body ≤ 10001 }
    ensures { result ≡ min 10001 (turns * body) }
{
    (turns as u32 * body).min(PAST)
}
