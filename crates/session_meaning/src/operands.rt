//! Operands of operators in postfix order.

ghost use Rattle.std.specs.Prelude.{◌≡◌, ◌≤◌, ◌++◌, length, reverse, take};
ghost use Rattle.session_meaning.specs.Tree.{Term};
ghost use Rattle.session_meaning.specs.refinement.Postfix.{postfix};
ghost use Rattle.session_meaning.specs.refinement.PostfixSplit.{after_back};

use crate::node::Node;
use crate::nodes::Nodes;

/// Two expressions, one after the other, apart.
pub fn operands<'a>(nodes: &Nodes<'a>) -> (Nodes<'a>, Nodes<'a>)
    ensures apart { (a b : Term) → nodes.now ≡ postfix a ++ postfix b → (result.0 ≡ postfix a) × (result.1 ≡ postfix b) }
    ensures left_within { length result.0 ≤ length nodes.now }
    ensures right_within { length result.1 ≤ length nodes.now }
{
    nodes.split_at(start_of_last(nodes))
}

/// Where the last expression begins.
fn start_of_last(nodes: &Nodes<'_>) -> usize
    ensures at { reverse (take result nodes.now) ≡ after_back 1 (reverse nodes.now) }
    ensures within { result ≤ length nodes.now }
{
    let mut wanted = 1usize;
    let mut at = nodes.len();
    while wanted > 0 {
        if at == 0 {
            return 0;
        }
        at -= 1;
        match nodes.node(at) {
            Node::Literal(_) | Node::Variable(_) | Node::Read(_) => wanted -= 1,
            Node::Negate => {}
            Node::Apply(_) => wanted += 1,
        }
    }
    at
}
