//! Expressions.

ghost use Rattle.std.specs.Prelude.{◌≡◌, IfOk};
ghost use Rattle.session_meaning.specs.refinement.Postfix.{postfix, tree_of, IsPostfix};

use crate::kept_nodes::KeptNodes;
use crate::node_list::NodeList;
use crate::nodes::Nodes;
use std::alloc::{AllocError, Global};
use std::marker::Model;

/// An expression: its nodes in postfix order. Contracts see its tree.
///
/// A tree of boxes would deepen the call stack with the text and cost an allocation for each node. A list of nodes is
/// read in one pass and worked out on a stack; contracts still see the tree (`Term`), through `postfix`.
#[derive(Drop)]
pub struct Expression {
    kept: KeptNodes,
}

impl Model for Expression {
    ghost use Rattle.std.specs.Coded.{Coded, codes};
    ghost use Rattle.session_meaning.specs.declared.node.Node.{Node};
    ghost use Rattle.session_meaning.specs.Tree.{Term};
    ghost use Rattle.session_meaning.specs.refinement.TreeEncoding.{term_code};
    ghost use Rattle.session_meaning.specs.refinement.ExpressionNodes.{nodes_in};
    ghost use Rattle.session_meaning.specs.refinement.Postfix.{tree_of, IsPostfix};

    ghost Value = { Term };

    ghost coded = { let nodes : Coded Node = Prim.hlevel codes in term_code nodes };

    ghost view = { λ e. tree_of (nodes_in e.kept) };

    ghost invariant = { λ e. IsPostfix (nodes_in e.kept) };
}

impl Expression {
    /// The expression of a list of nodes in postfix order.
    pub fn of(alloc: Global, nodes: &NodeList) -> Result<Expression, AllocError>
        requires { IsPostfix nodes.now }
        ensures { IfOk result (λ e. e ≡ tree_of nodes.now) }
    {
        Ok(Expression {
            kept: KeptNodes::of(alloc, nodes)?,
        })
    }

    /// The nodes, each operator after its operands.
    pub fn nodes(&self) -> Nodes<'_>
        ensures { result ≡ postfix self.now }
    {
        self.kept.nodes()
    }
}
