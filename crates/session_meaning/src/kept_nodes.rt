//! The nodes of an expression, as it keeps them.

ghost use Rattle.std.specs.Prelude.{◌≡◌, IfOk};
ghost use Rattle.session_meaning.specs.refinement.ExpressionNodes.{nodes_in};

use crate::kept::Kept;
use crate::node_list::NodeList;
use crate::nodes::Nodes;
use std::alloc::{AllocError, Global};

/// One node stands in its place, and several in memory of their own, with the bytes of texts beside them where there are
/// such.
///
/// Most statements of a ledger give, set or let one value: a list for each of them would take and give back memory for
/// 16 bytes.
#[derive(Drop)]
pub(crate) enum KeptNodes {
    One([Kept; 1]),
    Several(Vec<Kept>),
    Texts(Box<NodeList>),
}

impl KeptNodes {
    pub(crate) fn of(alloc: Global, list: &NodeList) -> Result<KeptNodes, AllocError>
        ensures { IfOk result (λ n. nodes_in n ≡ list.now) }
    {
        match list.without_bytes() {
            Some([node]) => Ok(KeptNodes::One([*node])),
            Some(nodes) => Ok(KeptNodes::Several(Vec::from_slice(alloc, nodes)?)),
            None => Ok(KeptNodes::Texts(Box::new(alloc, list.copy(alloc)?)?)),
        }
    }

    #[inline(always)]
    pub(crate) fn nodes(&self) -> Nodes<'_>
        ensures { result ≡ nodes_in self.now }
    {
        match self {
            KeptNodes::One(node) => Nodes::of(node.as_slice(), &[]),
            KeptNodes::Several(nodes) => Nodes::of(nodes, &[]),
            KeptNodes::Texts(list) => list.nodes(),
        }
    }
}
