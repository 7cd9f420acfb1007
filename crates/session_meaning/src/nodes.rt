//! The nodes of an expression, as it keeps them.

ghost use Rattle.std.specs.Prelude.{◌≡◌, ◌∷◌, [], ◌++◌, ◌<◌, ◌≤◌, ◌+◌, ◌^◌, length, map, take, drop, slice_get, Some, false, IfSome, IfNone};
ghost use Rattle.session_meaning.specs.refinement.KeptNode.{node_of};
ghost use Rattle.session_meaning.specs.refinement.NodeParts.{IsPart};
ghost use Rattle.session_meaning.specs.refinement.TextBytes.{nodes_bytes};

use crate::kept::Kept;
use crate::node::Node;
use crate::part::Part;
use std::marker::Model;

/// The nodes of an expression, or some of them that follow one another, each operator after its operands. Contracts see
/// the list.
///
/// What a node is is told one at a time, so that it may be kept in less room.
#[derive(Drop)]
pub struct Nodes<'a> {
    kept: &'a [Kept],
    bytes: &'a [u8],
}

impl<'a> Model for Nodes<'a> {
    ghost use Rattle.std.specs.Prelude.{List, map};
    ghost use Rattle.session_meaning.specs.declared.node.Node.{Node};
    ghost use Rattle.session_meaning.specs.refinement.KeptNode.{node_of};

    ghost Value = { List Node };

    ghost view = { λ n. map (node_of n.bytes.now) n.kept.now };
}

impl<'a> Nodes<'a> {
    pub(crate) fn of(kept: &'a [Kept], bytes: &'a [u8]) -> Nodes<'a>
        ensures { result ≡ map (node_of bytes.now) kept.now }
    {
        Nodes { kept, bytes }
    }

    /// How many there are. No memory holds more.
    pub fn len(&self) -> usize
        ensures len { result ≡ length self.now }
        ensures few { length self.now < 2 ^ 60 }
    {
        self.kept.len()
    }

    /// Whether a text among them may have bytes.
    pub fn has_bytes(&self) -> bool
        ensures { result ≡ false → nodes_bytes self.now ≡ 0 }
    {
        self.bytes.len() > 0
    }

    /// The node after so many others.
    pub fn node(&self, i: usize) -> Node
        requires { i < length self.now }
        ensures node { slice_get self.now i ≡ Some result }
        ensures rest { drop i self.now ≡ result ∷ drop (i + 1) self.now }
    {
        let kept = self.kept;
        kept[i].node(self.bytes)
    }

    /// What the node after so many others is, but for a text's bytes.
    pub fn part(&self, i: usize) -> Part
        requires { i < length self.now }
        ensures { IsPart (slice_get self.now i) result }
    {
        let kept = self.kept;
        kept[i].part()
    }

    /// The last node, and those before it.
    pub fn split_last(&self) -> Option<(Node, Nodes<'a>)>
        ensures some { IfSome result (λ p. self.now ≡ p.1 ++ p.0 ∷ []) }
        ensures shorter { IfSome result (λ p. length self.now ≡ length p.1 + 1) }
        ensures none { IfNone result (self.now ≡ []) }
    {
        let (last, before) = self.kept.split_last()?;
        let bytes = self.bytes;
        let before = Nodes {
            kept: before,
            bytes,
        };
        Some((last.node(bytes), before))
    }

    /// The first so many, and the others.
    pub fn split_at(&self, at: usize) -> (Nodes<'a>, Nodes<'a>)
        requires { at ≤ length self.now }
        ensures front { result.0 ≡ take at self.now }
        ensures back { result.1 ≡ drop at self.now }
    {
        let (front, back) = self.kept.split_at(at);
        let bytes = self.bytes;
        (Nodes { kept: front, bytes }, Nodes { kept: back, bytes })
    }
}
