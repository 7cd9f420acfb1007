//! Lists of nodes that grow.

ghost use Rattle.std.specs.Prelude.{◌≡◌, ℕ, List, ◌∷◌, [], ◌++◌, OnOk, OnErr, IfOk, IfSome, map};
ghost use Rattle.session_meaning.specs.refinement.KeptNode.{node_of, IsWithin};
ghost use Rattle.session_meaning.specs.declared.node.Node.TheVariants.{Literal, Variable, Read, Negate, Apply};
ghost use Rattle.bottle_values.specs.declared.Value.TheVariants as bottle;

use crate::kept::Kept;
use crate::node::Operator;
use crate::nodes::Nodes;
use bottle_values::Text;
use office_map::RecordId;
use std::alloc::{AllocError, Global};
use std::marker::Model;

/// A list of nodes that grows: sixteen bytes for each, and the bytes of its texts beside them. Contracts see the list.
#[derive(Drop)]
pub struct NodeList {
    nodes: Vec<Kept>,
    bytes: Vec<u8>,
}

impl Model for NodeList {
    ghost use Rattle.std.specs.Prelude.{List, map, length, All};
    ghost use Rattle.session_meaning.specs.declared.node.Node.{Node};
    ghost use Rattle.session_meaning.specs.refinement.KeptNode.{node_of, IsWithin};

    ghost Value = { List Node };

    ghost view = { λ l. map (node_of l.bytes.items) l.nodes.items };

    ghost invariant = { λ l. All (IsWithin (length l.bytes.items)) l.nodes.items };
}

impl NodeList {
    /// No node yet.
    pub fn new(alloc: Global) -> NodeList
        ensures { result ≡ [] }
    {
        NodeList {
            nodes: Vec::new(alloc),
            bytes: Vec::new(alloc),
        }
    }

    /// No node any more. The memory serves again.
    pub fn clear(&mut self)
        ensures { self.new ≡ [] }
    {
        self.nodes.clear();
        self.bytes.clear();
    }

    /// Adds a number at the end. Where memory runs out the list is as it was.
    #[inline(always)]
    pub fn push_number(&mut self, number: i64) -> Result<(), AllocError>
        ensures pushed { OnOk result (self.new ≡ self.old ++ Literal (bottle.Number number) ∷ []) }
        ensures unchanged { OnErr result (self.new ≡ self.old) }
    {
        self.keep(Kept::Number(number))
    }

    /// Adds a variable at the end, by its place. Where memory runs out the list is as it was.
    #[inline(always)]
    pub fn push_variable(&mut self, place: u8) -> Result<(), AllocError>
        ensures pushed { OnOk result (self.new ≡ self.old ++ Variable place ∷ []) }
        ensures unchanged { OnErr result (self.new ≡ self.old) }
    {
        self.keep(Kept::Variable(place))
    }

    /// Adds a record that is read at the end. Where memory runs out the list is as it was.
    #[inline(always)]
    pub fn push_read(&mut self, id: RecordId) -> Result<(), AllocError>
        ensures pushed { OnOk result (self.new ≡ self.old ++ Read id ∷ []) }
        ensures unchanged { OnErr result (self.new ≡ self.old) }
    {
        self.keep(Kept::Read(id))
    }

    /// Adds a minus before an operand at the end. Where memory runs out the list is as it was.
    #[inline(always)]
    pub fn push_negate(&mut self) -> Result<(), AllocError>
        ensures pushed { OnOk result (self.new ≡ self.old ++ Negate ∷ []) }
        ensures unchanged { OnErr result (self.new ≡ self.old) }
    {
        self.keep(Kept::Negate)
    }

    /// Adds an operator at the end. Where memory runs out the list is as it was.
    #[inline(always)]
    pub fn push_operator(&mut self, operator: Operator) -> Result<(), AllocError>
        ensures pushed { OnOk result (self.new ≡ self.old ++ Apply operator ∷ []) }
        ensures unchanged { OnErr result (self.new ≡ self.old) }
    {
        self.keep(Kept::Apply(operator))
    }

    /// Adds a node that needs no bytes.
    #[inline(always)]
    fn keep(&mut self, kept: Kept) -> Result<(), AllocError>
        requires same { (bytes : List ℕ) → node_of bytes kept ≡ node_of [] kept }
        requires within { IsWithin 0 kept }
        ensures pushed { OnOk result (self.new ≡ self.old ++ node_of [] kept ∷ []) }
        ensures unchanged { OnErr result (self.new ≡ self.old) }
    {
        self.nodes.push(kept)?;
        Ok(())
    }

    /// Adds a text at the end. Where memory runs out the list is as it was; there is some for four gigabytes of texts.
    pub fn push_text(&mut self, text: Text) -> Result<(), AllocError>
        ensures pushed { OnOk result (self.new ≡ self.old ++ Literal (bottle.Text text) ∷ []) }
        ensures unchanged { OnErr result (self.new ≡ self.old) }
    {
        let bytes = text.as_bytes();
        let start = self.bytes.len();
        if start > u32::MAX as usize {
            return Err(AllocError);
        }
        self.nodes.reserve(1)?;
        self.bytes.extend_from_slice(bytes)?;
        self.nodes
            .push_reserved(Kept::Text(start as u32, bytes.len() as u8));
        Ok(())
    }

    /// The nodes, in order.
    pub fn nodes(&self) -> Nodes<'_>
        ensures { result ≡ self.now }
    {
        Nodes::of(&self.nodes, &self.bytes)
    }

    /// The same list, in memory of its own.
    pub(crate) fn copy(&self, alloc: Global) -> Result<NodeList, AllocError>
        ensures { IfOk result (λ l. l ≡ self.now) }
    {
        Ok(NodeList {
            nodes: Vec::from_slice(alloc, &self.nodes)?,
            bytes: Vec::from_slice(alloc, &self.bytes)?,
        })
    }

    /// The nodes as they are kept, where no bytes stand beside them.
    pub(crate) fn without_bytes(&self) -> Option<&[Kept]>
        ensures { IfSome result (λ kept. map (node_of []) kept.now ≡ self.now) }
    {
        if self.bytes.is_empty() {
            Some(&self.nodes)
        } else {
            None
        }
    }
}
