//! Operands whose names are in their places.

ghost use Rattle.std.specs.Prelude.{◌≡◌, ◌∷◌, [], ◌++◌, OnOk};
ghost use Rattle.session_language.specs.refinement.PlacedTokens.{leaf_node};

use crate::number::Number;
use office_map::RecordId;
use session_meaning::NodeList;
use std::alloc::AllocError;

/// An operand but for texts, whose name is in its place. It is a node without the room of a text.
#[derive(Clone, Copy)]
pub enum Leaf {
    Number(Number),
    Variable(u8),
    Read(RecordId),
}

impl Leaf {
    /// Adds the node that it is in an expression.
    #[inline(always)]
    pub(crate) fn push_to(self, nodes: &mut NodeList) -> Result<(), AllocError>
        ensures { OnOk result (nodes.new ≡ nodes.old ++ leaf_node self ∷ []) }
    {
        match self {
            Leaf::Number(n) => nodes.push_number(n.value as i64),
            Leaf::Variable(place) => nodes.push_variable(place),
            Leaf::Read(record) => nodes.push_read(record),
        }
    }
}
