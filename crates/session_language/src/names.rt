//! Tokens whose names are in their places.

ghost use Rattle.std.specs.Prelude.{◌≡◌, true};
ghost use Rattle.session_language.specs.refinement.PlacedTokens.{Operand, leaf_node, seen_element, seen_placed};

use crate::builder::Element;
use crate::leaf::Leaf;

/// A token whose names are in their places, and whether they are known as a variable and as a record.
#[derive(Clone, Copy)]
pub struct Placed {
    pub element: Element,
    pub knows_variable: bool,
    pub knows_record: bool,
}

pub(crate) fn known_leaf(leaf: Leaf) -> Placed
    ensures { seen_placed result ≡ record { element = Operand (leaf_node leaf); knows_variable = true; knows_record = true } }
{
    known(Element::Operand(leaf))
}

pub(crate) fn known(element: Element) -> Placed
    ensures { seen_placed result ≡ record { element = seen_element element; knows_variable = true; knows_record = true } }
{
    Placed {
        element,
        knows_variable: true,
        knows_record: true,
    }
}
