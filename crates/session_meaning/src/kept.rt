//! A node as an expression keeps it.

ghost use Rattle.std.specs.Prelude.{◌≡◌, ℕ, List, Some};
ghost use Rattle.session_meaning.specs.refinement.KeptNode.{node_of, text_in};
ghost use Rattle.session_meaning.specs.refinement.NodeParts.{IsPart};

use crate::node::{Node, Operator};
use crate::part::Part;
use bottle_values::{Text, Value};
use office_map::RecordId;

/// A node as it is kept: a literal as its number, or as the place and the length of its text among bytes that stand
/// beside the nodes, whatever room a value takes.
///
/// A text comes last, where `Part` has it second: if both numbered their kinds alike, what is compiled would keep the one's
/// number for the other's, and jump twice for each node where now it jumps once.
#[derive(Clone, Copy)]
pub(crate) enum Kept {
    Number(i64),
    Variable(u8),
    Read(RecordId),
    Negate,
    Apply(Operator),
    Text(u32, u8),
}

impl Kept {
    /// What it is, with these bytes beside it.
    #[inline(always)]
    pub(crate) fn node(self, bytes: &[u8]) -> Node
        ensures { result ≡ node_of bytes.now self }
    {
        match self {
            Kept::Number(number) => Node::Literal(Value::Number(number)),
            Kept::Text(start, len) => {
                Node::Literal(Value::Text(text_in(bytes, start as usize, len as usize)))
            }
            Kept::Variable(place) => Node::Variable(place),
            Kept::Read(id) => Node::Read(id),
            Kept::Negate => Node::Negate,
            Kept::Apply(operator) => Node::Apply(operator),
        }
    }

    /// What it is, but for a text's bytes, whatever bytes are beside it.
    #[inline(always)]
    pub(crate) fn part(self) -> Part
        ensures { (bytes : List ℕ) → IsPart (Some (node_of bytes self)) result }
    {
        match self {
            Kept::Number(number) => Part::Number(number),
            Kept::Text(_, _) => Part::Text,
            Kept::Variable(place) => Part::Variable(place),
            Kept::Read(id) => Part::Read(id),
            Kept::Negate => Part::Negate,
            Kept::Apply(operator) => Part::Apply(operator),
        }
    }
}

/// The text of so many bytes from a place on. It stands apart, so that a number is told without it.
#[inline(never)]
fn text_in(bytes: &[u8], start: usize, len: usize) -> Text
    ensures { result ≡ text_in bytes.now start len }
{
    let rest = bytes.split_at(start.min(bytes.len())).1;
    let told = rest.split_at(len.min(rest.len())).0;
    match Text::of(told) {
        Some(text) => text,
        None => Text::empty(),
    }
}
