//! What a node is, in little room.

use crate::node::Operator;
use office_map::RecordId;

/// What a node is, but for a text's bytes: 16 bytes, where a node has room for the longest text. So a pass over many nodes
/// asks this first.
#[derive(Clone, Copy)]
pub enum Part {
    Number(i64),
    Text,
    Variable(u8),
    Read(RecordId),
    Negate,
    Apply(Operator),
}
