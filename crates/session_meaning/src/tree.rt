//! Syntax trees of sessions.

use crate::expression::Expression;
use crate::node::Comparison;
use office_map::RecordId;

/// Two expressions that are compared.
#[derive(Drop)]
pub struct Condition {
    pub left: Expression,
    pub comparison: Comparison,
    pub right: Expression,
}

/// A statement, with the blocks that it holds.
#[derive(Drop)]
pub enum Statement {
    Let(u8, Expression),
    Set(RecordId, Expression),
    Give(Expression),
    Require(Box<Condition>, u16),
    If(Box<Condition>, Vec<Statement>),
    IfElse(Box<Condition>, Vec<Statement>, Vec<Statement>),
    Repeat(u16, Vec<Statement>),
}
