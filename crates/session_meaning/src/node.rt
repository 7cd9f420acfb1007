//! The parts that an expression is made of.

use bottle_values::{Value, ValueFault};
use office_map::RecordId;

/// An operator between two operands.
#[derive(Clone, Copy, PartialEq, Eq)]
pub enum Operator {
    Plus,
    Minus,
    Times,
}

impl Operator {
    ghost use Rattle.std.specs.Prelude.{◌≡◌};
    ghost use Rattle.session_meaning.specs.Meaning.{apply};

    /// The result, or the fault that two values have here.
    pub fn apply(self, a: Value, b: Value) -> Result<Value, ValueFault>
        ensures { result ≡ apply self a b }
    {
        match self {
            Operator::Plus => a.add(b),
            Operator::Minus => a.sub(b),
            Operator::Times => a.mul(b),
        }
    }
}

/// A comparison of two operands.
#[derive(Clone, Copy, PartialEq, Eq)]
pub enum Comparison {
    Equal,
    NotEqual,
    Less,
    AtMost,
    Greater,
    AtLeast,
}

impl Comparison {
    ghost use Rattle.std.specs.Prelude.{◌≡◌};
    ghost use Rattle.session_meaning.specs.Meaning.{holds};

    /// Whether it holds of two values, or the fault that they have here.
    pub fn holds(self, a: Value, b: Value) -> Result<bool, ValueFault>
        ensures { result ≡ holds self a b }
    {
        match self {
            Comparison::Equal => Ok(a.equals(b)),
            Comparison::NotEqual => Ok(!a.equals(b)),
            Comparison::Less => a.is_less(b),
            Comparison::AtMost => a.is_at_most(b),
            Comparison::Greater => b.is_less(a),
            Comparison::AtLeast => b.is_at_most(a),
        }
    }
}

/// A part of an expression in postfix order: an operand, or an operator that follows its operands.
#[derive(Clone, Copy, PartialEq, Eq)]
pub enum Node {
    Literal(Value),
    /// A variable goes by its place in the session's list of variables.
    Variable(u8),
    Read(RecordId),
    Negate,
    Apply(Operator),
}
