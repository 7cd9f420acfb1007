//! The value that a record holds: a whole number of 64 bits with a sign, or a text of at most 64 bytes.
//!
//! - `add`, `sub`, `mul` and `neg` give what `sum`, `difference`, `product` and `opposite` make of the values, or the
//!   fault that they have (`specs/Operations.antt`): the exact number or the joined text, [`ValueFault::Overflow`] exactly
//!   where no value is that, and [`ValueFault::Mismatch`] where a text stands and only a number can. `equals`, `is_less`
//!   and `is_at_most` are those of the same page.
//! - `to_bytes` gives the eight bytes of a number in two's complement, the highest first, and `of_bytes` is its
//!   inverse on all of `[u8; 8]` (`bytes_of` and `twos_complement`, in `specs/Bytes.antt`).
//! - A value prints as `value_text` says (`specs/Printed.antt`).
//! - A [`Text`] is up to 64 bytes (`specs/Texts.antt`), and a [`Version`], that of a plan, says which values a run has
//!   (`specs/Versions.antt`).
//! - What all crates say of lists, maps and numbers has its laws in `specs/ListLaws.antt` and `specs/MapLaws.antt`.
//!
//! No call takes memory.
//!
//! What several crates say of numbers, lists, maps and memory stands here, since it is the lowest crate: `put`,
//! `write_all`, `is_among`, `num`, `UnlessMemory`, and the lemmas about them. How often a number stands in a list is a
//! recursion of our own (`occurrences`): the standard library counts by a fold, which doesn't compute on the first
//! element, and every proof goes element by element; a lemma says that the two are one.
#![tactic(auto)]

ghost use Rattle.std.specs.Prelude.{◌≡◌, ℤ, IsTrue, false, Some, IfSome, IfNone, ◌↔◌};
ghost use Rattle.std.specs.Int.{w64, from_be_bytes};
ghost use Rattle.bottle_values.specs.declared.Value.TheVariants as kind;
ghost use Rattle.bottle_values.specs.Values.{number_in, is_number};
ghost use Rattle.bottle_values.specs.Operations.{is_i64, is_value, sum, difference, product, opposite, are_equal, is_less, is_at_most};
ghost use Rattle.bottle_values.specs.Bytes.{bytes_of, twos_complement};
ghost use Rattle.bottle_values.specs.Printed.{value_text};
ghost use Rattle.bottle_values.specs.refinement.Checked.{number_or_overflow, text_or_overflow};

mod text;
mod version;

use std::fmt;
pub use text::{MAX_TEXT, Text, is_text, is_text_byte};
use thiserror::Error;
pub use version::Version;

/// The value of a record. A number prints in decimal, a text between two quotation marks.
#[derive(Clone, Copy, Debug, PartialEq, Eq, Hash)]
pub enum Value {
    Number(i64),
    Text(Text),
}

/// Why an operation has no result.
#[derive(Clone, Copy, Debug, PartialEq, Eq, Error)]
pub enum ValueFault {
    /// The exact result is below `i64::MIN` or above `i64::MAX`, or the joined text is longer than a text may be.
    #[error("V1 Overflow")]
    Overflow,
    /// A text stands where only a number can.
    #[error("V2 Mismatch")]
    Mismatch,
}

impl Value {
    /// The sum of two numbers, or two texts joined.
    pub fn add(self, other: Value) -> Result<Value, ValueFault>
        ensures { result ≡ sum self other }
    {
        match self {
            Value::Number(a) => match other {
                Value::Number(b) => exact(a.checked_add(b)),
                Value::Text(_) => Err(ValueFault::Mismatch),
            },
            Value::Text(a) => match other {
                Value::Number(_) => Err(ValueFault::Mismatch),
                Value::Text(b) => joined(a.join(b)),
            },
        }
    }

    /// The difference of two numbers, `other` taken from `self`.
    pub fn sub(self, other: Value) -> Result<Value, ValueFault>
        ensures { result ≡ difference self other }
    {
        match (self, other) {
            (Value::Number(a), Value::Number(b)) => exact(a.checked_sub(b)),
            _ => Err(ValueFault::Mismatch),
        }
    }

    /// The product of two numbers.
    pub fn mul(self, other: Value) -> Result<Value, ValueFault>
        ensures { result ≡ product self other }
    {
        match (self, other) {
            (Value::Number(a), Value::Number(b)) => exact(a.checked_mul(b)),
            _ => Err(ValueFault::Mismatch),
        }
    }

    /// The number with the other sign.
    pub fn neg(self) -> Result<Value, ValueFault>
        ensures { result ≡ opposite self }
    {
        match self {
            Value::Number(a) => exact(a.checked_neg()),
            Value::Text(_) => Err(ValueFault::Mismatch),
        }
    }

    /// Whether two values are the same: a number and a text are not.
    pub fn equals(self, other: Value) -> bool
        ensures equal { result ≡ are_equal self other }
        ensures same { IsTrue result ↔ (self ≡ other) }
    {
        match self {
            Value::Number(a) => match other {
                Value::Number(b) => a == b,
                Value::Text(_) => false,
            },
            Value::Text(a) => match other {
                Value::Number(_) => false,
                Value::Text(b) => a.equals(b),
            },
        }
    }

    /// Whether the number comes before another.
    pub fn is_less(self, other: Value) -> Result<bool, ValueFault>
        ensures { result ≡ is_less self other }
    {
        match (self, other) {
            (Value::Number(a), Value::Number(b)) => Ok(a < b),
            _ => Err(ValueFault::Mismatch),
        }
    }

    /// Whether the number is another or comes before it.
    pub fn is_at_most(self, other: Value) -> Result<bool, ValueFault>
        ensures { result ≡ is_at_most self other }
    {
        match (self, other) {
            (Value::Number(a), Value::Number(b)) => Ok(a <= b),
            _ => Err(ValueFault::Mismatch),
        }
    }

    /// The number, if the value is one.
    pub fn number(&self) -> Option<i64>
        ensures some { IfSome result (λ number. self.now ≡ kind.Number number) }
        ensures none { IfNone result (is_number self.now ≡ false) }
    {
        match *self {
            Value::Number(number) => Some(number),
            Value::Text(_) => None,
        }
    }

    /// The number's eight bytes in two's complement, the highest first.
    pub fn to_bytes(self) -> [u8; 8]
        requires { IsTrue (is_number self) }
        ensures bytes { result ≡ bytes_of (number_in self) }
        ensures number { from_be_bytes w64 result ≡ twos_complement (number_in self) }
        ensures range { IsTrue (is_value self) }
    {
        match self {
            Value::Number(number) => number.to_be_bytes(),
            Value::Text(_) => unreachable!(),
        }
    }

    /// The number that has these bytes.
    pub fn of_bytes(bytes: [u8; 8]) -> Value
        ensures number_alone { IsTrue (is_number result) }
        ensures bytes { bytes ≡ bytes_of (number_in result) }
        ensures number { from_be_bytes w64 bytes ≡ twos_complement (number_in result) }
        ensures range { IsTrue (is_value result) }

        // No other number has them.
        ensures only { (z : ℤ) → IsTrue (is_i64 z) → bytes ≡ bytes_of z → kind.Number z ≡ result }
    {
        Value::Number(i64::from_be_bytes(bytes))
    }
}

impl From<i64> for Value {
    ghost from_gives = { λ number value. value ≡ kind.Number number };

    fn from(number: i64) -> Value {
        Value::Number(number)
    }
}

impl fmt::Display for Value {
    ghost output = { λ value. Some (value_text value) };

    fn fmt<W: fmt::Write>(&self, f: &mut fmt::Formatter<W>) -> fmt::Result {
        match self {
            Value::Number(number) => write!(f, "{number}"),
            Value::Text(text) => write!(f, "{text}"),
        }
    }
}

fn exact(number: Option<i64>) -> Result<Value, ValueFault>
    ensures { result ≡ number_or_overflow number }
{
    match number {
        Some(number) => Ok(Value::Number(number)),
        None => Err(ValueFault::Overflow),
    }
}

fn joined(text: Option<Text>) -> Result<Value, ValueFault>
    ensures { result ≡ text_or_overflow text }
{
    match text {
        Some(text) => Ok(Value::Text(text)),
        None => Err(ValueFault::Overflow),
    }
}
