//! What sessions give.

ghost use Rattle.std.specs.Prelude.{◌≡◌, ◌<◌, [], ◌∷◌, ◌++◌, length, map, slice_get, Some, OnOk, OnErr, IfOk};
ghost use Rattle.bottle_values.specs.declared.Value.TheVariants.{Number};
ghost use Rattle.session_meaning.specs.refinement.KeptGives.{values_in};

use bottle_values::Value;
use std::alloc::{AllocError, Global};
use std::marker::Model;

/// The values that a session gave, in order. Contracts see the list.
///
/// As long as no text is among them a value takes the eight bytes of its number.
#[derive(Drop)]
pub struct Gives {
    kept: Kept,
}

#[derive(Drop)]
enum Kept {
    Numbers(Vec<i64>),
    Values(Vec<Value>),
}

impl Model for Gives {
    ghost use Rattle.std.specs.Prelude.{List};
    ghost use Rattle.bottle_values.specs.declared.Value as bottle;
    ghost use Rattle.session_meaning.specs.refinement.KeptGives.{values_in};

    ghost Value = { List bottle.Value };

    ghost view = { λ g. values_in g.kept };
}

impl Gives {
    /// No value yet.
    pub fn new(alloc: Global) -> Gives
        ensures { result ≡ [] }
    {
        Gives::of_numbers(Vec::new(alloc))
    }

    /// These values, in the same memory.
    pub fn of(values: Vec<Value>) -> Gives
        ensures { result ≡ values.items }
    {
        Gives {
            kept: Kept::Values(values),
        }
    }

    /// These numbers, in the same memory.
    pub fn of_numbers(numbers: Vec<i64>) -> Gives
        ensures { result ≡ map Number numbers.items }
    {
        Gives {
            kept: Kept::Numbers(numbers),
        }
    }

    /// Adds a value at the end. Where memory runs out the list is as it was.
    pub fn push(&mut self, value: Value) -> Result<(), AllocError>
        ensures pushed { OnOk result (self.new ≡ self.old ++ value ∷ []) }
        ensures unchanged { OnErr result (self.new ≡ self.old) }
    {
        match &mut self.kept {
            Kept::Numbers(numbers) => match value {
                Value::Number(number) => numbers.push(number)?,
                Value::Text(_) => {
                    let mut values = as_values(numbers)?;
                    values.push(value)?;
                    self.kept = Kept::Values(values);
                }
            },
            Kept::Values(values) => values.push(value)?,
        }
        Ok(())
    }

    /// Adds a number at the end, without room for a text. Where memory runs out the list is as it was.
    pub fn push_number(&mut self, number: i64) -> Result<(), AllocError>
        ensures pushed { OnOk result (self.new ≡ self.old ++ Number number ∷ []) }
        ensures unchanged { OnErr result (self.new ≡ self.old) }
    {
        match &mut self.kept {
            Kept::Numbers(kept) => kept.push(number)?,
            Kept::Values(kept) => kept.push(Value::Number(number))?,
        }
        Ok(())
    }

    /// How many there are.
    pub fn len(&self) -> usize
        ensures { result ≡ length self.now }
    {
        match &self.kept {
            Kept::Numbers(numbers) => numbers.len(),
            Kept::Values(values) => values.len(),
        }
    }

    /// The value after so many others.
    pub fn get(&self, i: usize) -> Value
        requires { i < length self.now }
        ensures { slice_get self.now i ≡ Some result }
    {
        match &self.kept {
            Kept::Numbers(numbers) => Value::Number(numbers[i]),
            Kept::Values(values) => values[i],
        }
    }

    /// The same list, in memory of its own.
    pub fn copy(&self, alloc: Global) -> Result<Gives, AllocError>
        ensures { IfOk result (λ g. g ≡ self.now) }
    {
        match &self.kept {
            Kept::Numbers(numbers) => Ok(Gives::of_numbers(Vec::from_slice(alloc, numbers)?)),
            Kept::Values(values) => Ok(Gives::of(Vec::from_slice(alloc, values)?)),
        }
    }
}

/// These numbers as values, with room for one more.
fn as_values(numbers: &Vec<i64>) -> Result<Vec<Value>, AllocError>
    ensures { IfOk result (λ values. values.items ≡ map Number numbers.now.items) }
{
    let mut values = Vec::with_capacity(*numbers.allocator(), numbers.len() + 1)?;
    for number in numbers {
        values.push(Value::Number(*number))?;
    }
    Ok(values)
}
