//! A session's variables.

use bottle_values::Value;
use std::alloc::{AllocError, Global};
use std::marker::Model;

/// The values of a session's variables, by place. Contracts see the list.
#[derive(Drop)]
pub struct Variables {
    values: Vec<Value>,
}

impl Model for Variables {
    ghost use Rattle.std.specs.Prelude.{List};
    ghost use Rattle.bottle_values.specs.declared.Value as bottle;

    ghost Value = { List bottle.Value };

    ghost view = { λ v. v.values.items };
}

impl Variables {
    ghost use Rattle.std.specs.Prelude.{◌≡◌, [], IfOk, OnOk, OnErr, IfSome, IfNone, replicate, slice_set, false};
    ghost use Rattle.std.specs.List.{slice_index_or};
    ghost use Rattle.bottle_values.specs.declared.Value.TheVariants.{Number};
    ghost use Rattle.bottle_values.specs.Values.{is_number};
    ghost use Rattle.bottle_values.specs.Operations.{nought};

    /// So many variables, each 0.
    pub fn of(alloc: Global, count: usize) -> Result<Variables, AllocError>
        ensures { IfOk result (λ v. v ≡ replicate count nought) }
    {
        Ok(Variables {
            values: vec![in alloc; Value::from(0); count]?,
        })
    }

    /// So many variables, each 0, in the same memory as far as that reaches. Where memory runs out, none is left.
    pub fn restart(&mut self, count: usize) -> Result<(), AllocError>
        ensures begun { OnOk result (self.new ≡ replicate count nought) }
        ensures none_left { OnErr result (self.new ≡ []) }
    {
        self.values.clear();
        self.values.resize(count, Value::from(0))?;
        Ok(())
    }

    /// The value of a variable, and 0 of one that isn't there.
    pub fn value(&self, place: u8) -> Value
        ensures { result ≡ slice_index_or self.now place nought }
    {
        let place = place as usize;
        if place < self.values.len() {
            self.values[place]
        } else {
            Value::from(0)
        }
    }

    /// The number of a variable, if its value is one.
    pub fn number(&self, place: u8) -> Option<i64>
        ensures some { IfSome result (λ number. slice_index_or self.now place nought ≡ Number number) }
        ensures none { IfNone result (is_number (slice_index_or self.now place nought) ≡ false) }
    {
        let place = place as usize;
        if place < self.values.len() {
            self.values[place].number()
        } else {
            Some(0)
        }
    }

    /// Sets a variable, if it is there.
    pub fn set(&mut self, place: u8, value: Value)
        ensures { self.new ≡ slice_set self.old place value }
    {
        let place = place as usize;
        if place < self.values.len() {
            self.values[place] = value;
        }
    }
}
