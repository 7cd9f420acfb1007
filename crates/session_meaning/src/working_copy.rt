//! A session's working copy of records.

use crate::ending::RecordValues;
use crate::slots::{
    Slot, are_sorted, place_in, set_slot, slots_in, slots_of, value_of, with_room, writes_in,
};
use bottle_values::Value;
use office_map::RecordId;
use std::alloc::{AllocError, Global};
use std::marker::Model;
use std::mem;

/// A session's working copy of the records that it needs, with the memory that its writes need. Contracts see the list
/// of its slots. Where the records are in order of number, one is found by halving.
///
/// Where they aren't in order it is looked for one after another. So nothing is asked of the list of reads: what is
/// said of a session holds for every list, in whatever order. The walk and the machine keep the same copy and the same
/// variables, and share operators and comparisons; how each works an expression out is its own.
#[derive(Drop)]
pub struct WorkingCopy {
    slots: Vec<Slot>,
    is_sorted: bool,
    writes: Vec<(RecordId, Value)>,
}

impl Model for WorkingCopy {
    ghost use Rattle.std.specs.Prelude.{◌≡◌, ◌≤◌, List, [], IsTrue, length, map};
    ghost use Rattle.std.specs.List.Sorted.{IsStrictlyIncreasing};
    ghost use Rattle.std.specs.Vec.{vec_capacity};
    ghost use Rattle.session_meaning.specs.Meaning as meaning;
    ghost use Rattle.session_meaning.specs.refinement.CopiedSlots.{slot_of};

    ghost Value = { List meaning.Slot };

    ghost view = { λ w. map slot_of w.slots.items };

    ghost invariant = { λ w. (IsTrue w.is_sorted → IsStrictlyIncreasing (map (λ s. s.id) w.slots.items)) × (w.writes.items ≡ []) × (length w.slots.items ≤ vec_capacity w.writes) };
}

impl WorkingCopy {
    ghost use Rattle.std.specs.Prelude.{◌≡◌, ◌==◌, ℕ, [], Some, false, IfOk, OnOk, OnErr, IfSome, IfNone, map, position};
    ghost use Rattle.bottle_values.specs.declared.Value.TheVariants.{Number};
    ghost use Rattle.bottle_values.specs.Values.{is_number};
    ghost use Rattle.session_meaning.specs.Meaning.{slot_of, value_in, set_in, writes_of};

    /// The copy as the session begins.
    pub fn of(alloc: Global, reads: &RecordValues) -> Result<WorkingCopy, AllocError>
        ensures { IfOk result (λ w. w ≡ map slot_of reads.now) }
    {
        let slots = slots_of(alloc, reads.as_slice())?;
        let writes = Vec::with_capacity(alloc, slots.len())?;
        let is_sorted = are_sorted(&slots);
        Ok(WorkingCopy {
            slots,
            is_sorted,
            writes,
        })
    }

    /// The copy as another session begins, in the same memory as far as that reaches. Where memory runs out, no record is left.
    pub fn restart(&mut self, alloc: Global, reads: &RecordValues) -> Result<(), AllocError>
        ensures begun { OnOk result (self.new ≡ map slot_of reads.now) }
        ensures none_left { OnErr result (self.new ≡ []) }
    {
        let before = mem::replace(self, WorkingCopy::empty(alloc));
        *self = before.again(reads)?;
        Ok(())
    }

    /// A copy of no record. It takes no memory.
    fn empty(alloc: Global) -> WorkingCopy
        ensures { result ≡ [] }
    {
        WorkingCopy {
            slots: Vec::new(alloc),
            is_sorted: false,
            writes: Vec::new(alloc),
        }
    }

    fn again(self, reads: &RecordValues) -> Result<WorkingCopy, AllocError>
        ensures { IfOk result (λ w. w ≡ map slot_of reads.now) }
    {
        let WorkingCopy {
            slots,
            is_sorted: _,
            writes,
        } = self;
        let slots = slots_in(slots, reads.as_slice())?;
        let writes = with_room(writes, slots.len())?;
        let is_sorted = are_sorted(&slots);
        Ok(WorkingCopy {
            slots,
            is_sorted,
            writes,
        })
    }

    /// The value of a record, and 0 of one that isn't there.
    pub fn value(&self, id: RecordId) -> Value
        ensures { result ≡ value_in self.now id }
    {
        value_of(&self.slots, self.is_sorted, id)
    }

    /// The number of a record, if its value is one.
    pub fn number(&self, id: RecordId) -> Option<i64>
        ensures some { IfSome result (λ number. value_in self.now id ≡ Number number) }
        ensures none { IfNone result (is_number (value_in self.now id) ≡ false) }
    {
        match self.place(id) {
            Some(place) => self.number_at(place),
            None => Some(0),
        }
    }

    /// Where a record's first slot is, if it has one. It stays there when records are set.
    pub fn place(&self, id: RecordId) -> Option<usize>
        ensures { result ≡ position (λ s. s.r == id) self.now }
    {
        place_in(&self.slots, self.is_sorted, id)
    }

    /// The value of the record whose place this is.
    pub fn value_at(&self, place: usize) -> Value
        requires { (id : ℕ) × (position (λ s. s.r == id) self.now ≡ Some place) }
        ensures { (id : ℕ) → position (λ s. s.r == id) self.now ≡ Some place → result ≡ value_in self.now id }
    {
        self.slots[place].value
    }

    /// The number of the record whose place this is, if its value is one.
    pub fn number_at(&self, place: usize) -> Option<i64>
        requires { (id : ℕ) × (position (λ s. s.r == id) self.now ≡ Some place) }
        ensures some { (id : ℕ) → position (λ s. s.r == id) self.now ≡ Some place → IfSome result (λ number. value_in self.now id ≡ Number number) }
        ensures none { (id : ℕ) → position (λ s. s.r == id) self.now ≡ Some place → IfNone result (is_number (value_in self.now id) ≡ false) }
    {
        let slot = &self.slots[place];
        slot.value.number()
    }

    /// Sets a record, if it is there.
    pub fn set(&mut self, id: RecordId, value: Value)
        ensures set { self.new ≡ set_in id value self.old }
        ensures places { (r : ℕ) → position (λ s. s.r == r) self.new ≡ position (λ s. s.r == r) self.old }
    {
        set_slot(&mut self.slots, id, value);
    }

    /// The records that were set, with their last values, in the memory that was kept for them: it takes none. The copy has no
    /// record then, and its other memory.
    pub fn take_writes(&mut self, alloc: Global) -> RecordValues
        ensures writes { result ≡ writes_of self.old }
        ensures none_left { self.new ≡ [] }
    {
        let before = mem::replace(self, WorkingCopy::empty(alloc));
        let (writes, left) = before.parted(alloc);
        *self = left;
        writes
    }

    /// The records that were set, with their last values, and the memory that is left.
    fn parted(self, alloc: Global) -> (RecordValues, WorkingCopy)
        ensures writes { result.0 ≡ writes_of self }
        ensures none_left { result.1 ≡ [] }
    {
        let WorkingCopy {
            mut slots,
            is_sorted: _,
            writes,
        } = self;
        let writes = writes_in(&slots, writes);
        slots.clear();
        let left = WorkingCopy {
            slots,
            is_sorted: false,
            writes: Vec::new(alloc),
        };
        (RecordValues::of(writes), left)
    }

    /// The records that were set, with their last values, in the copy's own memory: it takes none.
    pub fn into_writes(self) -> RecordValues
        ensures { result ≡ writes_of self }
    {
        let WorkingCopy {
            slots,
            is_sorted: _,
            writes,
        } = self;
        RecordValues::of(writes_in(&slots, writes))
    }
}
