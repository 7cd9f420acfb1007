//! How sessions end.

ghost use Rattle.std.specs.Prelude.{◌≡◌, [], ◌∷◌, ◌++◌, OnOk, OnErr, IfOk};

use crate::gives::Gives;
use bottle_values::{Value, ValueFault};
use office_map::{OfficeId, RecordId};
use std::alloc::{AllocError, Global};
use std::marker::Model;

/// How a session ended.
#[derive(Clone, Copy, Debug, PartialEq, Eq)]
pub enum End {
    Done,
    /// A `require` was false, with this code.
    Refused(u16),
    /// A result was no i64, or a joined text too long.
    Overflow,
    /// A text stood where only a number can.
    Mismatch,
}

impl End {
    ghost use Rattle.session_meaning.specs.Meaning.{ended_by};

    /// How a session ends where an operation or a comparison has this fault.
    pub fn by(fault: ValueFault) -> End
        ensures { result ≡ ended_by fault }
    {
        match fault {
            ValueFault::Overflow => End::Overflow,
            ValueFault::Mismatch => End::Mismatch,
        }
    }
}

/// Values of records, in order of number. Contracts see the list.
#[derive(Drop)]
pub struct RecordValues {
    records: Vec<(RecordId, Value)>,
}

impl Model for RecordValues {
    ghost use Rattle.std.specs.Prelude.{ℕ, List};
    ghost use Rattle.bottle_values.specs.declared.Value as bottle;

    ghost Value = { List (ℕ × bottle.Value) };

    ghost view = { λ v. v.records.items };
}

impl RecordValues {
    /// No record yet.
    pub fn new(alloc: Global) -> RecordValues
        ensures { result ≡ [] }
    {
        RecordValues {
            records: Vec::new(alloc),
        }
    }

    /// No record yet, with room for so many.
    pub fn with_capacity(alloc: Global, many: usize) -> Result<RecordValues, AllocError>
        ensures { IfOk result (λ v. v ≡ []) }
    {
        Ok(RecordValues {
            records: Vec::with_capacity(alloc, many)?,
        })
    }

    /// These records with their values, in the same memory.
    pub(crate) fn of(records: Vec<(RecordId, Value)>) -> RecordValues
        ensures { result ≡ records.items }
    {
        RecordValues { records }
    }

    /// Adds a record with its value at the end. Where memory runs out the list is as it was.
    pub fn push(&mut self, id: RecordId, value: Value) -> Result<(), AllocError>
        ensures pushed { OnOk result (self.new ≡ self.old ++ (id, value) ∷ []) }
        ensures unchanged { OnErr result (self.new ≡ self.old) }
    {
        self.records.push((id, value))?;
        Ok(())
    }

    /// The records with their values, in order.
    pub fn as_slice(&self) -> &[(RecordId, Value)]
        ensures { result.now ≡ self.now }
    {
        self.records.as_slice()
    }

    /// The same list, in memory of its own.
    pub fn copy(&self, alloc: Global) -> Result<RecordValues, AllocError>
        ensures { IfOk result (λ v. v ≡ self.now) }
    {
        Ok(RecordValues {
            records: Vec::from_slice(alloc, &self.records)?,
        })
    }
}

/// How a session ended, what it read, what it wrote, and what it gave.
#[derive(Drop)]
pub struct Ending {
    pub end: End,
    pub reads: RecordValues,
    pub writes: RecordValues,
    pub gives: Gives,
}

impl Ending {
    /// The same ending, in memory of its own.
    pub fn copy(&self, alloc: Global) -> Result<Ending, AllocError>
        ensures { IfOk result (λ e. e ≡ self.now) }
    {
        Ok(Ending {
            end: self.end,
            reads: self.reads.copy(alloc)?,
            writes: self.writes.copy(alloc)?,
            gives: self.gives.copy(alloc)?,
        })
    }
}

/// A finished session: its office, its ticket there, and how it ended.
#[derive(Drop)]
pub struct Outcome {
    pub office: OfficeId,
    pub ticket: u32,
    pub ending: Ending,
}

impl Outcome {
    /// The same outcome, in memory of its own.
    pub fn copy(&self, alloc: Global) -> Result<Outcome, AllocError>
        ensures { IfOk result (λ o. o ≡ self.now) }
    {
        Ok(Outcome {
            office: self.office,
            ticket: self.ticket,
            ending: self.ending.copy(alloc)?,
        })
    }
}
