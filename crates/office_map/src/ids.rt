//! The numbers of offices and records.

ghost use Rattle.std.specs.Prelude.{◌≡◌};

use std::marker::Model;

/// The number of an office: from 0, in the order of the plan's lines.
#[derive(Clone, Copy, Debug, PartialEq, Eq, PartialOrd, Ord, Hash)]
pub struct OfficeId {
    number: u8,
}

impl Model for OfficeId {
    ghost use Rattle.std.specs.Prelude.{ℕ};

    ghost Value = { ℕ };

    ghost view = { λ o. o.number };

    ghost inverse = { λ n. record { number = n } };
}

impl OfficeId {
    pub fn new(number: u8) -> OfficeId
        ensures { result ≡ number }
    {
        OfficeId { number }
    }

    pub fn number(self) -> u8
        ensures { result ≡ self }
    {
        self.number
    }

    /// The place in a list that has one element for each office.
    pub fn index(self) -> usize
        ensures { result ≡ self }
    {
        self.number as usize
    }
}

/// The number of a record: from 0, in the order of the plan's lines.
#[derive(Clone, Copy, Debug, PartialEq, Eq, PartialOrd, Ord, Hash)]
pub struct RecordId {
    number: u16,
}

impl Model for RecordId {
    ghost use Rattle.std.specs.Prelude.{ℕ};

    ghost Value = { ℕ };

    ghost view = { λ r. r.number };

    ghost inverse = { λ n. record { number = n } };
}

impl RecordId {
    pub fn new(number: u16) -> RecordId
        ensures { result ≡ number }
    {
        RecordId { number }
    }

    pub fn number(self) -> u16
        ensures { result ≡ self }
    {
        self.number
    }

    /// The place in a list that has one element for each record.
    pub fn index(self) -> usize
        ensures { result ≡ self }
    {
        self.number as usize
    }
}
