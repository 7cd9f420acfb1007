//! What a plan says of one office, one pair and one record.

ghost use Rattle.std.specs.Prelude.{◌≡◌};

use crate::ids::OfficeId;
use crate::word::Word;
use bottle_values::Value;
use text_lines::ShortName;

/// An office's name, and its address or `-`.
#[derive(Drop)]
pub struct OfficeEntry {
    pub name: ShortName,
    pub address: Word,
}

/// Two neighbours in the order of their line, and which of them has the fork at the start.
#[derive(Clone, Copy)]
pub struct PairEntry {
    pub first: OfficeId,
    pub second: OfficeId,
    pub fork_at_first: bool,
}

impl PairEntry {
    ghost use Rattle.office_map.specs.PlanValue.{joins, fork_end};
    ghost use Rattle.office_map.specs.Precedence.{preceding_end};

    /// Whether these two are its neighbours, in either order.
    pub fn joins(&self, a: OfficeId, b: OfficeId) -> bool
        ensures { result ≡ joins a b self.now }
    {
        (self.first == a && self.second == b) || (self.first == b && self.second == a)
    }

    /// The end at which the fork starts.
    pub fn fork_end(&self) -> OfficeId
        ensures { result ≡ fork_end self.now }
    {
        if self.fork_at_first {
            self.first
        } else {
            self.second
        }
    }

    /// The end at which the fork doesn't start: at the start it precedes the other.
    pub fn preceding_end(&self) -> OfficeId
        ensures { result ≡ preceding_end self.now }
    {
        if !self.fork_at_first {
            self.first
        } else {
            self.second
        }
    }
}

/// A record's name, its ends in the order of its line, and where and with which value its
/// bottle starts.
#[derive(Drop)]
pub struct RecordEntry {
    pub name: ShortName,
    pub first: OfficeId,
    pub second: OfficeId,
    pub value: Value,
    pub starts_at_first: bool,
}

impl RecordEntry {
    ghost use Rattle.office_map.specs.PlanValue.{lies_between, has_end, other_end, start_end};

    /// Whether these two are its ends, in either order.
    pub fn lies_between(&self, a: OfficeId, b: OfficeId) -> bool
        ensures { result ≡ lies_between a b self.now }
    {
        (self.first == a && self.second == b) || (self.first == b && self.second == a)
    }

    /// Whether this office is one of its ends.
    pub fn has_end(&self, office: OfficeId) -> bool
        ensures { result ≡ has_end self.now office }
    {
        self.first == office || self.second == office
    }

    /// The end other than this office; of an office that is no end, the first.
    pub fn other_end(&self, office: OfficeId) -> OfficeId
        ensures { result ≡ other_end office self.now }
    {
        if self.first == office {
            self.second
        } else {
            self.first
        }
    }

    /// Where the record's bottle starts.
    pub fn start_end(&self) -> OfficeId
        ensures { result ≡ start_end self.now }
    {
        if self.starts_at_first {
            self.first
        } else {
            self.second
        }
    }
}
