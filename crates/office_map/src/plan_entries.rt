//! The tables of a plan, while its lines are read and afterwards.

ghost use Rattle.std.specs.Prelude.{◌≡◌, ◌<◌, [], length, Some, IsTrue};
ghost use Rattle.std.specs.List.{list_any};
ghost use Rattle.std.specs.Str.{bytes_eq};
ghost use Rattle.office_map.specs.refinement.RecordCounts.{pair_index};
ghost use Rattle.office_map.specs.declared.entries.OfficeEntry.{OfficeEntry};

use crate::entries::{OfficeEntry, PairEntry, RecordEntry};
use crate::fault::{PlanFault, PlanRule, refused};
use crate::ids::{OfficeId, RecordId};
use crate::limits::{MOST_OFFICES, MOST_PAIR_RECORDS};
use crate::line::Declaration;
use crate::new_entries::{NewOffice, NewPair, NewRecord};
use crate::records::RecordTable;
use crate::word::Word;
use bottle_values::Version;
use std::alloc::Global;
use std::marker::Model;
use text_lines::ShortName;

/// How many places there are for any two offices.
///
/// One for two offices in either order, so that a record's line looks at one number whatever stands before it.
const PAIR_PLACES: usize = MOST_OFFICES * MOST_OFFICES;

/// Offices, pairs and records in the order of their lines.
#[derive(Drop)]
pub(crate) struct PlanEntries {
    version: Version,
    run: u32,
    offices: Vec<OfficeEntry>,
    pairs: Vec<PairEntry>,
    records: RecordTable,
    // Of any two offices, at the place of their numbers, how many records they share.
    counts: [u8; PAIR_PLACES],
    // And whether they are neighbours.
    joined: [bool; PAIR_PLACES],
}

impl Model for PlanEntries {
    ghost use Rattle.office_map.specs.PlanValue.{PlanValue};
    ghost use Rattle.office_map.specs.Consistency.{IsConsistent};
    ghost use Rattle.office_map.specs.refinement.RecordCounts.{CountsRecords, MarksPairs};

    ghost Value = { PlanValue };

    ghost view = { λ t. record { version = t.version; run = t.run; offices = t.offices.items; pairs = t.pairs.items; records = t.records } };

    ghost invariant = { λ t. IsConsistent (record { version = t.version; run = t.run; offices = t.offices.items; pairs = t.pairs.items; records = t.records }) × CountsRecords t.records t.counts × MarksPairs t.pairs.items t.joined };
}

impl PlanEntries {
    ghost use Rattle.std.specs.Prelude.{◌≤◌, ◌⊎◌, find};
    ghost use Rattle.std.specs.Option.{option_copied};
    ghost use Rattle.office_map.specs.PlanValue.{office_named, office_name_of, record_named, joins, are_neighbours, records_between, is_end, fork_end_of};
    ghost use Rattle.office_map.specs.PlanText.{empty_plan, declare, at_line, is_address_taken, AnOffice, APair, ARecord};
    ghost use Rattle.office_map.specs.refinement.PlanReader.{seen, Fails, HasAdmitted};
    ghost use Rattle.bottle_values.specs.Versions.{admits};
    ghost use Rattle.bottle_values.specs.Memory.{UnlessMemory};
    ghost use Rattle.office_map.specs.Consistency.{IsConsistent};

    /// Nothing is declared yet.
    pub fn new(alloc: Global, version: Version, run: u32) -> PlanEntries
        ensures { result ≡ empty_plan version run }
    {
        PlanEntries {
            version,
            run,
            offices: Vec::new(alloc),
            pairs: Vec::new(alloc),
            records: RecordTable::new(alloc),
            counts: [0; PAIR_PLACES],
            joined: [false; PAIR_PLACES],
        }
    }

    pub fn version(&self) -> Version
        ensures { result ≡ self.now.version }
    {
        self.version
    }

    pub fn run(&self) -> u32
        ensures { result ≡ self.now.run }
    {
        self.run
    }

    pub fn offices(&self) -> &[OfficeEntry]
        ensures all { result.now ≡ self.now.offices }
        ensures few { length result.now ≤ 16 }
        ensures consistent { IsConsistent self.now }
    {
        self.offices.as_slice()
    }

    pub fn office_name(&self, id: OfficeId) -> &str
        requires { id < length self.now.offices }
        ensures { office_name_of self.now id ≡ Some result.now }
    {
        self.offices[id.index()].name.as_str()
    }

    pub fn pairs(&self) -> &[PairEntry]
        ensures all { result.now ≡ self.now.pairs }
        ensures consistent { IsConsistent self.now }
    {
        self.pairs.as_slice()
    }

    pub fn records(&self) -> &[RecordEntry]
        ensures all { result.now ≡ self.now.records }
        ensures few { length result.now ≤ 2048 }
        ensures consistent { IsConsistent self.now }
    {
        self.records.as_slice()
    }

    /// The office with this name.
    pub fn office_named(&self, name: &ShortName) -> Option<OfficeId>
        ensures { result ≡ office_named self.now name.now }
    {
        let place = self.offices.iter().position(|office| office.name.is(name))?;
        Some(OfficeId::new(place as u8))
    }

    /// The record with this name.
    pub fn record_named(&self, name: &ShortName) -> Option<RecordId>
        ensures { result ≡ record_named self.now name.now }
    {
        self.records.named(name)
    }

    pub fn are_neighbours(&self, a: OfficeId, b: OfficeId) -> bool
        ensures { result ≡ are_neighbours self.now a b }
    {
        let offices = self.offices.len();
        if a.index() >= offices || b.index() >= offices {
            return false;
        }
        self.joined[pair_index(a, b)]
    }

    /// Whether this office is an end of this record; false where the plan has no such record.
    pub fn has_end(&self, id: RecordId, office: OfficeId) -> bool
        ensures { result ≡ is_end self.now id office }
    {
        match self.records.as_slice().get(id.index()) {
            Some(entry) => entry.has_end(office),
            None => false,
        }
    }

    /// The end of two neighbours at which their fork starts.
    pub fn fork_end(&self, a: OfficeId, b: OfficeId) -> OfficeId
        requires { IsTrue (are_neighbours self.now a b) }
        ensures end { fork_end_of self.now a b ≡ Some result }
        ensures either { (result ≡ a) ⊎ (result ≡ b) }
    {
        match self.pair_of(a, b) {
            Some(pair) => pair.fork_end(),
            None => unreachable!(),
        }
    }

    fn pair_of(&self, a: OfficeId, b: OfficeId) -> Option<&PairEntry>
        ensures { option_copied result ≡ find (joins a b) self.now.pairs }
    {
        self.pairs.iter().find(|pair| pair.joins(a, b))
    }

    /// Adds what a line declares.
    pub fn declare(
        &mut self,
        alloc: Global,
        number: u64,
        declaration: &Declaration<'_>,
    ) -> Result<(), PlanFault>
        requires { HasAdmitted self.old.version (seen declaration.now) }
        ensures { UnlessMemory (λ _. self.new) Fails result (at_line number (declare self.old (seen declaration.now))) }
    {
        match declaration {
            Declaration::Office(office) => self.add_office(alloc, number, office),
            Declaration::Pair(pair) => self.add_pair(number, pair),
            Declaration::Record(record) => self.add_record(number, record),
        }
    }

    fn add_office(
        &mut self,
        alloc: Global,
        number: u64,
        office: &NewOffice<'_>,
    ) -> Result<(), PlanFault>
        ensures { UnlessMemory (λ _. self.new) Fails result
            (at_line number (declare self.old (AnOffice office.now.name office.now.address.now))) }
    {
        if self.office_named(&office.name).is_some() || self.is_address_taken(office.address) {
            return Err(refused(PlanRule::NameTwice, number));
        }
        if self.offices.len() >= MOST_OFFICES {
            return Err(refused(PlanRule::Limit, number));
        }
        let address = Word::of(alloc, office.address)?;
        self.offices.push(OfficeEntry {
            name: office.name,
            address,
        })?;
        Ok(())
    }

    fn add_pair(&mut self, number: u64, pair: &NewPair) -> Result<(), PlanFault>
        ensures { UnlessMemory (λ _. self.new) Fails result
            (at_line number (declare self.old (APair pair.now.a pair.now.b pair.now.fork_at_first))) }
    {
        let Some(first) = self.office_named(&pair.a) else {
            return Err(refused(PlanRule::UnknownName, number));
        };
        let Some(second) = self.office_named(&pair.b) else {
            return Err(refused(PlanRule::UnknownName, number));
        };
        if first == second {
            return Err(refused(PlanRule::SelfPair, number));
        }
        if self.are_neighbours(first, second) {
            return Err(refused(PlanRule::PairTwice, number));
        }
        self.pairs.push(PairEntry {
            first,
            second,
            fork_at_first: pair.fork_at_first,
        })?;
        self.joined[pair_index(first, second)] = true;
        Ok(())
    }

    fn add_record(&mut self, number: u64, declared: &NewRecord) -> Result<(), PlanFault>
        requires { IsTrue (admits self.old.version declared.now.value) }
        ensures { UnlessMemory (λ _. self.new) Fails result
            (at_line number (declare self.old (ARecord declared.now.name declared.now.a declared.now.b declared.now.value declared.now.starts_at_first))) }
    {
        let Some(first) = self.office_named(&declared.a) else {
            return Err(refused(PlanRule::UnknownName, number));
        };
        let Some(second) = self.office_named(&declared.b) else {
            return Err(refused(PlanRule::UnknownName, number));
        };
        if !self.are_neighbours(first, second) {
            return Err(refused(PlanRule::UnknownName, number));
        }
        if self.record_named(&declared.name).is_some() {
            return Err(refused(PlanRule::NameTwice, number));
        }
        if self.records_between(first, second) >= MOST_PAIR_RECORDS {
            return Err(refused(PlanRule::Limit, number));
        }
        let entry = RecordEntry {
            name: declared.name,
            first,
            second,
            value: declared.value,
            starts_at_first: declared.starts_at_first,
        };
        self.records.push(entry)?;
        self.counts[pair_index(first, second)] += 1;
        Ok(())
    }

    fn is_address_taken(&self, address: &str) -> bool
        ensures { result ≡ is_address_taken self.now address.now }
    {
        address != "-" && self.has_address(address)
    }

    fn has_address(&self, address: &str) -> bool
        ensures { result ≡ list_any (λ (o : OfficeEntry). bytes_eq o.address address.now) self.now.offices }
    {
        self.offices
            .iter()
            .any(|office| office.address.as_str() == address)
    }

    /// How many records these two share.
    fn records_between(&self, a: OfficeId, b: OfficeId) -> usize
        requires { (a < 16) × (b < 16) }
        ensures { result ≡ records_between self.now a b }
    {
        self.counts[pair_index(a, b)] as usize
    }
}

/// Where what is kept of two offices stands.
fn pair_index(a: OfficeId, b: OfficeId) -> usize
    requires { (a < 16) × (b < 16) }
    ensures place { result ≡ pair_index a b }
    ensures within { result < 256 }
{
    if a < b {
        MOST_OFFICES * a.index() + b.index()
    } else {
        MOST_OFFICES * b.index() + a.index()
    }
}
