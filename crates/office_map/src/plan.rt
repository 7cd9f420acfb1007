//! Plans.

ghost use Rattle.std.specs.Prelude.{◌≡◌, ◌≢◌, ◌<◌, ◌≤◌, ◌^◌, ◌*◌, ◌⊎◌, length, slice_get, Some, IfOk, IfErr, IsTrue, All, AllPairs};

use crate::entries::{OfficeEntry, PairEntry, RecordEntry};
use crate::fault::PlanFault;
use crate::ids::{OfficeId, RecordId};
use crate::index::{OfficeIndex, index};
use crate::plan_entries::PlanEntries;
use crate::precedence::order;
use crate::read::read_entries;
use bottle_values::{Value, Version};
use std::alloc::{AllocError, Global};
use std::marker::Model;
use std::sync::Arc;
use text_lines::ShortName;

/// An accepted plan, seen as its tables. Offices and records are numbered from 0 in the
/// order of their lines.
///
/// Each office keeps a plan, and nothing ever changes one. So copies share what the plan says: a
/// plan is one word, and its copy counts one owner more; the count is one that threads may share.
#[derive(Drop)]
pub struct Plan {
    said: Arc<Said>,
}

/// What a plan says: its tables, and what is found from them once, when it is read.
#[derive(Drop)]
struct Said {
    tables: PlanEntries,
    index: Vec<OfficeIndex>,
    order: Vec<OfficeId>,
}

impl Model for Plan {
    ghost use Rattle.std.specs.Prelude.{◌≡◌};
    ghost use Rattle.std.specs.Arc.{arc_value};
    ghost use Rattle.office_map.specs.PlanValue.{PlanValue};
    ghost use Rattle.office_map.specs.refinement.OfficeIndex.{index_of};
    ghost use Rattle.office_map.specs.Precedence.{IsLeastFirst};
    ghost use Rattle.office_map.specs.Consistency.{IsComplete};

    ghost Value = { PlanValue };

    ghost view = { λ p. (arc_value p.said).tables };

    ghost invariant = { λ p. ((arc_value p.said).index.items ≡ index_of (arc_value p.said).tables) × IsLeastFirst (arc_value p.said).tables (arc_value p.said).order.items × IsComplete (arc_value p.said).tables };
}

impl Plan {
    ghost use Rattle.office_map.specs.PlanValue.{office_named, record_named, office_name_of, address_of, record_name_of, are_neighbours, neighbours_of, fork_end_of, is_end, records_of, ends_of, peer, start_end_of, start_values};
    ghost use Rattle.office_map.specs.Limits.{most_offices, most_pair_records};
    ghost use Rattle.office_map.specs.PlanText.{plan_of, Answers, IfRefused, IsLineOf};
    ghost use Rattle.office_map.specs.Precedence.{IsLeastFirst};
    ghost use Rattle.office_map.specs.Consistency.{IsConsistent, IsAccepted};
    ghost use Rattle.office_map.specs.refinement.PlanReader.{HasEnds};

    /// The plan that a text means, the first rule that a line of it breaks, or a ring of
    /// offices where no line breaks a rule. `Memory` may stand in place of any other answer,
    /// and comes only where a growth was refused.
    pub fn read(alloc: Global, text: &[u8]) -> Result<Plan, PlanFault>
        ensures meaning { Answers result (plan_of text.now) }
        ensures accepted { IfOk result IsAccepted }
        ensures line { IfErr result (IfRefused (λ f. IsLineOf text.now f.line)) }
    {
        let tables = read_entries(alloc, text)?;
        let order = order(alloc, &tables)?;
        let index = index(alloc, &tables)?;
        let said = Said {
            tables,
            index,
            order,
        };
        let said = Arc::new(alloc, said)?;
        Ok(Plan { said })
    }

    /// A plan equal to this one.
    ///
    /// It shares what this one says, so that it takes no memory. It is refused only where a plan
    /// has as many owners as can be counted.
    pub fn copy(&self, _alloc: Global) -> Result<Plan, AllocError>
        ensures { IfOk result (λ p. p ≡ self.now) }
    {
        Ok(Plan {
            said: Arc::try_clone(&self.said)?,
        })
    }

    /// All offices, each once: one that precedes another at the start comes earlier, and where
    /// several may come, the least number first.
    pub fn order(&self, alloc: Global) -> Result<Vec<OfficeId>, AllocError>
        ensures { IfOk result (λ v. IsLeastFirst self.now v.items) }
    {
        Vec::from_slice(alloc, self.said.order.as_slice())
    }

    /// The version, whose number stands in every frame of the run.
    pub fn version(&self) -> Version
        ensures { result ≡ self.now.version }
    {
        self.said.tables.version()
    }

    /// The run's number, which stands in every frame.
    pub fn run(&self) -> u32
        ensures { result ≡ self.now.run }
    {
        self.said.tables.run()
    }

    /// How many offices there are.
    pub fn offices(&self) -> usize
        ensures count { result ≡ length self.now.offices }
        ensures few { result ≤ 16 }
        ensures consistent { IsConsistent self.now }
        ensures accepted { IsAccepted self.now }
    {
        self.said.tables.offices().len()
    }

    /// The pairs, in the order of their lines.
    pub fn pairs(&self) -> &[PairEntry]
        ensures all { result.now ≡ self.now.pairs }
        ensures offices { All (λ pair. (pair.first < length self.now.offices) × (pair.second < length self.now.offices)) result.now }
    {
        self.said.tables.pairs()
    }

    /// How many records there are.
    pub fn records(&self) -> usize
        ensures count { result ≡ length self.now.records }
        ensures numbered { result < 2 ^ 16 }
    {
        self.said.tables.records().len()
    }

    /// The neighbours of an office, the least number first.
    pub fn neighbours(&self, id: OfficeId) -> &[OfficeId]
        requires { id < length self.now.offices }
        ensures all { result.now ≡ neighbours_of self.now id }
        ensures each { All (λ other. IsTrue (are_neighbours self.now id other)) result.now }
        ensures offices { All (λ other. other < length self.now.offices) result.now }
        ensures consistent { IsConsistent self.now }
    {
        self.office_index(id).neighbours()
    }

    /// The records of an office, the least number first.
    pub fn records_of(&self, id: OfficeId) -> &[RecordId]
        requires { id < length self.now.offices }
        ensures all { result.now ≡ records_of self.now id }
        ensures each { All (λ r. IsTrue (is_end self.now r id)) result.now }
        ensures records { All (λ r. r < length self.now.records) result.now }
        ensures few { length result.now ≤ most_offices * most_pair_records }
        ensures increase { AllPairs (λ r s. r < s) result.now }
    {
        self.office_index(id).records()
    }

    /// Whether these two are neighbours.
    pub fn are_neighbours(&self, a: OfficeId, b: OfficeId) -> bool
        ensures { result ≡ are_neighbours self.now a b }
    {
        self.said.tables.are_neighbours(a, b)
    }

    /// The end of two neighbours at which their fork starts.
    pub fn fork_end(&self, a: OfficeId, b: OfficeId) -> OfficeId
        requires { IsTrue (are_neighbours self.now a b) }
        ensures end { fork_end_of self.now a b ≡ Some result }
        ensures either { (result ≡ a) ⊎ (result ≡ b) }
    {
        self.said.tables.fork_end(a, b)
    }

    /// Whether this office is an end of this record; false where the plan has no such record.
    pub fn has_end(&self, id: RecordId, office: OfficeId) -> bool
        ensures { result ≡ is_end self.now id office }
    {
        self.said.tables.has_end(id, office)
    }

    /// The ends of a record, in the order of its line.
    pub fn ends(&self, r: RecordId) -> (OfficeId, OfficeId)
        requires { r < length self.now.records }
        ensures ends { ends_of self.now r ≡ Some result }
        ensures joined { IsTrue (are_neighbours self.now result.0 result.1) }
        ensures offices { (result.0 < length self.now.offices) × (result.1 < length self.now.offices) }
        ensures different { result.0 ≢ result.1 }
    {
        let entry = self.record(r);
        (entry.first, entry.second)
    }

    /// The end of a record other than this office. Of one of its ends that is the neighbour with
    /// which it shares the record.
    pub fn other_end(&self, r: RecordId, office: OfficeId) -> OfficeId
        requires { r < length self.now.records }
        ensures peer { result ≡ peer self.now office r }
        ensures office { result < length self.now.offices }
        ensures near { IsTrue (is_end self.now r office) → IsTrue (are_neighbours self.now office result) }
        ensures back { IsTrue (is_end self.now r office) → peer self.now result r ≡ office }
    {
        // The plan is consistent, so its records join neighbours.
        let _ = self.offices();
        self.record(r).other_end(office)
    }

    /// The end at which a record's bottle starts.
    pub fn start_end(&self, r: RecordId) -> OfficeId
        requires { r < length self.now.records }
        ensures start { start_end_of self.now r ≡ Some result }
        ensures end { IsTrue (is_end self.now r result) }
        ensures office { result < length self.now.offices }
    {
        self.record(r).start_end()
    }

    /// The value with which a record's bottle starts.
    pub fn start_value(&self, r: RecordId) -> Value
        requires { r < length self.now.records }
        ensures { slice_get (start_values self.now) r ≡ Some result }
    {
        self.record(r).value
    }

    /// An office's name.
    pub fn office_name(&self, id: OfficeId) -> &str
        requires { id < length self.now.offices }
        ensures { office_name_of self.now id ≡ Some result.now }
    {
        self.office(id).name.as_str()
    }

    /// An office's address, as `127.0.0.1:47001`, or `-` for none.
    pub fn address(&self, id: OfficeId) -> &str
        requires { id < length self.now.offices }
        ensures { address_of self.now id ≡ Some result.now }
    {
        self.office(id).address.as_str()
    }

    /// A record's name.
    pub fn record_name(&self, r: RecordId) -> &str
        requires { r < length self.now.records }
        ensures { record_name_of self.now r ≡ Some result.now }
    {
        self.record(r).name.as_str()
    }

    /// The office with this name.
    pub fn office_named(&self, name: &str) -> Option<OfficeId>
        ensures { result ≡ office_named self.now name.now }
    {
        let tables = &self.said.tables;
        let Some(short) = ShortName::of(name.as_bytes()) else {
            return None;
        };
        tables.office_named(&short)
    }

    /// The record with this name.
    pub fn record_named(&self, name: &str) -> Option<RecordId>
        ensures { result ≡ record_named self.now name.now }
    {
        let tables = &self.said.tables;
        let Some(short) = ShortName::of(name.as_bytes()) else {
            return None;
        };
        tables.record_named(&short)
    }

    /// The office with this name, where it is kept as a short one.
    pub fn office_of_name(&self, name: &ShortName) -> Option<OfficeId>
        ensures { result ≡ office_named self.now name.now }
    {
        self.said.tables.office_named(name)
    }

    /// The record with this name, where it is kept as a short one.
    pub fn record_of_name(&self, name: &ShortName) -> Option<RecordId>
        ensures { result ≡ record_named self.now name.now }
    {
        self.said.tables.record_named(name)
    }

    fn office_index(&self, id: OfficeId) -> &OfficeIndex
        requires { id < length self.now.offices }
        ensures lists { result.now ≡ (neighbours_of self.now id, records_of self.now id) }
        ensures consistent { IsConsistent self.now }
    {
        &self.said.index[id.index()]
    }

    fn office(&self, id: OfficeId) -> &OfficeEntry
        requires { id < length self.now.offices }
        ensures { slice_get self.now.offices id ≡ Some result.now }
    {
        &self.said.tables.offices()[id.index()]
    }

    fn record(&self, r: RecordId) -> &RecordEntry
        requires { r < length self.now.records }
        ensures entry { slice_get self.now.records r ≡ Some result.now }
        ensures ends { HasEnds self.now result.now.first result.now.second }
    {
        &self.said.tables.records()[r.index()]
    }
}
