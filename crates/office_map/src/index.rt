//! For each office its neighbours and its records.

ghost use Rattle.std.specs.Prelude.{◌≡◌, IfOk};
ghost use Rattle.office_map.specs.PlanValue.{neighbours_of, records_of};
ghost use Rattle.office_map.specs.refinement.OfficeIndex.{index_of};

use crate::ids::{OfficeId, RecordId};
use crate::plan_entries::PlanEntries;
use std::alloc::{AllocError, Global};
use std::marker::Model;

/// The neighbours and the records of one office, the least number first: seen as these two
/// lists.
#[derive(Drop)]
pub(crate) struct OfficeIndex {
    neighbours: Vec<OfficeId>,
    records: Vec<RecordId>,
}

impl Model for OfficeIndex {
    ghost use Rattle.std.specs.Prelude.{List, ℕ};

    ghost Value = { List ℕ × List ℕ };

    ghost view = { λ i. (i.neighbours.items, i.records.items) };
}

impl OfficeIndex {
    fn of(alloc: Global, tables: &PlanEntries, office: OfficeId) -> Result<OfficeIndex, AllocError>
        ensures { IfOk result (λ i. i ≡ (neighbours_of tables.now office, records_of tables.now office)) }
    {
        let neighbours = neighbours(alloc, tables, office)?;
        let records = records(alloc, tables, office)?;
        Ok(OfficeIndex {
            neighbours,
            records,
        })
    }

    pub fn neighbours(&self) -> &[OfficeId]
        ensures { result.now ≡ self.now.0 }
    {
        self.neighbours.as_slice()
    }

    pub fn records(&self) -> &[RecordId]
        ensures { result.now ≡ self.now.1 }
    {
        self.records.as_slice()
    }
}

/// The index of each office.
pub(crate) fn index(alloc: Global, tables: &PlanEntries) -> Result<Vec<OfficeIndex>, AllocError>
    ensures { IfOk result (λ v. v.items ≡ index_of tables.now) }
{
    let mut index = Vec::new(alloc);
    for number in 0..tables.offices().len() {
        index.push(OfficeIndex::of(alloc, tables, OfficeId::new(number as u8))?)?;
    }
    Ok(index)
}

fn neighbours(
    alloc: Global,
    tables: &PlanEntries,
    office: OfficeId,
) -> Result<Vec<OfficeId>, AllocError>
    ensures { IfOk result (λ v. v.items ≡ neighbours_of tables.now office) }
{
    let mut neighbours = Vec::new(alloc);
    for number in 0..tables.offices().len() {
        let other = OfficeId::new(number as u8);
        if tables.are_neighbours(office, other) {
            neighbours.push(other)?;
        }
    }
    Ok(neighbours)
}

fn records(
    alloc: Global,
    tables: &PlanEntries,
    office: OfficeId,
) -> Result<Vec<RecordId>, AllocError>
    ensures { IfOk result (λ v. v.items ≡ records_of tables.now office) }
{
    let mut records = Vec::new(alloc);
    for number in 0..tables.records().len() {
        let record = RecordId::new(number as u16);
        if tables.has_end(record, office) {
            records.push(record)?;
        }
    }
    Ok(records)
}
