//! Where an office's own records stand among them, and the masks that have a bit for each.

ghost use Rattle.std.specs.Prelude.{◌≡◌, ◌<◌, ◌≤◌, ℕ, length, IfOk, All, AllPairs, ◌==◌};
ghost use Rattle.std.specs.List.{list_any};
ghost use Rattle.dining_core.specs.masks.Sets.{is_in128};
ghost use Rattle.drinking_core.specs.refinement.Masks.{spot_in, bit_in, AreSpots};

use dining_core::masks::Mask128;
use office_map::RecordId;
use std::alloc::{AllocError, Global};

/// Each record's place among these.
pub fn open(alloc: Global, count: usize, records: &[RecordId]) -> Result<Vec<u8>, AllocError>
    requires within { All (λ r. r < count) records.now }
    requires few { length records.now ≤ 128 }
    requires increase { AllPairs (λ r s. r < s) records.now }
    ensures { IfOk result (λ s. AreSpots records.now s.items) }
{
    let mut spots = vec![in alloc; 255u8; count]?;
    for k in 0..records.len() {
        spots[records[k].index()] = k as u8;
    }
    Ok(spots)
}

/// Where a record stands among the office's own; no place of a mask where it isn't one of them.
pub fn spot(spots: &[u8], r: RecordId) -> u32
    ensures { result ≡ spot_in spots.now r }
{
    match spots.get(r.index()) {
        Some(spot) => *spot as u32,
        None => 255,
    }
}

/// Whether the record's bit is set.
pub fn has(spots: &[u8], mask: Mask128, r: RecordId) -> bool
    ensures { result ≡ bit_in spots.now mask r }
{
    let k = spot(spots, r);
    k < 128 && mask.has(k)
}

/// The bits of these records.
pub fn mask_of(spots: &[u8], records: &[RecordId]) -> Mask128
    ensures { (k : ℕ) → k < 128 → is_in128 result k ≡ list_any (λ r. spot_in spots.now r == k) records.now }
{
    let mut mask = Mask128::empty();
    for r in records {
        mask.set(spot(spots, *r));
    }
    mask
}
