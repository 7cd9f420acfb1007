//! The places of a bar, one for each record of the plan.

ghost use Rattle.std.specs.Prelude.{◌≡◌, ◌<◌, ◌≤◌, length, map, is_some, slice_get, IfOk};
ghost use Rattle.std.specs.List.{range_with_len};
ghost use Rattle.std.proofs.Math.ListN.{set};
ghost use Rattle.drinking_core.specs.Drinkers.{start_bottle, start_token};
ghost use Rattle.drinking_core.specs.refinement.Bars.{place_at, bottle_in, start_place, written_place, with_writes};
ghost use Rattle.drinking_core.specs.refinement.Masks.{Tells};
ghost use Rattle.office_map.specs.PlanValue.{peer};

use crate::shared_bottle::SharedBottle;
use bottle_values::Value;
use dining_core::masks::Mask128;
use office_map::{OfficeId, Plan, RecordId};
use std::alloc::{AllocError, Global};

/// What an office has of each record as the plan starts.
#[tactic(auto, using(bottle_values::specs::ListLaws::mapped_more))]
pub fn open(alloc: Global, plan: &Plan, id: OfficeId) -> Result<Vec<SharedBottle>, AllocError>
    ensures { IfOk result (λ ps. ps.items ≡ map (start_place plan.now id) (range_with_len 0 (length plan.now.records))) }
{
    let mut places = Vec::with_capacity(alloc, plan.records())?;
    for r in 0..plan.records() {
        let record = RecordId::new(r as u16);
        places.push(SharedBottle {
            bottle: start_bottle(plan, id, record),
            token: starts_with_token(plan, id, record),
            peer: plan.other_end(record, id),
        })?;
    }
    Ok(places)
}

fn start_bottle(plan: &Plan, id: OfficeId, r: RecordId) -> Option<Value>
    requires { r < length plan.now.records }
    ensures { result ≡ start_bottle id (slice_get plan.now.records r) }
{
    if id == plan.start_end(r) {
        Some(plan.start_value(r))
    } else {
        None
    }
}

#[tactic(auto, using(crate::proofs::OpeningRefines::token_starts))]
fn starts_with_token(plan: &Plan, id: OfficeId, r: RecordId) -> bool
    requires { r < length plan.now.records }
    ensures { result ≡ start_token id (slice_get plan.now.records r) }
{
    let (first, second) = plan.ends(r);
    let other = if plan.start_end(r) == first {
        second
    } else {
        first
    };
    id == other
}

/// What is here of that record.
pub fn at(places: &[SharedBottle], r: RecordId) -> SharedBottle
    ensures { result ≡ place_at places.now r }
{
    match places.get(r.index()) {
        Some(place) => *place,
        None => SharedBottle {
            bottle: None,
            token: false,
            peer: OfficeId::new(0),
        },
    }
}

/// The bits of the bottles of these records that are here.
pub fn held_in(places: &[SharedBottle], records: &[RecordId]) -> Mask128
    requires { length records.now ≤ 128 }
    ensures { Tells records.now result (λ r. is_some (bottle_in places.now r)) }
{
    let mut mask = Mask128::empty();
    for k in 0..records.len() {
        mask.put(k as u32, at(places, records[k]).bottle.is_some());
    }
    mask
}

/// These values go into the bottles that are here.
pub fn write_all(places: &mut Vec<SharedBottle>, writes: &[(RecordId, Value)])
    ensures { places.new.items ≡ with_writes writes.now places.old.items }
{
    for (r, value) in writes {
        write(places, *r, *value);
    }
}

fn write(places: &mut Vec<SharedBottle>, r: RecordId, value: Value)
    ensures { places.new.items ≡ set places.old.items r (written_place value (place_at places.old.items r)) }
{
    let place = at(places, r);
    if place.bottle.is_some() {
        places[r.index()] = SharedBottle {
            bottle: Some(value),
            ..place
        };
    }
}
