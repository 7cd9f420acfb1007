//! The places of a table, one for each office of the plan.

ghost use Rattle.std.specs.Prelude.{◌≡◌, ◌<◌, length, map, All, IfOk};
ghost use Rattle.std.specs.List.{list_all, range_with_len};
ghost use Rattle.std.proofs.Math.ListN.{set};
ghost use Rattle.dining_core.specs.refinement.Tables.{place_at, holds, used_shared, start_place};

use crate::shared_fork::{Fork, SharedFork};
use office_map::{OfficeId, Plan};
use std::alloc::{AllocError, Global};

/// What an office has of each pair as the plan starts.
#[tactic(auto, using(bottle_values::specs::ListLaws::mapped_more))]
pub fn open(alloc: Global, plan: &Plan, id: OfficeId) -> Result<Vec<SharedFork>, AllocError>
    ensures { IfOk result (λ ps. ps.items ≡ map (start_place plan.now id) (range_with_len 0 (length plan.now.offices))) }
{
    let mut places = Vec::with_capacity(alloc, plan.offices())?;
    for v in 0..plan.offices() {
        places.push(start(plan, id, OfficeId::new(v as u8)))?;
    }
    Ok(places)
}

fn start(plan: &Plan, id: OfficeId, other: OfficeId) -> SharedFork
    ensures { result ≡ start_place plan.now id other }
{
    let near = plan.are_neighbours(id, other);
    let here = near && plan.fork_end(id, other) == id;
    SharedFork {
        fork: if here { Fork::Dirty } else { Fork::Away },
        token: near && !here,
    }
}

/// What is here of the pair with that office.
pub fn at(places: &[SharedFork], v: OfficeId) -> SharedFork
    ensures { result ≡ place_at places.now v }
{
    match places.get(v.index()) {
        Some(place) => *place,
        None => SharedFork {
            fork: Fork::Away,
            token: false,
        },
    }
}

/// Whether the fork of each of these is here.
pub fn hold_all(places: &[SharedFork], neighbours: &[OfficeId]) -> bool
    requires { All (λ v. v < length places.now) neighbours.now }
    ensures { result ≡ list_all (holds places.now) neighbours.now }
{
    for v in neighbours {
        let place = &places[v.index()];
        if !place.fork.is_held() {
            return false;
        }
    }
    true
}

/// Every fork that is here was used.
pub fn use_all(places: &mut Vec<SharedFork>)
    ensures { places.new.items ≡ map used_shared places.old.items }
{
    for place in places.iter_mut() {
        place.fork = place.fork.used();
    }
}
