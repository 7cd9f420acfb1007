//! A ring of offices, where none of those left may come next.

ghost use Rattle.std.specs.Prelude.{◌≡◌, ◌<◌, ◌≤◌, ◌++◌, All, IfOk, Some, ℕ, drop, false, get_or, length, map, take, true};
ghost use Rattle.std.specs.String.{string_bytes};
ghost use Rattle.office_map.specs.PlanValue.{office_name_of};
ghost use Rattle.office_map.specs.Precedence.{starts_before, MayCome, IsCircle, IsNamedRing, first_or};
ghost use Rattle.bottle_values.specs.Lists.{is_among};

use crate::ids::OfficeId;
use crate::plan_entries::PlanEntries;
use crate::precedence::{awaited, is_among};
use crate::ring::Ring;
use std::alloc::{AllocError, Global};

/// A ring of offices that aren't placed.
///
/// Goes from the first office that can't be placed to one that precedes it, and on, until it comes back. Which of
/// several rings that is isn't said. The ring's offices and their names are lists, so memory may run out before one is
/// told.
pub(crate) fn ring_from(
    alloc: Global,
    tables: &PlanEntries,
    placed: &[OfficeId],
    start: OfficeId,
) -> Result<Ring, AllocError>
    requires stuck { (v : ℕ) → MayCome tables.now placed.now v → ⊥ }
    requires office { start < length tables.now.offices }
    requires unplaced { is_among placed.now start ≡ false }
    ensures { IfOk result (λ r. IsNamedRing tables.now r) }
{
    let circle = circle(alloc, tables, placed, start)?;
    let offices = turned(alloc, &circle, place_of_least(&circle))?;
    let names = names(alloc, tables, &offices)?;
    Ok(Ring { offices, names })
}

/// The offices that come round, when one goes from an office to one that precedes it, and on.
fn circle(
    alloc: Global,
    tables: &PlanEntries,
    placed: &[OfficeId],
    start: OfficeId,
) -> Result<Vec<OfficeId>, AllocError>
    requires stuck { (v : ℕ) → MayCome tables.now placed.now v → ⊥ }
    requires office { start < length tables.now.offices }
    requires unplaced { is_among placed.now start ≡ false }
    ensures { IfOk result (λ v. IsCircle tables.now v.items) }
{
    let mut path = Vec::new(alloc);
    let mut office = start;
    while !is_among(&path, office) {
        path.insert(0, office)?;
        office = predecessor(tables, placed, office);
    }
    let place = place_of(&path, office);
    path.truncate(place + 1);
    Ok(path)
}

/// An office that isn't placed and precedes this one.
fn predecessor(tables: &PlanEntries, placed: &[OfficeId], office: OfficeId) -> OfficeId
    requires stuck { MayCome tables.now placed.now office → ⊥ }
    requires office { office < length tables.now.offices }
    requires unplaced { is_among placed.now office ≡ false }
    ensures before { starts_before tables.now result office ≡ true }
    ensures office { result < length tables.now.offices }
    ensures unplaced { is_among placed.now result ≡ false }
{
    match awaited(tables, placed, office) {
        Some(other) => other,
        None => unreachable!(),
    }
}

/// Where an office stands in a list.
fn place_of(path: &[OfficeId], office: OfficeId) -> usize
    requires { is_among path.now office ≡ true }
    ensures within { result < length path.now }
    ensures there { get_or path.now result office ≡ office }
{
    for place in 0..path.len() {
        if path[place] == office {
            return place;
        }
    }
    unreachable!()
}

/// Where the least number stands.
fn place_of_least(circle: &[OfficeId]) -> usize
    requires { 0 < length circle.now }
    ensures within { result < length circle.now }
    ensures least { All (λ x. get_or circle.now result 0 ≤ x) circle.now }
{
    let mut least = 0;
    for place in 1..circle.len() {
        if circle[place].index() < circle[least].index() {
            least = place;
        }
    }
    least
}

/// The same circle, begun at this place.
fn turned(alloc: Global, circle: &[OfficeId], place: usize) -> Result<Vec<OfficeId>, AllocError>
    requires { place ≤ length circle.now }
    ensures { IfOk result (λ v. v.items ≡ drop place circle.now ++ take place circle.now) }
{
    let (before, from) = circle.split_at(place);
    let mut turned = Vec::from_slice(alloc, from)?;
    turned.extend_from_slice(before)?;
    Ok(turned)
}

fn names(
    alloc: Global,
    tables: &PlanEntries,
    offices: &[OfficeId],
) -> Result<Vec<String>, AllocError>
    requires { All (λ a. a < length tables.now.offices) offices.now }
    ensures { IfOk result (λ v. map (office_name_of tables.now) offices.now ≡ map (λ name. Some (string_bytes name)) v.items) }
{
    let mut names = Vec::new(alloc);
    for office in offices {
        names.push(String::from_str(alloc, tables.office_name(*office))?)?;
    }
    Ok(names)
}
