//! The order of the offices at the start.

ghost use Rattle.std.specs.Prelude.{◌≡◌, ◌<◌, length, MatchOption, ℕ, not, ◌&&◌, ◌==◌, true, false, Ok, Err};
ghost use Rattle.std.specs.Result.{MatchResult};
ghost use Rattle.office_map.specs.PlanText.{Answers};
ghost use Rattle.office_map.specs.Precedence.{starts_before, MayCome, IsNext, IsLeastFirst};
ghost use Rattle.bottle_values.specs.Lists.{is_among};
ghost use Rattle.office_map.specs.refinement.OrderSearch.{awaits};

use crate::entries::PairEntry;
use crate::fault::PlanFault;
use crate::ids::OfficeId;
use crate::plan_entries::PlanEntries;
use crate::ring_search::ring_from;
use std::alloc::Global;

/// All offices, one that precedes earlier, and the least number first where several may come;
/// or a ring, where there is no such order.
///
/// The order is told by what stands at each place, the least office that may come, and not by a loop; a law says that
/// no two lists are such an order. A plan is arranged once, when it is read, and keeps its order, since that is also
/// how a ring is found.
pub(crate) fn order(alloc: Global, tables: &PlanEntries) -> Result<Vec<OfficeId>, PlanFault>
    ensures { MatchResult result (λ v. IsLeastFirst tables.now v.items) (λ f. Answers (Err f) (Ok tables.now)) }
{
    let mut order = Vec::with_capacity(alloc, tables.offices().len())?;
    while let Some(office) = next(tables, &order) {
        order.push(office)?;
    }
    match first_left(tables, &order) {
        Some(start) => Err(PlanFault::Ring(ring_from(alloc, tables, &order, start)?)),
        None => Ok(order),
    }
}

/// The office that comes after those that are placed.
fn next(tables: &PlanEntries, placed: &[OfficeId]) -> Option<OfficeId>
    ensures { MatchOption result
        ((v : ℕ) → MayCome tables.now placed.now v → ⊥)
        (λ v. IsNext tables.now placed.now v) }
{
    for number in 0..tables.offices().len() {
        let office = OfficeId::new(number as u8);
        if !is_among(placed, office) && awaited(tables, placed, office).is_none() {
            return Some(office);
        }
    }
    None
}

/// An office that isn't placed yet and precedes this one.
pub(crate) fn awaited(
    tables: &PlanEntries,
    placed: &[OfficeId],
    office: OfficeId,
) -> Option<OfficeId>
    ensures { MatchOption result
        ((u : ℕ) → starts_before tables.now u office ≡ true → is_among placed.now u ≡ true)
        (λ u. (starts_before tables.now u office ≡ true) × (u < length tables.now.offices) × (is_among placed.now u ≡ false)) }
{
    for pair in tables.pairs() {
        if awaits(placed, office, pair) {
            return Some(pair.preceding_end());
        }
    }
    None
}

/// Whether the office has this pair's fork, and the other end isn't placed yet.
fn awaits(placed: &[OfficeId], office: OfficeId, pair: &PairEntry) -> bool
    ensures { result ≡ awaits placed.now office pair.now }
{
    pair.fork_end() == office && !is_among(placed, pair.preceding_end())
}

pub(crate) fn is_among(placed: &[OfficeId], office: OfficeId) -> bool
    ensures { result ≡ is_among placed.now office }
{
    placed.contains(&office)
}

/// The first office that isn't placed.
fn first_left(tables: &PlanEntries, placed: &[OfficeId]) -> Option<OfficeId>
    ensures { MatchOption result
        ((a : ℕ) → a < length tables.now.offices → is_among placed.now a ≡ true)
        (λ a. (a < length tables.now.offices) × (is_among placed.now a ≡ false)) }
{
    for number in 0..tables.offices().len() {
        let office = OfficeId::new(number as u8);
        if !is_among(placed, office) {
            return Some(office);
        }
    }
    None
}
