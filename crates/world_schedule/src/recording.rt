//! Which sessions finished, by where they did.

ghost use Rattle.std.specs.Prelude.{◌≡◌, ◌<◌, ◌≤◌, List, ℕ, length, get_or, slice_get, map, Some, IfOk};
ghost use Rattle.site_core.specs.Journals.{Site, IsLegal, office_of};
ghost use Rattle.session_meaning.specs.declared.ending.Outcome.{Outcome};
ghost use Rattle.world_schedule.specs.Readers.{mark_of};
ghost use Rattle.world_schedule.specs.refinement.Orders.{TellInOrder};

use crate::finished::Finished;
use crate::happening::mark_of;
use office_map::OfficeId;
use site_core::Office;
use std::alloc::{AllocError, Global};

/// The finished sessions, where sessions finished at these offices in order: each office tells its own in that order, so the next one of
/// each is taken.
pub(crate) fn marks_of(
    alloc: Global,
    offices: &[Office],
    order: &[OfficeId],
) -> Result<Vec<Finished>, AllocError>
    requires few { length offices.now ≤ 16 }
    requires told { (os : List Outcome) × TellInOrder offices.now os order.now }
    ensures { IfOk result (λ v. (os : List Outcome) → TellInOrder offices.now os order.now → v.items ≡ map mark_of os) }
{
    let mut seen = [0; 16];
    let mut marks = Vec::with_capacity(alloc, order.len())?;
    for office in order {
        let a = office.index();
        let next: usize = seen[a];
        marks.push(mark_at(&offices[a], next))?;
        seen[a] = next + 1;
    }
    Ok(marks)
}

/// What is listed of the session that an office finished at this place, from 0, of its own.
fn mark_at(office: &Office, place: usize) -> Finished
    requires { (o : Outcome) × (slice_get (office_of office.now).agenda.outcomes place ≡ Some o) }
    ensures { (o : Outcome) → slice_get (office_of office.now).agenda.outcomes place ≡ Some o → result ≡ mark_of o }
{
    mark_of(&office.outcomes()[place])
}

/// The journal of each office is legal.
pub(crate) fn are_legal(offices: &[Office])
    ensures { (a : ℕ) (s : Site) → a < length offices.now → s ≡ get_or offices.now a s → IsLegal s }
{
    for office in offices {
        let _ = office.journal();
    }
}
