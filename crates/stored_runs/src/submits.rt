//! The sessions that a journal submitted, and those of a list that are left.

ghost use Rattle.std.specs.Prelude.{◌≡◌, ◌↔◌, ◌≤◌, ◌<◌, All, Some, length, slice_get, IfOk, IfErr, IfSome, IfNone, IsTrue};
ghost use Rattle.session_programs.specs.Program.{fits};
ghost use Rattle.office_stations.specs.Rounds.{of_office};
ghost use Rattle.stored_runs.specs.Keeping.{LeavesFrom, submitted};
ghost use Rattle.stored_runs.specs.refinement.Submits.{IsNextOf, IsOtherOf, SubmitsAt, SubmitsNone};

use crate::fault::KeptFault;
use office_map::{OfficeId, Plan};
use session_language::laws::reads_back;
use session_programs::Program;
use site_core::{EventRef, Journal};
use std::alloc::{AllocError, Global};

/// The place in the list after the office's sessions that this journal submitted, where those begin its own of the list.
///
/// # Errors
/// `OtherSessions` with the first, by its ticket, that is another one; `Memory`.
pub(crate) fn next_after(
    alloc: Global,
    plan: &Plan,
    journal: &Journal,
    me: OfficeId,
    programs: &[Program],
) -> Result<usize, KeptFault>
    requires fit { All (λ p. IsTrue (fits plan.now p)) programs.now }
    ensures left { IfOk result (LeavesFrom me programs.now journal.now.entries) }
    ensures within { IfOk result (λ n. n ≤ length programs.now) }
    ensures other { IfErr result (IsOtherOf (submitted journal.now.entries) (of_office me programs.now)) }
{
    let mut next = 0;
    let mut ticket = 0;
    for place in 0..journal.len() {
        let Some(program) = submitted_at(journal, place) else {
            continue;
        };
        ticket += 1;
        next = next_of(programs, me, next);
        if !is_at(alloc, plan, programs, next, program)? {
            return Err(KeptFault::OtherSessions(ticket));
        }
        next += 1;
    }
    Ok(next)
}

/// The session that the entry at that place submits, if it does.
fn submitted_at(journal: &Journal, place: usize) -> Option<&Program>
    requires { place < length journal.now.entries }
    ensures some { IfSome result (λ p. SubmitsAt journal.entry.now.entries place p.now) }
    ensures none { IfNone result (SubmitsNone journal.entry.now.entries place) }
{
    let Some(entry) = journal.get(place) else {
        unreachable!()
    };
    match entry.event {
        EventRef::Submit(program) => Some(program),
        _ => None,
    }
}

/// The place of the office's first session from that place on, or the end of the list.
fn next_of(programs: &[Program], me: OfficeId, from: usize) -> usize
    requires { from ≤ length programs.now }
    ensures { IsNextOf programs.now me from result }
{
    for i in from..programs.len() {
        if programs[i].office() == me {
            return i;
        }
    }
    programs.len()
}

/// Whether this session stands at that place.
fn is_at(
    alloc: Global,
    plan: &Plan,
    programs: &[Program],
    place: usize,
    program: &Program,
) -> Result<bool, AllocError>
    requires fit { All (λ p. IsTrue (fits plan.now p)) programs.now }
    ensures { IfOk result (λ b. IsTrue b ↔ (slice_get programs.now place ≡ Some program.now)) }
{
    match programs.get(place) {
        Some(other) => is_same(alloc, plan, other, program),
        None => Ok(false),
    }
}

/// Whether two sessions are the same: they are where their texts are.
///
/// By their canonical texts, under the plan that both fit: a text means one program. So no equality of trees is needed,
/// and what is compared is what an audit reads.
fn is_same(alloc: Global, plan: &Plan, one: &Program, other: &Program) -> Result<bool, AllocError>
    requires fits { IsTrue (fits plan.now one.now) }
    ensures { IfOk result (λ b. IsTrue b ↔ (one.now ≡ other.now)) }
{
    if !other.fits(plan) {
        return Ok(false);
    }
    reads_back(one, plan);
    reads_back(other, plan);
    let left = one.text(alloc, plan)?;
    let right = other.text(alloc, plan)?;
    Ok(left.as_bytes() == right.as_bytes())
}
