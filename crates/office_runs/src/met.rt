//! What is told of an office when all have ended who worked for it.

ghost use Rattle.std.specs.Prelude.{◌≡◌, ◌+◌, ◌<◌, ◌≤◌, ◌∷◌, ◌++◌, ℕ, [], false, length, map, IfOk, IfSome, IfNone};
ghost use Rattle.std.specs.Arc.{arc_value};
ghost use Rattle.std.specs.List.{range_with_len};
ghost use mathlib.Core.List.{IsPrefix};
ghost use Rattle.own_lock.specs.Entries.{tagged};
ghost use Rattle.own_lock.specs.Passes.{IsOf, fresh_pass};
ghost use Rattle.locked_office.specs.Calls.{Stays, tag_of};
ghost use Rattle.office_runs.specs.refinement.Opening.{opened_key, IsFor};
ghost use Rattle.office_runs.specs.refinement.Reports.{AddsOffice};

use crate::finished::add_sessions;
use crate::opened::Opened;
use crate::report::Report;
use locked_office::Desk;
use office_map::Plan;
use own_lock::Pass;
use session_reports::form::Form;
use site_core::Office;
use std::alloc::AllocError;
use std::sync::Wait;

/// The sessions of an office that finished are told, and how many they are; and its journal, where it is wanted. Who turned it looks
/// last: so all that it wrote is told. Then all passes meet, so that it is known whose the entries are: those of who turned it, and of
/// who submitted its sessions.
pub fn add_office<R: Wait>(
    rt: &R,
    form: Form,
    plan: &Plan,
    office: Opened,
    mut worker: Pass<Office>,
    client: Pass<Office>,
    report: &mut Report,
) -> Result<usize, AllocError>
    requires worker { IsFor (arc_value office.desk) 0 worker }
    requires client { IsFor (arc_value office.desk) 1 client }
    ensures told { IfOk result (AddsOffice form plan.now (opened_key office) worker.mine client.mine report.old report.new) }
    ensures wanted { report.new.wanted ≡ report.old.wanted }
{
    let Opened {
        desk,
        mut own,
        rest,
    } = office;
    let desk: &Desk = &desk;
    let added = add_sessions(rt, desk, &mut worker, form, plan, report);
    let _ = worker.tag();
    desk.meet(worker, &mut own);
    meet_all(desk, rest, &mut own);
    desk.meet(client, &mut own);
    added
}

/// The pass meets those that nobody worked with.
fn meet_all(desk: &Desk, mut rest: Vec<Pass<Office>>, own: &mut Pass<Office>)
    requires of { IsOf desk.now own.old }
    requires idle { own.old.holds ≡ false }
    requires rest { rest.items ≡ map (fresh_pass desk.now tag_of []) (range_with_len 2 (length rest.items)) }
    ensures stays { Stays desk.now own.old own.new }
    ensures seen { IsPrefix own.old.seen own.new.seen }
    ensures mine { own.new.mine ≡ own.old.mine }
    ensures none { (t : ℕ) → 2 ≤ t → t < 2 + length rest.items → tagged tag_of t own.old.seen ≡ [] }
{
    while let Some(pass) = last(&mut rest) {
        desk.meet(pass, own);
    }
}

fn last(passes: &mut Vec<Pass<Office>>) -> Option<Pass<Office>>
    ensures some { IfSome result (λ pass. passes.old.items ≡ passes.new.items ++ pass ∷ []) }
    ensures none { IfNone result (passes.old.items ≡ []) }
{
    passes.pop()
}
