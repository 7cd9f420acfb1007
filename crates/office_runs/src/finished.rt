//! The sessions of an office that finished, as its desk tells them.

ghost use Rattle.std.specs.Prelude.{◌≡◌, ◌<◌, ◌++◌, false, length, IfOk, OnOk};
ghost use Rattle.std.specs.List.{flat_map};
ghost use Rattle.own_lock.specs.Passes.{IsOf};
ghost use Rattle.locked_office.specs.Calls.{Stays, Looks, office_with};
ghost use Rattle.session_reports.specs.form.Forms.{outcome_as};
ghost use Rattle.office_stations.specs.Sessions.{finished_of};
ghost use Rattle.office_runs.specs.refinement.Reports.{AddsJournal};

use crate::report::Report;
use locked_office::Desk;
use office_map::Plan;
use own_lock::Pass;
use session_reports::form::Form;
use site_core::Office;
use std::alloc::AllocError;
use std::sync::Wait;

/// The sessions of an office that finished are told, by ticket, and how many they are; and its journal, where it is wanted. Both
/// are of one moment. Where memory runs out, some may be told.
pub(crate) fn add_sessions<R: Wait>(
    rt: &R,
    desk: &Desk,
    pass: &mut Pass<Office>,
    form: Form,
    plan: &Plan,
    report: &mut Report,
) -> Result<usize, AllocError>
    requires of { IsOf desk.now pass.old }
    requires idle { pass.old.holds ≡ false }
    requires office { desk.now.key.1 < length desk.now.key.0.offices }
    ensures stays { Stays desk.now pass.old pass.new }
    ensures looked { Looks desk.now.key pass.old pass.new }
    ensures lines { OnOk result (report.new.lines ≡ report.old.lines ++ flat_map (outcome_as form plan.now) (finished_of (office_with desk.now.key pass.new.seen))) }
    ensures count { IfOk result (λ n. n ≡ length (finished_of (office_with desk.now.key pass.new.seen))) }
    ensures journal { OnOk result (AddsJournal report.old.wanted (office_with desk.now.key pass.new.seen) report.old.texts report.new.texts) }
    ensures wanted { report.new.wanted ≡ report.old.wanted }
{
    let held = desk.lock().take(rt, pass);
    let added = report.add(form, plan, held.get());
    desk.lock().give(pass, held);
    added
}
