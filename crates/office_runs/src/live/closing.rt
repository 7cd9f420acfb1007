//! What is told of all offices, whose threads have ended.

ghost use Rattle.std.specs.Prelude.{◌≡◌, ◌⊎◌, None, Some, false, map, All, IfOk, IfSome, IfNone};
ghost use Rattle.session_reports.specs.form.Forms.{outcome_as};
ghost use Rattle.office_stations.specs.declared.fault.RunFault.TheVariants.{NoThread};
ghost use Rattle.office_runs.specs.Runs.{IsQuiet};
ghost use Rattle.office_runs.specs.live.Courses.{TellsCourses, offices_of};
ghost use Rattle.office_runs.specs.live.refinement.Ends.{TellsEnd, key_of_end, programs_of_end};

use crate::live::crew::Ended;
use crate::met::add_office;
use crate::report::{Ran, Report, with_unfinished};
use crate::threads::{ClientEnd, WorkerEnd};
use office_map::{OfficeId, Plan};
use office_stations::{RunFault, Socket, count_of};
use session_programs::Program;
use session_reports::form::Form;
use site_core::laws::{sessions_go_in_order, steps_add_their_entry};
use std::alloc::{AllocError, Global};
use std::sync::Wait;

/// What came of it; of several faults the one that was found first.
pub(crate) fn tell_all<R: Wait, S: Socket>(
    rt: &R,
    alloc: Global,
    form: Form,
    plan: &Plan,
    ended: Vec<Ended<'_, S>>,
    programs: &[Program],
    journals: bool,
    first: Option<RunFault>,
) -> Result<Ran, AllocError>
    requires sessions { All (λ e. programs_of_end e ≡ programs.now) ended.items }
    ensures told { IfOk result (λ ran. map key_of_end ended.entry.items ≡ offices_of plan.now → TellsCourses form S.tells plan.now programs.now journals ran) }
    ensures quiet { IfOk result IsQuiet }
{
    sessions_go_in_order();
    let mut report = Report::new(alloc, journals);
    let mut left = programs.len();
    let mut fault = no_thread(first);
    let mut over = false;
    let mut me = 0u8;
    for end in ended {
        fault = earlier(first, fault, end.broke(), end.stopped());
        over = either(over, end.over());
        let own = count_of(programs, OfficeId::new(me));
        me = me.saturating_add(1);
        let count = remark_end(rt, alloc, form, plan, end, own, &mut report)?;
        left = left.saturating_sub(count);
    }
    if is_unaccounted(left, fault, over) {
        return Err(AllocError);
    }
    Ok(with_unfinished(report, form, left, fault)?)
}

/// One of the two.
fn either(a: bool, b: bool) -> bool
    ensures { result ≡ false → (a ≡ false) × (b ≡ false) }
{
    a || b
}

/// Whether an office ended as if the run were over, though so many sessions are left and nothing failed. No run comes to that; of one
/// that did nothing would be told.
fn is_unaccounted(left: usize, fault: Option<RunFault>, over: bool) -> bool
    ensures { result ≡ false → fault ≡ None → (left ≡ 0) ⊎ (over ≡ false) }
{
    left > 0 && fault.is_none() && over
}

/// That a thread couldn't be started, if that was the first.
fn no_thread(first: Option<RunFault>) -> Option<RunFault>
    ensures { IfSome result (λ why. why ≡ NoThread) }
{
    match first {
        Some(RunFault::NoThread) => Some(RunFault::NoThread),
        _ => None,
    }
}

/// Of three faults the one that was found first; else the first of them that is one.
fn earlier(
    first: Option<RunFault>,
    a: Option<RunFault>,
    b: Option<RunFault>,
    c: Option<RunFault>,
) -> Option<RunFault>
    ensures none { IfNone result ((a ≡ None) × (b ≡ None) × (c ≡ None)) }
    ensures some { IfSome result (λ why. (a ≡ Some why) ⊎ (b ≡ Some why) ⊎ (c ≡ Some why)) }
{
    earlier_of(first, earlier_of(first, a, b), c)
}

/// Of two.
fn earlier_of(first: Option<RunFault>, a: Option<RunFault>, b: Option<RunFault>) -> Option<RunFault>
    ensures none { IfNone result ((a ≡ None) × (b ≡ None)) }
    ensures some { IfSome result (λ why. (a ≡ Some why) ⊎ (b ≡ Some why)) }
{
    if a.is_none() || b.is_some() && b == first {
        b
    } else {
        a
    }
}

/// The same as below, of an office that has so many of the run's sessions, with what people are told of those that are left, and of
/// its neighbours.
fn remark_end<R: Wait, S: Socket>(
    rt: &R,
    alloc: Global,
    form: Form,
    plan: &Plan,
    end: Ended<'_, S>,
    own: usize,
    report: &mut Report,
) -> Result<usize, AllocError>
    ensures told { IfOk result (λ n. TellsEnd S.tells (outcome_as form plan.now) end.entry n report.old report.new) }
    ensures wanted { report.new.wanted ≡ report.old.wanted }
{
    let ways = end.ways(alloc)?;
    report.expect(own, ways);
    add_end(rt, form, plan, end, report)
}

/// What came of an office is told, and how many of its sessions finished.
fn add_end<R: Wait, S: Socket>(
    rt: &R,
    form: Form,
    plan: &Plan,
    end: Ended<'_, S>,
    report: &mut Report,
) -> Result<usize, AllocError>
    ensures told { IfOk result (λ n. TellsEnd S.tells (outcome_as form plan.now) end.entry n report.old report.new) }
    ensures wanted { report.new.wanted ≡ report.old.wanted }
{
    steps_add_their_entry();
    let Ended {
        office,
        programs: _,
        worker,
        client,
        socket: _,
    } = end;
    let WorkerEnd {
        pass: worker,
        fault: _,
        over: _,
        ways: _,
    } = worker;
    let ClientEnd {
        pass: client,
        fault: _,
    } = client;
    add_office(rt, form, plan, office, worker, client, report)
}
