//! Offices that are opened, each at a desk of its own.

ghost use Rattle.std.specs.Prelude.{◌≡◌, ◌<◌, ◌≤◌, [], length, map, IfOk, IfSome};
ghost use Rattle.std.specs.Arc.{arc_value};
ghost use Rattle.std.specs.List.{range_with_len};
ghost use Rattle.own_lock.specs.Passes.{AreFresh, AreIdle, fresh_pass};
ghost use Rattle.locked_office.specs.Calls.{tag_of};

use locked_office::Desk;
use office_map::{OfficeId, Plan};
use own_lock::Pass;
use site_core::Office;
use std::alloc::{AllocError, Global};
use std::sync::Arc;

/// An office at its desk, which threads share, with the passes that stay with who started it: the last, and those that nobody
/// works with. The two who work for it have the others, with the tags 0 and 1.
///
/// The desk is shared by an `Arc`, so that none outlives its run.
#[derive(Drop)]
pub struct Opened {
    pub desk: Arc<Desk>,
    pub(crate) own: Pass<Office>,
    pub(crate) rest: Vec<Pass<Office>>,
    ghost last: { own ≡ fresh_pass (arc_value desk) tag_of [] 15 },
    ghost others: { rest.items ≡ map (fresh_pass (arc_value desk) tag_of []) (range_with_len 2 13) },
    ghost office: { (arc_value desk).key.1 < length (arc_value desk).key.0.offices },
}

/// That office of the plan at a desk, and so many passes.
pub(crate) fn open_desk(
    alloc: Global,
    plan: &Plan,
    me: OfficeId,
    passes: u8,
) -> Result<(Desk, Vec<Pass<Office>>), AllocError>
    requires me { me < length plan.now.offices }
    requires some { 0 < passes }
    requires few { passes ≤ 16 }
    ensures key { IfOk result (λ r. r.0.key ≡ (plan.now, me)) }
    ensures idle { IfOk result (λ r. AreIdle r.0 r.1.items) }
    ensures fresh { IfOk result (λ r. AreFresh r.0 tag_of [] passes r.1.items) }
{
    let office = Office::open(alloc, plan, me)?;
    Desk::open(alloc, office, passes)
}

/// That office of the plan at a desk with as many passes as a desk may have, so that whoever could have written an entry is known;
/// with the pass of who turns it, and that of who submits its sessions.
pub(crate) fn open_shared(
    alloc: Global,
    plan: &Plan,
    me: OfficeId,
) -> Result<(Opened, Pass<Office>, Pass<Office>), AllocError>
    requires { me < length plan.now.offices }
    ensures key { IfOk result (λ r. (arc_value r.0.desk).key ≡ (plan.now, me)) }
    ensures worker { IfOk result (λ r. r.1 ≡ fresh_pass (arc_value r.0.desk) tag_of [] 0) }
    ensures client { IfOk result (λ r. r.2 ≡ fresh_pass (arc_value r.0.desk) tag_of [] 1) }
{
    let (desk, mut rest) = open_desk(alloc, plan, me, 16)?;
    let worker = rest.remove(0);
    let client = rest.remove(0);
    let Some(own) = rest.pop() else {
        unreachable!()
    };
    let desk = Arc::new(alloc, desk)?;
    Ok((Opened { desk, own, rest }, worker, client))
}

/// The only one of the passes.
pub(crate) fn only(desk: &Desk, mut passes: Vec<Pass<Office>>) -> Option<Pass<Office>>
    requires { AreFresh desk.now tag_of [] 1 passes.items }
    ensures { IfSome result (λ pass. pass ≡ fresh_pass desk.entry.now tag_of [] 0) }
{
    passes.pop()
}
