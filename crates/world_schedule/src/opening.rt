//! The offices as a plan starts them.

ghost use Rattle.std.specs.Prelude.{◌≡◌, ◌<◌, length, map, IfOk};
ghost use Rattle.std.specs.List.{range_with_len};
ghost use Rattle.frame_world.specs.Worlds.{silent};

use office_map::{OfficeId, Plan};
use site_core::Office;
use std::alloc::{AllocError, Global};

/// All offices of a plan, in order of number. None accepted anything.
#[tactic(auto, using(bottle_values::specs::ListLaws::mapped_more))]
pub(crate) fn offices_of(alloc: Global, plan: &Plan) -> Result<Vec<Office>, AllocError>
    ensures { IfOk result (λ os. os.items ≡ map (silent plan.now) (range_with_len 0 (length plan.now.offices))) }
{
    let mut offices = Vec::with_capacity(alloc, plan.offices())?;
    for a in 0..plan.offices() {
        offices.push(office_of(alloc, plan, OfficeId::new(a as u8))?)?;
    }
    Ok(offices)
}

/// An office that accepted nothing.
fn office_of(alloc: Global, plan: &Plan, me: OfficeId) -> Result<Office, AllocError>
    requires { me < length plan.now.offices }
    ensures { IfOk result (λ o. o ≡ silent plan.now me) }
{
    Office::open(alloc, plan, me)
}
