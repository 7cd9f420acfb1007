//! Where a record's bottle is, and its value there.

ghost use Rattle.std.specs.Prelude.{◌≡◌, [], Contains, IfSome, IfNone};
ghost use Rattle.world_schedule.specs.refinement.Bottles.{bottles_toward, bottles_at, LiesBetween};

use bottle_values::Value;
use office_map::RecordId;
use site_core::Office;

/// The value of a record's bottle that one of two offices holds, or that is on the way between them.
pub(crate) fn bottle_between(first: &Office, second: &Office, r: RecordId) -> Option<Value>
    requires forth { LiesBetween r first.now second.now }
    requires back { LiesBetween r second.now first.now }
    ensures some { IfSome result (λ x. Contains (bottles_at first.now second.now r) x) }
    ensures none { IfNone result (bottles_at first.now second.now r ≡ []) }
{
    if let Some(value) = first.held_value(r) {
        return Some(value);
    }
    if let Some(value) = second.held_value(r) {
        return Some(value);
    }
    match bottle_toward(first, second, r) {
        Some(value) => Some(value),
        None => bottle_toward(second, first, r),
    }
}

/// The value of a record's bottle on the way from one office to another: it waits for the other, which hasn't taken it.
fn bottle_toward(from: &Office, to: &Office, r: RecordId) -> Option<Value>
    requires { LiesBetween r from.now to.now }
    ensures some { IfSome result (λ x. Contains (bottles_toward from.now to.now r) x) }
    ensures none { IfNone result (bottles_toward from.now to.now r ≡ []) }
{
    let (number, value) = from.waiting_value(r)?;
    let taken = to.taken(from.number())?;
    if taken < number { Some(value) } else { None }
}
