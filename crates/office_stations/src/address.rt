//! Addresses of offices.

ghost use Rattle.std.specs.Prelude.{◌≡◌, ◌<◌, ℕ, length, IfSome, IfNone, true, false};
ghost use Rattle.office_stations.specs.Addresses.{has_no_address, is_without};

use office_map::{OfficeId, Plan};
use std::net::SocketAddr;

/// Of an office and its neighbours the one of the least number that has no address in the plan.
pub fn without_address(plan: &Plan, me: OfficeId) -> Option<OfficeId>
    ensures some { IfSome result (λ v. is_without plan.now me v ≡ true) }
    ensures least { IfSome result (λ v. (u : ℕ) → u < v → is_without plan.now me u ≡ false) }
    ensures office { IfSome result (λ v. v < length plan.now.offices) }
    ensures none { IfNone result ((v : ℕ) → v < length plan.now.offices → is_without plan.now me v ≡ false) }
{
    for k in 0..plan.offices() {
        let v = OfficeId::new(k as u8);
        if is_without(plan, me, v) {
            return Some(v);
        }
    }
    None
}

/// Whether it is this office or a neighbour, and has no address.
fn is_without(plan: &Plan, me: OfficeId, v: OfficeId) -> bool
    requires { v < length plan.now.offices }
    ensures { result ≡ is_without plan.now me v }
{
    (v == me || plan.are_neighbours(me, v)) && has_no_address(plan, v)
}

fn has_no_address(plan: &Plan, v: OfficeId) -> bool
    requires { v < length plan.now.offices }
    ensures { result ≡ has_no_address plan.now v }
{
    plan.address(v) == "-"
}

/// The address of an office, if the plan has one for it.
pub(crate) fn address(plan: &Plan, id: OfficeId) -> Option<SocketAddr>
    requires { id < length plan.now.offices }
{
    plan.address(id).parse::<SocketAddr>().ok()
}
