//! Rings and orders, of a few plans and of all small ones.

use office_map::{OfficeId, Plan, PlanFault, Ring};
use std::alloc::Global;
use std::fmt::Write;
use std::process::Abort;
use std::test::Fail;

const OFFICES: &str = "plan 1 run 1\noffice a -\noffice b -\noffice c -\n";

#[test]
fn three_offices_in_a_ring_or_an_order(rt: HostRuntime) -> Result<(), Fail> {
    let (a, b, c) = (OfficeId::new(0), OfficeId::new(1), OfficeId::new(2));
    let text = format!(in rt.alloc();
        "{OFFICES}pair a b fork a\npair b c fork b\npair a c fork c\n"
    )?;
    let ring = ring_in(rt.alloc(), text.as_bytes()).expect(&rt, "a ring");
    assert!(rt; ring.offices.as_slice() == [a, c, b].as_slice());
    let text = format!(in rt.alloc();
        "{OFFICES}pair a b fork a\npair b c fork b\npair a c fork a\n"
    )?;
    has_order(&rt, rt.alloc(), text.as_bytes(), &[c, b, a]);
    Ok(())
}

/// The ring for which a text is refused.
fn ring_in(alloc: Global, text: &[u8]) -> Option<Ring> {
    match Plan::read(alloc, text) {
        Err(PlanFault::Ring(ring)) => Some(ring),
        _ => None,
    }
}

/// The order of a text's plan, and of a copy of it.
fn has_order(rt: &impl Abort, alloc: Global, text: &[u8], expected: &[OfficeId]) {
    let plan = Plan::read(alloc, text).expect(rt, "an order or a ring");
    let order = plan.order(alloc).expect(rt, "memory");
    assert!(rt; order.as_slice() == expected);
    let copy = plan.copy(alloc).expect(rt, "memory");
    let order = copy.order(alloc).expect(rt, "memory");
    assert!(rt; order.as_slice() == expected);
}
