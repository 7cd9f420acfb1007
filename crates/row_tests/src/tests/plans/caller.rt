//! What stands at the head of `office_map`, and what comes of it.

use office_map::{Plan, PlanFault, RecordId};
use std::alloc::Global;
use std::test::Fail;

/// Where each record of a plan starts, a line each.
fn starts(alloc: Global, text: &[u8]) -> Result<String, PlanFault> {
    let plan = Plan::read(alloc, text)?;
    let mut told = String::new(alloc);
    for number in 0..plan.records() {
        let record = RecordId::new(number as u16);
        let name = plan.record_name(record);
        let office = plan.office_name(plan.start_end(record));
        let value = plan.start_value(record);
        writeln!(told, "{name} starts at {office} with {value}")?;
    }
    Ok(told)
}

#[test]
fn records_start_at_an_office(rt: HostRuntime) -> Result<(), Fail> {
    let told = starts(rt.alloc(), crate::tests::PAIR.as_bytes())?;
    assert_eq!(rt;
        told.as_str(),
        "x starts at a with 100\ny starts at b with 0\n"
    );
    assert!(rt; starts(rt.alloc(), b"plan 1 run 1\n").is_err());
    Ok(())
}
