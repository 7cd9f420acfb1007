ghost use Rattle.std.specs.Prelude.{◌≡◌, ◌<◌};
ghost use Rattle.bottle_values.specs.Lists.{is_among};
ghost use Rattle.dining_core.specs.refinement.Tables.{diner_of};

use dining_core::{NotNow, Phase, Table};
use office_map::{OfficeId, Plan};
use std::alloc::Global;
use std::process::Abort;
use std::test::Fail;

const TWO_OFFICES: &str = "plan 1 run 42\noffice a -\noffice b -\npair a b fork a\n";

fn a() -> OfficeId
    ensures { result ≡ 0 }
{
    OfficeId::new(0)
}

fn b() -> OfficeId
    ensures { result ≡ 1 }
{
    OfficeId::new(1)
}

// The tables of a plan's first two offices.
fn tables(rt: &impl Abort, alloc: Global) -> Result<(Table, Table), Fail> {
    let plan = Plan::read(alloc, TWO_OFFICES.as_bytes()).expect(rt, "the plan is accepted");
    assert!(rt; plan.offices() == 2);
    let at_a = Table::open(alloc, &plan, a())?;
    let at_b = Table::open(alloc, &plan, b())?;
    Ok((at_a, at_b))
}

fn token_comes(rt: &impl Abort, table: &mut Table, v: OfficeId) {
    assert!(rt; table.neighbours().iter().any(|u| *u == v) && !table.has_token(v));
    table.got_token(v);
}

fn fork_comes(rt: &impl Abort, table: &mut Table, v: OfficeId) {
    assert!(rt; table.neighbours().iter().any(|u| *u == v) && !table.holds(v));
    table.got_fork(v);
    assert!(rt; table.holds(v) && table.is_clean(v));
}

// A hungry office asks the other for the fork.
fn asks(rt: &impl Abort, from: &mut Table, me: OfficeId, to: &mut Table, you: OfficeId) {
    assert_eq!(rt; from.hungry(true), Ok(()));
    assert_eq!(rt; from.ask_fork(you), Ok(()));
    token_comes(rt, to, me);
}

// The fork goes over.
fn gives(rt: &impl Abort, from: &mut Table, me: OfficeId, to: &mut Table, you: OfficeId) {
    assert_eq!(rt; from.give_fork(you), Ok(()));
    fork_comes(rt, to, me);
}

#[test]
fn a_clean_fork_is_kept_until_its_office_ate(rt: HostRuntime) -> Result<(), Fail> {
    let (mut at_a, mut at_b) = tables(&rt, rt.alloc())?;
    asks(&rt, &mut at_b, b(), &mut at_a, a());
    gives(&rt, &mut at_a, a(), &mut at_b, b());
    asks(&rt, &mut at_a, a(), &mut at_b, b());
    assert_eq!(rt; at_b.give_fork(a()), Err(NotNow));
    assert_eq!(rt; at_b.eat(), Ok(()));
    assert_eq!(rt; at_b.give_fork(a()), Err(NotNow));
    assert_eq!(rt; at_b.leave(false), Ok(()));
    gives(&rt, &mut at_b, b(), &mut at_a, a());
    assert_eq!(rt; at_a.eat(), Ok(()));
    assert!(rt; matches!(at_a.phase(), Phase::Eating));
    Ok(())
}

// Four offices. The second, which the rows are of, shares a fork with the first and with the third, and starts with both.
