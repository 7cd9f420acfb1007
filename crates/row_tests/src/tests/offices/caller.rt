//! What stands at the head of `site_core`, and what comes of it.

use session_programs::Program;
use site_core::{Office, Refusal, Reply};
use std::test::Fail;

/// An office does the rules that come next, and its messages go to the other.
fn turn(office: &mut Office, other: &mut Office) -> Result<(), Refusal> {
    for _ in 0..64 {
        match office.next_rule() {
            Some(rule) => drop(office.act(0, rule)?),
            None => break,
        }
    }
    let (_, many) = office.waiting(other.number()).unwrap_or((1, 0));
    for i in 0..many {
        if let Reply::Frame(frame) = office.send(0, other.number(), i.saturating_add(1))? {
            other.take(0, &frame)?;
        }
    }
    Ok(())
}

#[test]
fn a_session_fetches_what_it_needs(rt: HostRuntime) -> Result<(), Fail> {
    let programs = super::programs(rt.alloc(), crate::tests::PAIR, crate::tests::MOVE)?;
    let mut offices = super::offices(rt.alloc(), crate::tests::PAIR)?;
    assert!(rt; gives(&mut offices, &programs));
    Ok(())
}

/// Whether the first session finishes at the first office, and gives two values.
fn gives(offices: &mut [Office], programs: &[Program]) -> bool {
    let Some((office, others)) = offices.split_first_mut() else {
        return false;
    };
    let (Some(other), Some(program)) = (others.first_mut(), programs.first()) else {
        return false;
    };
    run(office, other, program).is_ok() && has_given(office)
}

/// One office submits a session; both do what comes next, and what one says the other hears, until there is nothing to say.
fn run(office: &mut Office, other: &mut Office, program: &Program) -> Result<(), Refusal> {
    office.submit(0, program)?;
    for _ in 0..16 {
        turn(office, other)?;
        turn(other, office)?;
    }
    Ok(())
}

fn has_given(office: &Office) -> bool {
    office
        .outcome(1)
        .is_some_and(|outcome| outcome.ending.gives.len() == 2)
}
