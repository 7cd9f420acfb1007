//! What stands at the head of `locked_office`, and what comes of it.

use locked_office::Desk;
use session_programs::Program;
use site_core::{Office, Reply};
use std::alloc::Global;
use std::process::Abort;
use std::sync::Wait;
use std::test::Fail;

/// How many values a session gives, where its office needs nothing of its neighbours.
fn given<R: Wait>(rt: &R, alloc: Global, office: Office, program: &Program) -> Option<usize> {
    let Ok((desk, mut passes)) = Desk::open(alloc, office, 2) else {
        return None;
    };
    let mut client = passes.pop()?;
    let mut worker = passes.pop()?;
    let Ok(Reply::Ticket(ticket)) = desk.submit(rt, &mut client, program) else {
        return None;
    };
    // This is what another thread does, with its own pass.
    let Ok(_) = desk.advance(rt, &mut worker, 64) else {
        return None;
    };
    desk.meet(worker, &mut client);
    match desk.outcome(rt, &mut client, ticket) {
        Ok(Some(outcome)) => Some(outcome.ending.gives.len()),
        _ => None,
    }
}

#[test]
fn a_session_is_done_at_a_desk(rt: HostRuntime) -> Result<(), Fail> {
    let programs = super::programs(rt.alloc(), super::PAIR, "session a\ngive 1\ngive 2\nend\n")?;
    let office = super::office(rt.alloc(), super::PAIR)?;
    assert_eq!(rt; given_by(&rt, rt.alloc(), office, &programs), Some(2));
    Ok(())
}

fn given_by<R: Wait + Abort>(
    rt: &R,
    alloc: Global,
    office: Office,
    programs: &[Program],
) -> Option<usize> {
    given(rt, alloc, office, programs.first()?)
}
