//! What stands at the head of `session_language`, and what comes of it.

use office_map::Plan;
use session_language::{LangFault, read_sessions};
use std::alloc::Global;
use std::test::Fail;

/// The sessions of a text under a plan, in their canonical form.
fn canonical(alloc: Global, plan: &Plan, text: &[u8]) -> Result<String, LangFault> {
    let programs = read_sessions(alloc, text, plan)?;
    let mut told = String::new(alloc);
    for program in &programs {
        // Under another plan its names may mean nothing.
        if program.fits(plan) {
            told.push_str(program.text(alloc, plan)?.as_str())?;
        }
    }
    Ok(told)
}

#[test]
fn texts_have_a_canonical_form(rt: HostRuntime) -> Result<(), Fail> {
    let plan = Plan::read(rt.alloc(), crate::tests::PAIR.as_bytes())?;
    let told = canonical(rt.alloc(), &plan, b"session a\n  give (1+2)*read x\nend")?;
    assert_eq!(rt; told.as_str(), "session a\ngive (1 + 2) * read x\nend\n");
    assert_eq!(rt;
        line_of(canonical(rt.alloc(), &plan, b"session a\ngive read z\nend\n")),
        Some(2)
    );
    Ok(())
}

/// The line at which a text is refused.
fn line_of(told: Result<String, LangFault>) -> Option<u64> {
    match told {
        Err(LangFault::Refused(refusal)) => Some(refusal.line),
        _ => None,
    }
}
