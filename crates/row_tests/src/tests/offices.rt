use office_map::{OfficeId, Plan};
use session_language::read_sessions;
use session_programs::Program;
use site_core::Office;
use std::alloc::{AllocError, Global};
use std::test::Fail;

mod caller;

/// The sessions of a text under the plan.
fn programs(alloc: Global, plan: &str, sessions: &str) -> Result<Vec<Program>, Fail> {
    let plan = Plan::read(alloc, plan.as_bytes())?;
    Ok(read_sessions(alloc, sessions.as_bytes(), &plan)?)
}

/// All offices of the plan.
fn offices(alloc: Global, plan: &str) -> Result<Vec<Office>, Fail> {
    let plan = Plan::read(alloc, plan.as_bytes())?;
    Ok(opened(alloc, &plan)?)
}

/// All offices of the plan.
fn opened(alloc: Global, plan: &Plan) -> Result<Vec<Office>, AllocError> {
    let mut offices = Vec::new(alloc);
    for v in 0..plan.offices() {
        offices.push(Office::open(alloc, plan, OfficeId::new(v as u8))?)?;
    }
    Ok(offices)
}
