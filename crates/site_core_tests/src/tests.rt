use frame_codec::Frame;
use office_map::{OfficeId, Plan};
use session_language::read_sessions;
use session_programs::Program;
use site_core::{Event, Office, Refusal, Reply, Rule};
use std::alloc::{AllocError, Global};
use std::test::Fail;

mod endings;
mod hostile_frames;
mod long;
mod queue;
mod readers;
mod refusal_order;
mod rows;
mod texts;

/// Two offices, and two records of theirs.
const PAIR: &str =
    "plan 1 run 42\noffice a -\noffice b -\npair a b fork a\nrecord x a b 100 at a\nrecord y a b 0 at b\n";

/// A session that moves 30 from one record to the other.
const MOVE: &str =
    "session a\nlet v = read x\nset x = v - 30\nset y = read y + 30\ngive read x\ngive read y\nend\n";

const GIVES: &str = "session a\ngive 1\nend\nsession b\ngive 2\nend\n";

/// The first of the two offices of each plan.
const A: usize = 0;

/// The sessions of a text under the plan.
fn programs(alloc: Global, plan: &str, sessions: &str) -> Result<Vec<Program>, Fail> {
    let plan = Plan::read(alloc, plan.as_bytes())?;
    Ok(read_sessions(alloc, sessions.as_bytes(), &plan)?)
}

/// All offices of the plan.
fn offices(alloc: Global, plan: &str) -> Result<Vec<Office>, Fail> {
    let plan = Plan::read(alloc, plan.as_bytes())?;
    Ok(opened(alloc, &plan)?)
}

/// All offices of the plan.
fn opened(alloc: Global, plan: &Plan) -> Result<Vec<Office>, AllocError> {
    let mut offices = Vec::new(alloc);
    for v in 0..plan.offices() {
        offices.push(Office::open(alloc, plan, OfficeId::new(v as u8))?)?;
    }
    Ok(offices)
}

fn submit(office: &mut Office, program: &Program) -> Result<Reply, Refusal> {
    office.submit(3, program)
}

fn take(office: &mut Office, tag: u8, frame: Frame) -> Result<Reply, Refusal> {
    hand_in(office, tag, Event::Took(frame))
}

fn act(office: &mut Office, tag: u8, rule: Rule) -> Result<Reply, Refusal> {
    hand_in(office, tag, Event::Do(rule))
}

fn hand_in(office: &mut Office, tag: u8, event: Event) -> Result<Reply, Refusal> {
    office.step(tag % 16, &event)
}
