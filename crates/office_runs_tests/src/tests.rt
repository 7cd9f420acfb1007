use crate::tests::memory::{Mailbox, MemorySockets};
use office_map::Plan;
use office_runs::Ran;
use office_runs::live::live::live;
use office_stations::{Around, Binds, Gate, OpeningFault, Quiet, Watch};
use session_language::read_sessions;
use session_programs::Program;
use session_reports::form::Form;
use std::alloc::Global;
use std::rt::Clock;
use std::sync::Wait;
use std::test::Fail;
use std::thread::Threads;

mod memory;
mod rooms;
mod threads;
mod turns;

/// Three offices in a row, with a record of each pair.
const ROW: &str =
    "plan 1 run 9\noffice a -\noffice b -\noffice c -\npair a b fork b\npair b c fork b\nrecord r a b 1 at a\nrecord s b c 2 at c\n";

const ROW_SESSIONS: &str =
    "session a\nrepeat 3\nset r = read r * 2\nend\ngive read r\nend\nsession c\nset s = read s + 5\ngive read s\nend\nsession b\nset r = read r + read s\nset s = 0\ngive read r\nend\n";

const GIVE: &str = "session a\ngive 1\nend\n";

fn plan(alloc: Global, text: &str) -> Result<Plan, Fail> {
    Ok(Plan::read(alloc, text.as_bytes())?)
}

fn programs(alloc: Global, plan: &Plan, text: &str) -> Result<Vec<Program>, Fail> {
    Ok(read_sessions(alloc, text.as_bytes(), plan)?)
}

/// What a run of the plan's offices on threads answers, over sockets in memory.
fn live_in_memory<R: Threads + Wait + Clock + Sync, G: Gate + Sync>(
    rt: &R,
    alloc: Global,
    text: &str,
    sessions: &str,
    journals: bool,
    refused: u64,
    gate: &G,
) -> Result<Result<Ran, OpeningFault>, Fail> {
    let plan = plan(alloc, text)?;
    let programs = programs(alloc, &plan, sessions)?;
    let boxes = Mailbox::some(alloc)?;
    let binds = MemorySockets::new(rt, alloc, &boxes, refused, u64::MAX);
    let around = Around {
        binds: &binds,
        gate,
        watch: &Quiet,
    };
    Ok(live(rt, alloc, Form::Plain, &plan, &programs, journals, &around))
}
