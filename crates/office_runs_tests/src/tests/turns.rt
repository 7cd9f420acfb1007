//! How many turns an office has, how long it waits before them, and what wakes who waits.

use super::memory::{Comes, Mailbox, MemorySockets};
use super::{GIVE, ROW, ROW_SESSIONS, plan, programs};
use office_runs::live::live::live;
use office_stations::{Around, Gate, Open, Quiet};
use session_reports::form::Form;
use std::sync::atomic::Ordering;
use std::test::Fail;

/// Over sockets at which who waits sleeps until something comes or it is woken, a run of all ends: who submits more sessions than an
/// office takes is woken when there is room, and wakes who turns it; and who ends the last session wakes all others.
#[test]
fn whoever_waits_is_woken(rt: HostRuntime) -> Result<(), Fail> {
    let alloc = rt.alloc();
    let plan = plan(alloc, ROW)?;
    let mut text = String::new(alloc);
    for _ in 0..300 {
        text.push_str(GIVE)?;
    }
    text.push_str(ROW_SESSIONS)?;
    let programs = programs(alloc, &plan, text.as_str())?;
    let boxes = Mailbox::some(alloc)?;
    let binds = MemorySockets::to_which(&rt, alloc, &boxes, Comes::FramesAlone);
    let around = Around {
        binds: &binds,
        gate: &Open,
        watch: &Quiet,
    };
    let ran = live(&rt, alloc, Form::Plain, &plan, &programs, false, &around);
    for mailbox in boxes.as_slice() {
        assert_eq!(rt; mailbox.forgotten.load(Ordering::SeqCst), 0);
    }
    assert_eq!(rt; ran.map(|ran| (ran.unfinished, ran.fault)), Ok((0, None)));
    Ok(())
}
