//! Offices on threads: they run at the same time, and a thread that can't be started ends the run.

use super::memory::{Mailbox, MemorySockets};
use super::{GIVE, ROW, ROW_SESSIONS, live_in_memory, plan, programs};
use office_map::OfficeId;
use office_runs::live::live::live;
use office_stations::{Around, Gate, Quiet, RunFault};
use session_reports::form::Form;
use std::sync::atomic::{AtomicU64, Ordering};
use std::test::Fail;
use std::thread::yield_now;

/// Lets the first turn of each of the first two offices go on only when it has seen the other's.
#[derive(Drop)]
struct Meeting {
    seen: [AtomicU64; 2],
    missed: AtomicU64,
}

impl Gate for Meeting {
    fn before(&self, office: OfficeId) {
        let (Some(own), Some(other)) = (
            self.seen.get(office.index()),
            self.seen.get(1usize.saturating_sub(office.index())),
        ) else {
            return;
        };
        own.store(1, Ordering::SeqCst);
        for _ in 0..100_000 {
            if other.load(Ordering::SeqCst) == 1 {
                return;
            }
            yield_now();
        }
        self.missed.store(1, Ordering::SeqCst);
    }
}

/// Two offices wait for each other's first turn, so they run at the same time.
#[test]
fn offices_run_at_the_same_time(rt: HostRuntime) -> Result<(), Fail> {
    let gate = Meeting {
        seen: [AtomicU64::new(0), AtomicU64::new(0)],
        missed: AtomicU64::new(0),
    };
    let ran = live_in_memory(&rt, rt.alloc(), ROW, ROW_SESSIONS, false, u64::MAX, &gate)?;
    let told = ran.is_ok_and(|ran| ran.unfinished == 0);
    assert!(rt; told);
    assert_eq!(rt; gate.missed.load(Ordering::SeqCst), 0);
    assert_eq!(rt; gate.seen[0].load(Ordering::SeqCst), 1);
    assert_eq!(rt; gate.seen[1].load(Ordering::SeqCst), 1);
    Ok(())
}

/// Says no to the second office's first thread, once who submits the first one's sessions has ended.
#[derive(Drop)]
struct NoThreadAfter<'a> {
    asked: AtomicU64,
    first: Option<&'a Mailbox>,
}

impl<'a> Gate for NoThreadAfter<'a> {
    fn before(&self, _office: OfficeId) {}

    fn may_start(&self) -> bool {
        if self.asked.fetch_add(1, Ordering::SeqCst) < 2 {
            return true;
        }
        for _ in 0..10_000_000 {
            if self
                .first
                .is_none_or(|mailbox| mailbox.gone.load(Ordering::SeqCst) == 1)
            {
                return false;
            }
            yield_now();
        }
        false
    }
}

/// Of two faults the one that came first is told: here a socket fails, and then a thread can't be started. The office has more
/// sessions than it takes where nobody turns it, so who submits them ends only when the first fault is known.
#[test]
fn the_first_fault_is_told(rt: HostRuntime) -> Result<(), Fail> {
    let alloc = rt.alloc();
    let plan = plan(alloc, ROW)?;
    let mut text = String::new(alloc);
    for _ in 0..65 {
        text.push_str(GIVE)?;
    }
    let programs = programs(alloc, &plan, text.as_str())?;
    let boxes = Mailbox::some(alloc)?;
    let binds = MemorySockets::new(&rt, alloc, &boxes, u64::MAX, 0);
    let gate = NoThreadAfter {
        asked: AtomicU64::new(0),
        first: boxes.first(),
    };
    let around = Around {
        binds: &binds,
        gate: &gate,
        watch: &Quiet,
    };
    let ran = live(&rt, alloc, Form::Plain, &plan, &programs, false, &around);
    assert_eq!(rt; ran.map(|ran| ran.fault), Ok(Some(RunFault::WireFailed)));
    Ok(())
}
