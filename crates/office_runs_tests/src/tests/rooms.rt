//! Who sleeps in a room of a run, and what wakes them.

use office_map::OfficeId;
use office_stations::{RunFault, Shared};
use std::rt::Clock;
use std::sync::Wait;
use std::sync::atomic::{AtomicU64, Ordering};
use std::thread::{Threads, join, sleep, yield_now};
use std::time::Duration;

/// How often it is looked, a millisecond apart, before what doesn't come counts as lost.
const LOOKS: u32 = 10_000;

/// Half of the sessions that an office takes at once.
const ENOUGH: u64 = 32;

/// How often one sleeps and is woken.
const TIMES: u64 = 20_000;

/// What wakes who sleeps: that half of what an office takes has finished, that nobody turns it any more, that the last session of
/// the run ended, and a fault.
#[derive(Clone, Copy)]
enum Cause {
    Room,
    End,
    Finish,
    Fault,
}

static CAUSES: [Cause; 4] = [Cause::Room, Cause::End, Cause::Finish, Cause::Fault];

fn me() -> OfficeId {
    OfficeId::new(3)
}

fn tell<R: Wait>(rt: &R, shared: &Shared, cause: Cause) {
    match cause {
        Cause::Room => shared.room(me()).set_finished(ENOUGH),
        Cause::End => shared.end(me()),
        Cause::Finish => shared.finish(100),
        Cause::Fault => shared.fail(rt, RunFault::Memory),
    }
}

/// Whether who sleeps has woken so often within so many looks.
fn wakes<R: Clock>(rt: &R, awake: &AtomicU64, times: u64, looks: u32) -> bool {
    for _ in 0..looks {
        if awake.load(Ordering::SeqCst) >= times {
            return true;
        }
        sleep(rt, Duration::from_millis(1));
    }
    false
}

/// One session fewer than is enough finishes, and then the cause is told. It says whether who sleeps woke at the first, and at the
/// second. Where nothing woke it, all others are told, so that its thread ends.
fn wake<R: Wait + Clock>(rt: &R, shared: &Shared, awake: &AtomicU64, cause: Cause) -> (bool, bool) {
    shared.room(me()).set_finished(ENOUGH - 1);
    let early = wakes(rt, awake, 1, 20);
    tell(rt, shared, cause);
    let woken = wakes(rt, awake, 1, LOOKS);
    if !woken {
        for other in &CAUSES {
            tell(rt, shared, *other);
        }
    }
    (early, woken)
}

fn sleep_once<R: Wait>(rt: &R, shared: &Shared, awake: &AtomicU64) {
    shared.room(me()).wait_for_more(rt, 0);
    awake.store(1, Ordering::SeqCst);
}

fn wake_in_a_thread<R: Threads + Wait + Clock + Sync>(rt: &R, cause: Cause) -> (bool, bool) {
    let shared = Shared::new(100);
    let awake = AtomicU64::new(0);
    let (told, ()) = join(
        rt,
        || wake(rt, &shared, &awake, cause),
        || sleep_once(rt, &shared, &awake),
    );
    told
}

/// Each of them wakes who sleeps, and one session fewer than is enough doesn't.
#[test]
fn who_sleeps_in_a_room_is_woken(rt: HostRuntime) {
    for cause in &CAUSES {
        let (early, woken) = wake_in_a_thread(&rt, *cause);
        assert!(rt; !early, "woken for less than is enough");
        assert!(rt; woken, "one sleeps that nobody wakes");
    }
}

/// Whether who sleeps has woken so often: it is looked without a pause first, and then a millisecond apart.
fn has_woken<R: Clock>(rt: &R, awake: &AtomicU64, times: u64) -> bool {
    for _ in 0..1_000 {
        if awake.load(Ordering::SeqCst) >= times {
            return true;
        }
        yield_now();
    }
    wakes(rt, awake, times, LOOKS)
}

/// As many sessions as are enough finish, again as soon as who sleeps has woken. It says whether that one woke each time. Where it
/// didn't, the run is over, so that its thread ends.
fn wake_often<R: Wait + Clock>(rt: &R, shared: &Shared, awake: &AtomicU64) -> bool {
    for k in 0..TIMES {
        shared.room(me()).set_finished((k + 1) * ENOUGH);
        if !has_woken(rt, awake, k + 1) {
            shared.fail(rt, RunFault::Memory);
            return false;
        }
    }
    true
}

fn sleep_often<R: Wait>(rt: &R, shared: &Shared, awake: &AtomicU64) {
    for k in 0..TIMES {
        shared.room(me()).wait_for_more(rt, k * ENOUGH);
        if shared.is_over() {
            return;
        }
        awake.store(k + 1, Ordering::SeqCst);
    }
}

fn wake_often_in_a_thread<R: Threads + Wait + Clock + Sync>(rt: &R) -> bool {
    let shared = Shared::new(100);
    let awake = AtomicU64::new(0);
    let (told, ()) = join(
        rt,
        || wake_often(rt, &shared, &awake),
        || sleep_often(rt, &shared, &awake),
    );
    told
}

/// Where one begins to sleep while another tells that enough have finished, no wake is lost.
#[test]
fn no_wake_is_lost(rt: HostRuntime) {
    assert!(rt; wake_often_in_a_thread(&rt), "one sleeps that nobody wakes");
}
