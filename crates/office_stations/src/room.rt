//! Who submits an office's sessions, while there is no room for more. No claim rests on it.

use site_core::MAX_UNFINISHED;
use std::sync::Wait;
use std::sync::atomic::AtomicU64;
use std::sync::atomic::Ordering::SeqCst;
use std::thread::Parker;

/// How many sessions more have to finish before there is room enough: half of those that an office takes at once. So who submits them
/// is woken once for so many, while as many are left for the office to do.
const ENOUGH: u64 = MAX_UNFINISHED as u64 / 2;

/// So many never finish: nobody waits for room.
const NEVER: u64 = u64::MAX;

/// How many sessions of an office have finished, as who turns it tells, and where who submits them sleeps.
///
/// No wake is lost. One thread sleeps in a room. Whoever has something to tell it writes that first, and then gives the parker's
/// token, which stays until a sleep takes it; and who wakes looks again. So whatever was written after the last look ends the next
/// sleep at once. Only `set_finished` gives no token where none was asked for. There each of the two writes its own word before it
/// reads the other's, and all steps have one order: either who turns the office finds how many are wanted, and wakes, or who waits
/// finds that so many have finished, and doesn't sleep.
#[derive(Drop)]
pub struct Room {
    finished: AtomicU64,
    /// How many are to have finished when who submits them is woken.
    wanted: AtomicU64,
    sleeper: Parker,
}

impl Room {
    /// None has finished, and nobody sleeps.
    pub(crate) fn new() -> Room {
        Room {
            finished: AtomicU64::new(0),
            wanted: AtomicU64::new(NEVER),
            sleeper: Parker::new(),
        }
    }

    /// How many have finished, as was told last.
    pub fn finished(&self) -> u64 {
        self.finished.load(SeqCst)
    }

    /// So many have finished. Who waits for room is woken, if there is enough now.
    pub fn set_finished(&self, finished: u64) {
        if finished == self.finished() {
            return;
        }
        self.finished.store(finished, SeqCst);
        if finished >= self.wanted.load(SeqCst) {
            self.wake();
        }
    }

    /// Sleeps until there is room enough for one whose last session was refused for want of it, or until it is woken for something
    /// else; `since` is how many had finished before it began to submit.
    ///
    /// That comes: at the refusal as many sessions were unfinished as an office takes, besides `since` at least that had finished. All
    /// of these are the office's to do, and half of the ones it takes are enough. Where `since` was read after the refusal it might
    /// not come, for by then all of them may have finished.
    pub fn wait_for_more<R: Wait>(&self, rt: &R, since: u64) {
        let wanted = since.saturating_add(ENOUGH);
        self.wanted.store(wanted, SeqCst);
        if self.finished() < wanted {
            self.sleeper.park(rt);
        }
        self.wanted.store(NEVER, SeqCst);
    }

    /// Sleeps until it is woken.
    pub fn wait<R: Wait>(&self, rt: &R) {
        self.sleeper.park(rt);
    }

    /// Who sleeps here wakes; where nobody does, who sleeps next.
    pub(crate) fn wake(&self) {
        self.sleeper.unpark();
    }
}
