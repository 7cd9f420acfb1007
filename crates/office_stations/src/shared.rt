//! What the threads of a run share. No claim rests on it.

use crate::fault::RunFault;
use crate::room::Room;
use crate::watch::Progress;
use office_map::OfficeId;
use socket_pump::Turn;
use std::array;
use std::sync::atomic::{AtomicU64, Ordering};
use std::sync::{Mutex, Wait};

/// How far a run is, and who sleeps until it is further.
///
/// Who turns an office sleeps at its socket, and who submits its sessions in its room. Whatever ends the run, or an office's turns, is
/// written down here before those in the rooms are woken who have to see it, and they wake who sleeps at a socket: only they have an
/// alarm of it.
#[derive(Drop)]
pub struct Shared {
    sessions: u64,
    finished: AtomicU64,
    came: AtomicU64,
    went: AtomicU64,
    refused: AtomicU64,
    /// Not 0 where the run ends before its time.
    stopped: AtomicU64,
    /// Why, as the first said who found it so.
    fault: Mutex<Option<RunFault>>,
    /// The offices that nobody turns any more, a bit each.
    ended: AtomicU64,
    /// One for each office that a plan may have.
    rooms: [Room; 16],
}

impl Shared {
    /// Of so many sessions none has finished.
    pub fn new(sessions: u64) -> Shared {
        Shared {
            sessions,
            finished: AtomicU64::new(0),
            came: AtomicU64::new(0),
            went: AtomicU64::new(0),
            refused: AtomicU64::new(0),
            stopped: AtomicU64::new(0),
            fault: Mutex::new(None),
            ended: AtomicU64::new(0),
            rooms: array::from_fn(|_| Room::new()),
        }
    }

    /// The room of who submits this office's sessions.
    pub fn room(&self, me: OfficeId) -> &Room {
        &self.rooms[me.index() % 16]
    }

    pub fn note(&self, turn: &Turn) {
        let came = u64::from(turn.taken) + u64::from(turn.refused);
        if came > 0 {
            self.came.fetch_add(came, Ordering::SeqCst);
        }
        if turn.refused > 0 {
            self.refused
                .fetch_add(u64::from(turn.refused), Ordering::SeqCst);
        }
        if turn.sent > 0 {
            self.went.fetch_add(u64::from(turn.sent), Ordering::SeqCst);
        }
    }

    /// So many sessions more have finished. Who ends the last one wakes the others.
    pub fn finish(&self, count: u64) {
        self.finished.fetch_add(count, Ordering::SeqCst);
        if count > 0 && self.is_over() {
            self.wake_all();
        }
    }

    /// All sessions have finished, or the run ends before that.
    pub fn is_over(&self) -> bool {
        self.finished.load(Ordering::SeqCst) >= self.sessions
            || self.stopped.load(Ordering::SeqCst) > 0
    }

    /// The run ends before its time, for this or for what was found earlier, and the others are woken.
    pub fn fail<R: Wait>(&self, rt: &R, fault: RunFault) {
        let mut first = self.fault.lock(rt);
        if first.is_none() {
            *first = Some(fault);
        }
        drop(first);
        self.stopped.store(1, Ordering::SeqCst);
        self.wake_all();
    }

    /// Wakes whoever submits sessions.
    fn wake_all(&self) {
        for room in &self.rooms {
            room.wake();
        }
    }

    /// Why it ended before its time, if it did.
    pub fn fault<R: Wait>(&self, rt: &R) -> Option<RunFault> {
        *self.fault.lock(rt)
    }

    /// Nobody turns the office any more. Who submits its sessions is woken.
    pub fn end(&self, me: OfficeId) {
        self.ended
            .fetch_or(1 << (me.number() % 64), Ordering::SeqCst);
        self.room(me).wake();
    }

    pub fn has_ended(&self, me: OfficeId) -> bool {
        self.ended.load(Ordering::SeqCst) & (1 << (me.number() % 64)) != 0
    }

    pub fn progress(&self) -> Progress {
        Progress {
            finished: self.finished.load(Ordering::SeqCst),
            sessions: self.sessions,
            came: self.came.load(Ordering::SeqCst),
            went: self.went.load(Ordering::SeqCst),
            refused: self.refused.load(Ordering::SeqCst),
        }
    }
}
