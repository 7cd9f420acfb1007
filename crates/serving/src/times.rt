//! How long an office serves, and when it is said how it stands.

use office_stations::TimedTurn;

/// For how many seconds no datagram is taken before an office ends its service, and each how many seconds it is said how it stands; with 0
/// never.
#[derive(Clone, Copy, Debug, PartialEq, Eq)]
pub struct Times {
    pub linger: u64,
    pub status: u64,
}

/// When the last datagram was taken, the last turn was, and it was said last how the office stands, in milliseconds from the start. No
/// claim rests on it.
#[derive(Clone, Copy)]
pub(crate) struct Course {
    times: Times,
    heard: u64,
    now: u64,
    told: u64,
}

impl Course {
    pub(crate) fn new(times: Times) -> Course {
        Course {
            times,
            heard: 0,
            now: 0,
            told: 0,
        }
    }

    /// Whether no datagram was taken for long enough.
    pub(crate) fn is_quiet(&self) -> bool {
        self.times.linger > 0
            && self.now.saturating_sub(self.heard) >= self.times.linger.saturating_mul(1000)
    }

    /// Whether it is time to say again how the office stands.
    pub(crate) fn is_time_to_tell(&mut self) -> bool {
        let each = self.times.status.saturating_mul(1000);
        if each == 0 || self.now.saturating_sub(self.told) < each {
            return false;
        }
        self.told = self.now;
        true
    }

    /// When a turn was, and whether a datagram was taken by it: one that is refused keeps no office from its end.
    pub(crate) fn note(&mut self, turn: &TimedTurn) {
        self.now = turn.at;
        if turn.turn.taken > 0 {
            self.heard = turn.at;
        }
    }
}
