//! How long an office waits before a turn, and the time of its turns.

ghost use Rattle.std.specs.Prelude.{◌≡◌, ◌≤◌, [], ◌∷◌, true};
ghost use Rattle.socket_pump.specs.Wires.{risen};
ghost use Rattle.office_stations.specs.Paces.{first_pace, is_full, noted};
ghost use Rattle.office_stations.specs.Rounds.{counted, counts, is_void};
ghost use Rattle.office_stations.specs.Waits.{IsWait};

use socket_pump::{MOST_DATAGRAMS, MOST_RULES, SHORTEST_RESEND, Turn};
use std::marker::Model;
use std::rt::Clock;
use std::time::Instant;

/// The longest wait before a turn, in milliseconds.
const LONGEST_WAIT: u64 = 5;

/// After how many milliseconds it is told again how far a run is.
const TOLD_EACH: u64 = 1000;

/// A turn: when it was, in milliseconds from when its office was opened, and what it did.
#[derive(Clone, Copy, PartialEq, Eq)]
pub struct TimedTurn {
    pub at: u64,
    pub turn: Turn,
}

impl TimedTurn {
    /// How many of an office's turns it is, which has so many: one or none.
    pub fn counted(&self, turns: u64) -> u64
        ensures counted { result ≡ counted turns (self.now ∷ []) }
        ensures one { result ≤ 1 }
    {
        u64::from(self.counts(turns))
    }

    /// A void turn is none before the time is over that as many idle ones take.
    ///
    /// A turn that took a datagram, did a rule or sent a frame counts at once, be there refused datagrams beside it: a
    /// frame is sent again after 50 milliseconds and no sooner. A void one costs nothing but work until that time is
    /// over, and after it the turns end as ever.
    fn counts(&self, turns: u64) -> bool
        ensures { result ≡ counts turns self.now }
    {
        !(is_void(&self.turn) && self.at / LONGEST_WAIT < turns)
    }
}

/// It brought refused datagrams, and nothing else was done.
fn is_void(turn: &Turn) -> bool
    ensures { result ≡ is_void turn.now }
{
    turn.refused > 0 && turn.taken == 0 && turn.rules == 0 && turn.sent == 0
}

/// When an office's last turn was, and what is known of the next one.
///
/// It counts each wait that it gives out, and so tells that a turn comes after one wait: a pump's clause speaks of what
/// a wire received, accepted and failed, and of nothing else that a socket tells. That a wait of the pace is one at the
/// socket, and as long as was asked for, is a clause of `Station::wait`.
#[derive(Drop)]
pub struct Pace {
    start: Instant,
    /// The time of the last turn, in milliseconds from the start.
    time: u64,
    /// There may be more to do at once.
    busy: bool,
    /// When the first message may be sent again that was sent since the last resend.
    due: u64,
    /// How many waits there were.
    waits: u64,
    /// When it was last told how far the run is.
    told: u64,
}

impl Model for Pace {
    ghost use Rattle.office_stations.specs.Paces.{PaceView};

    ghost Value = { PaceView };

    ghost view = { λ p. record { time = p.time; busy = p.busy; due = p.due; waits = p.waits } };
}

impl Pace {
    pub(crate) fn new(start: Instant) -> Pace
        ensures { result ≡ first_pace }
    {
        Pace {
            start,
            time: 0,
            busy: true,
            due: 0,
            waits: 0,
            told: 0,
        }
    }

    /// For how many milliseconds at most to wait for a datagram now, before the next turn.
    pub(crate) fn wait(&mut self) -> u64
        ensures wait { IsWait self.old result }
        ensures counted { self.new ≡ record self.old { waits = risen self.old.waits } }
    {
        self.waits = self.waits.saturating_add(1);
        self.longest()
    }

    fn longest(&self) -> u64
        ensures { IsWait self.now result }
    {
        if self.busy {
            0
        } else if self.due > self.time {
            (self.due - self.time).min(LONGEST_WAIT)
        } else {
            LONGEST_WAIT
        }
    }

    /// The time now, in milliseconds from the start; where the clock can't be read, one more than that of the turn before.
    pub(crate) fn tick<R: Clock>(&mut self, rt: &R) -> u64
        ensures { self.new ≡ record self.old { time = result } }
    {
        self.time = match self.start.elapsed(rt) {
            Ok(time) => u64::try_from(time.as_millis()).unwrap_or(u64::MAX),
            Err(_) => self.time.saturating_add(1),
        };
        self.time
    }

    /// The time of the last turn.
    pub(crate) fn now(&self) -> u64 {
        self.time
    }

    /// The turn of this time did this. Where it took as many datagrams or rules as one may, there may be more.
    pub(crate) fn note(&mut self, turn: &Turn)
        ensures { self.new ≡ noted turn.now self.old }
    {
        self.busy = is_full(turn);
        if turn.sent > 0 && self.due <= self.time {
            self.due = self.time.saturating_add(SHORTEST_RESEND);
        }
    }

    /// There is more to do at once.
    pub(crate) fn hurry(&mut self)
        ensures { self.new ≡ record self.old { busy = true } }
    {
        self.busy = true;
    }

    /// Whether a second has gone since this was last so.
    pub(crate) fn is_time_to_tell(&mut self) -> bool
        ensures { self.new ≡ self.old }
    {
        if self.time - self.told.min(self.time) < TOLD_EACH {
            return false;
        }
        self.told = self.time;
        true
    }
}

/// It took as many datagrams as a turn may, or did as many rules.
fn is_full(turn: &Turn) -> bool
    ensures { result ≡ is_full turn.now }
{
    turn.taken.saturating_add(turn.refused) >= MOST_DATAGRAMS || turn.rules >= MOST_RULES
}
