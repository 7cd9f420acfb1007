//! How an office that serves stands, for people.

ghost use Rattle.std.specs.Prelude.{◌≡◌};

use crate::times::Course;
use journal_stores::{Store, StoreFailed};
use office_map::{OfficeId, Plan};
use office_stations::remarks::{Unmet, Way, unmet_by};
use office_stations::{Progress, Quiet, Shared, Socket, Station, Watch};
use site_core::MAX_ENTRIES;
use std::alloc::Global;
use std::rt::Clock;
use std::time::Instant;
use stored_runs::books::Books;

/// How an office stands: how many of its sessions finished and how many haven't, how many datagrams came and were refused, for how
/// many entries its journal has room, and how many milliseconds the last append to its store took.
#[derive(Clone, Copy, Debug, PartialEq, Eq)]
pub struct Status {
    pub finished: u64,
    pub unfinished: u64,
    pub came: u64,
    pub refused: u64,
    pub left: u64,
    pub append: u64,
}

/// Who looks on, and is told how an office stands.
pub trait Monitor: Watch {
    fn tell_status(&self, status: &Status);

    /// A neighbour that was never reached or heard yet, at the time of a status.
    fn tell_silent(&self, _unmet: &Unmet<'_>) {}
}

impl Monitor for Quiet {
    fn tell_status(&self, _status: &Status) {}
}

/// A store whose appends are timed. No claim rests on the time.
#[derive(Drop)]
pub struct TimedStore<'a, R: Clock, T: Store + Drop> {
    rt: &'a R,
    store: T,
    last: u64,
}

impl<'a, R: Clock, T: Store + Drop> TimedStore<'a, R, T> {
    pub fn new(rt: &'a R, store: T) -> TimedStore<'a, R, T>
        ensures { result.store ≡ store }
    {
        TimedStore { rt, store, last: 0 }
    }

    /// How many milliseconds the last append took.
    pub fn last(&self) -> u64 {
        self.last
    }
}

impl<R: Clock, T: Store + Drop> Store for TimedStore<'_, R, T> {
    ghost stood = { λ s. T.stood s.store };

    ghost found = { λ s. T.found s.store };

    ghost failed = { λ s. T.failed s.store };

    fn has_failed(&self) -> bool {
        self.store.has_failed()
    }

    fn append(&mut self, bytes: &[u8]) -> Result<(), StoreFailed> {
        let start = Instant::now(self.rt);
        let done = self.store.append(bytes);
        if let Ok(start) = start {
            if let Ok(time) = start.elapsed(self.rt) {
                self.last = u64::try_from(time.as_millis()).unwrap_or(u64::MAX);
            }
        }
        done
    }
}

/// How the office stands is said, where it is time to, and which of its neighbours were never reached or heard.
pub(crate) fn tell_status<R: Clock, S: Socket, W: Monitor, T: Store + Drop>(
    alloc: Global,
    plan: &Plan,
    me: OfficeId,
    station: &Station<S>,
    watch: &W,
    course: &mut Course,
    books: &Books,
    shared: &Shared,
    store: &TimedStore<'_, R, T>,
) {
    if !course.is_time_to_tell() {
        return;
    }
    let Progress { came, refused, .. } = shared.progress();
    watch.tell_status(&Status {
        finished: books.told as u64,
        unfinished: books.left as u64,
        came,
        refused,
        left: MAX_ENTRIES.saturating_sub(books.stood) as u64,
        append: store.last(),
    });
    if let Ok(ways) = station.ways(alloc) {
        tell_silent(plan, me, &ways, watch);
    }
}

fn tell_silent<W: Monitor>(plan: &Plan, me: OfficeId, ways: &[Way], watch: &W) {
    for way in ways {
        if let Some(unmet) = unmet_by(plan, me, way) {
            watch.tell_silent(&unmet);
        }
    }
}
