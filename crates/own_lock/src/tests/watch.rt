//! Looks from outside whether threads go on, and helps them to their end where they don't.

use super::Log;
use crate::pass::Pass;
use crossbeam_utils::sync::Unparker;
use std::alloc::{AllocError, Global};
use std::sync::Wait;
use std::sync::atomic::AtomicU64;
use std::sync::atomic::Ordering::SeqCst;
use std::thread::sleep;
use std::time::{Clock, Duration};

/// How often it is looked, a millisecond apart, before what doesn't come counts as lost.
pub const LOOKS: u32 = 10_000;

/// How often something was done, and what wakes each of the passes, whatever the lock knows of them.
#[derive(Drop)]
pub struct Watch {
    done: AtomicU64,
    unparkers: Vec<Unparker>,
}

impl Watch {
    pub fn new(alloc: Global, passes: &Vec<Pass<Log>>) -> Result<Watch, AllocError> {
        let mut unparkers = Vec::new(alloc);
        for pass in passes {
            unparkers.push(pass.parker.unparker().clone()?)?;
        }
        Ok(Watch {
            done: AtomicU64::new(0),
            unparkers,
        })
    }

    pub fn tell(&self) {
        self.done.fetch_add(1, SeqCst);
    }

    /// Waits until it was done so often, and says whether it came to that without help. Where nothing is done
    /// for long, it wakes all passes again and again, so that their threads end.
    pub fn comes<R: Wait + Clock>(&self, rt: &R, wanted: u64) -> bool {
        let mut seen = 0;
        let mut looks = 0u32;
        for _ in rt.forever() {
            let done = self.done.load(SeqCst);
            if done >= wanted {
                return looks < LOOKS;
            }
            if looks >= LOOKS {
                self.wake_all();
            } else if done == seen {
                looks = looks.saturating_add(1);
            } else {
                seen = done;
                looks = 0;
            }
            sleep(rt, Duration::from_millis(1));
        }
        unreachable!()
    }

    /// Wakes the pass with this tag, whether it waits or not.
    pub fn wake(&self, tag: usize) {
        if let Some(unparker) = self.unparkers.get(tag) {
            unparker.unpark();
        }
    }

    fn wake_all(&self) {
        for unparker in &self.unparkers {
            unparker.unpark();
        }
    }
}
