//! Which passes wait, and which of them is woken.

ghost use Rattle.std.specs.Prelude.{◌≡◌, ◌<◌, ℕ, ◌+◌, ◌==◌, IfOk, vec_len};
ghost use Rattle.own_lock.specs.Waking.{waits_in, IsLeast, IsNextAfter};

use crossbeam_utils::CachePadded;
use crossbeam_utils::sync::{Parker, Unparker};
use std::alloc::{AllocError, Global};
use std::marker::Model;
use std::sync::atomic::AtomicU64;
use std::sync::atomic::Ordering::SeqCst;

/// The passes that wait, and how each is woken. Contracts see how many passes there are.
#[derive(Drop)]
pub(crate) struct Waiters {
    // one for each pass, by its tag
    unparkers: Vec<Unparker>,
    // a bit for each pass that waits, by its tag; on a cache line of its own, since each call reads what lies beside
    pub(crate) waiting: CachePadded<AtomicU64>,
}

impl Model for Waiters {
    ghost Value = { ℕ };

    ghost view = { λ w. vec_len w.unparkers };
}

impl Waiters {
    /// No pass.
    pub(crate) fn new(alloc: Global) -> Waiters
        ensures { result ≡ 0 }
    {
        Waiters {
            unparkers: Vec::new(alloc),
            waiting: CachePadded::new(AtomicU64::new(0)),
        }
    }

    /// The parker of one pass more, which has the next tag.
    pub(crate) fn parker(&mut self, alloc: Global) -> Result<Parker, AllocError>
        ensures { IfOk result (λ _. self.new ≡ self.old + 1) }
    {
        let parker = Parker::new(alloc)?;
        self.unparkers.push(parker.unparker().clone()?)?;
        Ok(parker)
    }

    /// The pass with this tag waits from now on.
    pub(crate) fn enter(&self, tag: u8)
        requires { tag < 16 }
    {
        self.waiting.fetch_or(mark_of(tag), SeqCst);
    }

    /// It waits no more.
    pub(crate) fn leave(&self, tag: u8)
        requires { tag < 16 }
    {
        self.waiting.fetch_and(!mark_of(tag), SeqCst);
    }

    /// Wakes the next pass that waits after this tag, if one does.
    ///
    /// One pass and not all: the others would wake to find the state taken. Going round, no tag waits behind the same
    /// others for ever. One that was woken leaves word again as it takes the state, so its own giving back wakes the
    /// next.
    #[cold]
    #[inline(never)]
    pub(crate) fn wake_after(&self, tag: u8)
        requires { tag < 16 }
    {
        let Some(next) = next_after(self.waiting.load(SeqCst), tag) else {
            return;
        };
        if let Some(unparker) = self.unparkers.get(next) {
            unparker.unpark();
        }
    }
}

// The word in which the pass with this tag waits, and no other.
fn mark_of(tag: u8) -> u64
    requires { tag < 16 }
    ensures { (t : ℕ) → waits_in result t ≡ (t == tag) }
{
    1u64 << tag
}

/// Of those that wait the tag whose turn it is after this one, going round: the least greater one, or, where
/// no greater one waits, the least.
pub(crate) fn next_after(waiting: u64, tag: u8) -> Option<usize>
    requires { tag < 16 }
    ensures { IsNextAfter tag (waits_in waiting) result }
{
    let greater = waiting & u64::MAX << (tag + 1);
    least(greater).or(least(waiting))
}

// The least tag of those that wait.
fn least(waiting: u64) -> Option<usize>
    ensures { IsLeast (waits_in waiting) result }
{
    if waiting == 0 {
        return None;
    }
    Some(waiting.trailing_zeros() as usize)
}
