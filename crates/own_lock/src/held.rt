//! The state, out of its lock.

ghost use Rattle.std.specs.Prelude.{◌≡◌};
ghost use Rattle.std.specs.Borrow.{Lends, sem};

use crate::boxed::Boxed;
use std::marker::Model;

/// The state of a lock, owned by whoever took it. It can't be dropped: it is given back, by the pass
/// that took it.
///
/// A body that puts an older state back can't be written: the lock is generic in its state, which it can't copy.
pub struct Held<S> {
    boxed: Boxed<S>,
}

impl<S> Model for Held<S> {
    ghost Value = { S };

    ghost view = { λ h. h.boxed };
}

impl<S> Held<S> {
    ghost use Rattle.own_lock.specs.contracts.held.Held.{the_row};

    pub(crate) fn new(boxed: Boxed<S>) -> Held<S>
        ensures { result ≡ boxed }
    {
        Held { boxed }
    }

    pub(crate) fn into_boxed(self) -> Boxed<S>
        ensures { result ≡ self }
    {
        let Held { boxed } = self;
        boxed
    }

    /// The state, to look at.
    pub fn get(&self) -> &S
        ensures { result.now ≡ self.now }
    {
        &self.boxed.at
    }

    /// The state, to change.
    pub fn state(&mut self) -> &mut S
        // What is written through the borrow is what is held afterwards.
        ensures* writes_back { sem 𝓛 (Lends (the_row S.row) S.row self.entry result (λ state. state)) }
        ensures value { result.now ≡ self.old }
    {
        &mut self.boxed.at
    }
}
