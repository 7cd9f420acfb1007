//! The rule of the lock's table, and what each of its steps tells.

ghost use Rattle.own_lock.specs.Rule.{LockRule};
ghost use Rattle.own_lock.specs.Steps.{opening_view, without_first, first_alone, joined_view, spent_view};
ghost use Rattle.own_lock.specs.refinement.Plays.{Tried, Pressed, GaveBack, Told};

use crate::boxed::Boxed;
use crate::kept::Kept;
use crate::seat_view::{Opening, SeatView};
use atomic_table::{Join, Play, Split, TableRule};
use std::marker::PhantomData;

/// The history of the lock.
///
/// The history and the holder are 'there is' data of the rule. While a pass holds the state, the history is what that
/// pass has seen; otherwise it is the entries of the state in the slot. Either way the rule gives the list by name.
pub struct History<S> {
    state: PhantomData<S>,
}

impl<S: Kept> TableRule<Option<Boxed<S>>, SeatView<S::Key, S::Entry>, Opening<S>> for History<S> {
    ghost holds = { λ o. LockRule S.tag_of S.key S.entries S.fits (S.key o.state.value) o.passes };

    ghost first = { λ o. opening_view S.tag_of (S.key o.state.value) (S.entries o.state.value) o.passes };
}

/// The first pass at a seat gets a seat of its own.
pub(crate) struct Deal;

impl<K, E> Split<SeatView<K, E>> for Deal {
    ghost left = { without_first };

    ghost right = { first_alone };
}

/// Two passes come to one seat.
pub(crate) struct Together;

impl<K, E> Join<SeatView<K, E>> for Together {
    ghost both = { joined_view };

    ghost spent = { spent_view };
}

/// The word is set to 1 where it was 0.
pub(crate) struct Try<S> {
    state: PhantomData<S>,
}

impl<S: Kept> Play<Option<Boxed<S>>, SeatView<S::Key, S::Entry>> for Try<S> {
    ghost then = { Tried S.tag_of S.key S.entries S.fits };
}

/// The word is set to 2.
pub(crate) struct Press<S> {
    state: PhantomData<S>,
}

impl<S: Kept> Play<Option<Boxed<S>>, SeatView<S::Key, S::Entry>> for Press<S> {
    ghost then = { Pressed S.tag_of S.key S.entries S.fits };
}

/// The holder sets the word to 0.
pub(crate) struct GiveBack<S> {
    state: PhantomData<S>,
}

impl<S: Kept> Play<Option<Boxed<S>>, SeatView<S::Key, S::Entry>> for GiveBack<S> {
    ghost then = { GaveBack S.tag_of S.entries };
}

/// The first of two passes at a seat learns what the second one has seen, and the second is no more.
pub(crate) struct Tell<S> {
    state: PhantomData<S>,
}

impl<S: Kept> Play<Option<Boxed<S>>, SeatView<S::Key, S::Entry>> for Tell<S> {
    ghost then = { Told S.tag_of };
}
