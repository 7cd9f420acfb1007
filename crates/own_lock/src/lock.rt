//! The lock.

ghost use Rattle.std.specs.Prelude.{◌≡◌, ◌<◌, ◌≤◌, ◌∷◌, ◌++◌, [], List, ℕ, true, false, Some, None, IfOk, IfErr, IfSome};
ghost use mathlib.Core.List.{IsPrefix};
ghost use Rattle.own_lock.specs.Entries.{longer, tagged, AddsOnly};
ghost use Rattle.own_lock.specs.Rule.{room, place};
ghost use Rattle.own_lock.specs.Passes.{IsOf, AreFresh, AreIdle, pass_after_take, pass_after_give};

use crate::boxed::Boxed;
use crate::held::Held;
use crate::kept::Kept;
use crate::pass::Pass;
use crate::places::{PLACE, ROOM, free_rest, slots_with};
use crate::seat_view::{Opening, SeatView};
use crate::table_rule::{Deal, GiveBack, History, Press, Tell, Together, Try};
use crate::waking::Waiters;
use atomic_table::{Seat, Table};
use std::alloc::{AllocError, Global};
use std::marker::Model;
use std::snapshot::Snapshot;
use std::sync::Wait;
use std::thread::yield_now;
use thiserror::Error;

// The words of the lock's table: nobody holds the state, a pass does, or a pass does and others may wait.
pub(crate) const FREE: u64 = 0;

pub(crate) const TAKEN: u64 = 1;

pub(crate) const AWAITED: u64 = 2;

// How often a pass tries before it waits.
const TRIES: u32 = 20;

/// A lock round a state. Contracts see which lock it is, and the state's key.
#[derive(Drop)]
pub struct OwnLock<S: Kept> {
    pub(crate) table: Table<
        Option<Boxed<S>>,
        SeatView<S::Key, S::Entry>,
        Opening<S>,
        History<S>,
        Global,
    >,
    pub(crate) waiters: Waiters,
}

impl<S: Kept> Model for OwnLock<S> {
    ghost use Rattle.std.specs.Prelude.{◌≡◌};
    ghost use Rattle.own_lock.specs.Passes.{LockView};
    ghost use Rattle.own_lock.specs.Rule.{room};

    ghost Value = { LockView S.Key };

    ghost view = { λ l. record { name = l.table.shared.table_id; key = S.key l.table.shared.key.state.value } };

    ghost invariant = { λ l. (l.table.shared.table_id.words ≡ room) × (l.table.shared.table_id.slots ≡ room) × (l.waiters ≡ l.table.shared.key.passes) };
}

/// Another pass holds the state. Nothing changed.
///
/// That somebody held the state at that moment can't be told from what the call leaves, nor of the `None` of `close`. A
/// contract could only say that there is some table under the rule where another pass holds, and one can always be
/// thought up.
#[derive(Clone, Copy, Debug, PartialEq, Eq, Error)]
#[error("Busy")]
pub struct Busy;

impl<S: Kept> OwnLock<S> {
    /// A lock round this state, and passes with the tags from 0 on, which have seen its entries.
    ///
    /// `idle` follows from `fresh`, but a caller that takes passes out of their list needs just that.
    ///
    /// # Errors
    /// Where memory runs out, the state is dropped.
    pub fn open(
        alloc: Global,
        state: S,
        passes: u8,
    ) -> Result<(OwnLock<S>, Vec<Pass<S>>), AllocError>
        requires some { 0 < passes }
        requires few { passes ≤ 16 }
        requires fits { S.fits state }
        ensures key { IfOk result (λ r. r.0.key ≡ S.key state) }
        ensures fresh { IfOk result (λ r. AreFresh r.0 S.tag_of (S.entries state) passes r.1.items) }
        ensures idle { IfOk result (λ r. AreIdle r.0 r.1.items) }
    {
        let opening = Opening {
            state: Snapshot::of(&state),
            passes,
        };
        let boxed = Boxed::new(alloc, state)?;
        let slots = slots_with(alloc, boxed)?;
        let Ok((table, mut seat)) = Table::new(alloc, &[FREE; ROOM], slots, &opening) else {
            return Err(AllocError);
        };
        let mut all = Vec::new(alloc);
        let mut waiters = Waiters::new(alloc);
        for tag in 0..passes - 1 {
            let next = table.shared.split_seat::<Deal>(&mut seat);
            let parker = waiters.parker(alloc)?;
            all.push(Pass {
                tag,
                seat: next,
                parker,
            })?;
        }
        let tag = passes - 1;
        let parker = waiters.parker(alloc)?;
        all.push(Pass { tag, seat, parker })?;
        Ok((OwnLock { table, waiters }, all))
    }

    /// Takes the state. While another pass holds it, waits.
    #[inline(always)]
    pub fn take<R: Wait>(&self, rt: &R, pass: &mut Pass<S>) -> Held<S>
        requires of { IsOf self.now pass.old }
        requires idle { pass.old.holds ≡ false }
        ensures taken { pass.new ≡ pass_after_take pass.old (S.entries result) }
        ensures begins { IsPrefix pass.old.seen (S.entries result) }
        ensures mine { tagged S.tag_of pass.old.tag (S.entries result) ≡ pass.old.mine }
        ensures fits { S.fits result }
        ensures key { S.key result ≡ self.now.key }
    {
        match self.try_take(pass) {
            Ok(held) => held,
            Err(Busy) => self.take_later(rt, pass),
        }
    }

    // Takes the state once a try found it taken: it tries a while, since most holdings are shorter than a sleep, and then
    // waits among those that are woken.
    //
    // No wake is lost. A pass that parks has entered itself, set the word to 2 and found the state taken, in this order.
    // From then on, until it is woken, the word is 2, or somebody owes a wake: who gave the state back, found 2 and hasn't
    // woken anybody yet, or who was woken and hasn't set the word since.
    // - The word goes from 2 to 0 alone, at a giving back that finds 2: others set it to 2 as well, or change it only where
    //   it is 0 (`WordLeftIsFound`). Who gives back so looks for those that wait only afterwards, and sees the pass that
    //   parks: it entered before it set the word, and leaves once it holds.
    // - One that is woken finds a token at its parker, whether it has parked already or is about to, and sets the word next.
    //   Either it finds the state taken, or it holds: the word is 2.
    // - If the one that is woken took the state meanwhile, between the look for those that wait and the wake, it did so by
    //   setting the word to 2. From there on all of this holds without that wake: the word is 2 until its own giving back
    //   finds that, and owes a wake in its turn. The token is left over, and lets it look once more when it waits again.
    // - A pass that tries and takes the state before the one that was woken sets the word to 1, and owes nothing if it finds
    //   1 as it gives the state back: the other still does.
    // So while holders give back and threads run, one of those that wait looks again. It may find the state taken by one
    // that tried, time and again: who is first isn't said.
    #[cold]
    #[inline(never)]
    fn take_later<R: Wait>(&self, rt: &R, pass: &mut Pass<S>) -> Held<S>
        requires of { IsOf self.now pass.old }
        requires idle { pass.old.holds ≡ false }
        ensures taken { pass.new ≡ pass_after_take pass.old (S.entries result) }
        ensures begins { IsPrefix pass.old.seen (S.entries result) }
        ensures mine { tagged S.tag_of pass.old.tag (S.entries result) ≡ pass.old.mine }
        ensures fits { S.fits result }
        ensures key { S.key result ≡ self.now.key }
    {
        for _ in 0..TRIES {
            yield_now();
            if let Ok(held) = self.try_take(pass) {
                return held;
            }
        }
        self.waiters.enter(pass.tag);
        for _ in rt.forever() {
            if let Ok(held) = self.press(pass) {
                self.waiters.leave(pass.tag);
                return held;
            }
            pass.parker.park(rt);
        }
        unreachable!()
    }

    // Takes the state if nobody holds it, and else leaves word that a pass waits.
    pub(crate) fn press(&self, pass: &mut Pass<S>) -> Result<Held<S>, Busy>
        requires of { IsOf self.now pass.old }
        requires idle { pass.old.holds ≡ false }
        ensures taken { IfOk result (λ held. pass.new ≡ pass_after_take pass.old (S.entries held)) }
        ensures begins { IfOk result (λ held. IsPrefix pass.old.seen (S.entries held)) }
        ensures mine { IfOk result (λ held. tagged S.tag_of pass.old.tag (S.entries held) ≡ pass.old.mine) }
        ensures fits { IfOk result (λ held. S.fits held) }
        ensures key { IfOk result (λ held. S.key held ≡ self.now.key) }
        ensures busy { IfErr result (λ _. pass.new ≡ pass.old) }
    {
        let seat = &mut pass.seat;
        let before = self.table.shared.swap::<Press<S>>(seat, PLACE, AWAITED);
        if before != FREE {
            return Err(Busy);
        }
        Ok(self.lift(seat))
    }

    /// Takes the state if nobody holds it.
    ///
    /// # Errors
    /// `Busy` where another pass holds it.
    #[inline(always)]
    pub fn try_take(&self, pass: &mut Pass<S>) -> Result<Held<S>, Busy>
        requires of { IsOf self.now pass.old }
        requires idle { pass.old.holds ≡ false }
        ensures taken { IfOk result (λ held. pass.new ≡ pass_after_take pass.old (S.entries held)) }
        ensures begins { IfOk result (λ held. IsPrefix pass.old.seen (S.entries held)) }
        ensures mine { IfOk result (λ held. tagged S.tag_of pass.old.tag (S.entries held) ≡ pass.old.mine) }
        ensures fits { IfOk result (λ held. S.fits held) }
        ensures key { IfOk result (λ held. S.key held ≡ self.now.key) }
        ensures busy { IfErr result (λ _. pass.new ≡ pass.old) }
    {
        let seat = &mut pass.seat;
        let found = self
            .table
            .shared
            .compare_exchange::<Try<S>>(seat, PLACE, FREE, TAKEN);
        if found != FREE {
            return Err(Busy);
        }
        Ok(self.lift(seat))
    }

    // The state, out of the slot that the seat has taken.
    #[inline(always)]
    fn lift(&self, seat: &mut Seat<Option<Boxed<S>>, SeatView<S::Key, S::Entry>>) -> Held<S>
        requires of { seat.old.table_id ≡ self.now.name }
        requires full { (x : S) × (seat.old.me.1 ≡ (place, Some x) ∷ []) }
        ensures same { (seat.new.table_id ≡ seat.old.table_id) × (seat.new.id ≡ seat.old.id) }
        ensures lifted { seat.old.me.1 ≡ (place, Some result) ∷ [] }
        ensures empty { seat.new.me ≡ (seat.old.me.0, (place, None) ∷ []) }
    {
        let Some(boxed) = self.table.shared.exchange(seat, PLACE, None) else {
            unreachable!()
        };
        Held::new(boxed)
    }

    /// Puts the state back. The entries that were added to it are the pass's own.
    #[inline(always)]
    pub fn give(&self, pass: &mut Pass<S>, held: Held<S>)
        requires of { IsOf self.now pass.old }
        requires holds { pass.old.holds ≡ true }
        requires fits { S.fits held }
        requires key { S.key held ≡ self.now.key }
        requires adds { AddsOnly S.tag_of pass.old.tag pass.old.seen (S.entries held) }
        ensures given { pass.new ≡ pass_after_give S.tag_of pass.old (S.entries held) }
        ensures mine { (added : List S.Entry) → pass.old.seen ++ added ≡ S.entries held → pass.new.mine ≡ pass.old.mine ++ added }
    {
        let boxed = held.into_boxed();
        let None = self
            .table
            .shared
            .exchange(&mut pass.seat, PLACE, Some(boxed))
        else {
            unreachable!()
        };
        let found = self
            .table
            .shared
            .swap::<GiveBack<S>>(&mut pass.seat, PLACE, FREE);
        if found == AWAITED {
            self.waiters.wake_after(pass.tag);
        }
    }

    /// The second pass learns what the first one has seen: one of them has seen the beginning of what the
    /// other has, and the longer list is the second one's now. The first one is given up.
    pub fn meet(&self, first: Pass<S>, second: &mut Pass<S>)
        requires first_of { IsOf self.now first }
        requires second_of { IsOf self.now second.old }
        requires first_idle { first.holds ≡ false }
        requires second_idle { second.old.holds ≡ false }
        ensures seen { second.new ≡ record second.old { seen = longer second.old.seen first.seen } }
        ensures first { IsPrefix first.seen second.new.seen }
        ensures second { IsPrefix second.old.seen second.new.seen }
        ensures first_mine { tagged S.tag_of first.tag second.new.seen ≡ first.mine }
        ensures mine { tagged S.tag_of second.old.tag second.new.seen ≡ second.old.mine }
    {
        let Pass {
            tag: _,
            seat,
            parker: _,
        } = first;
        self.table
            .shared
            .join_seat::<Together>(&mut second.seat, seat);
        self.table.shared.load::<Tell<S>>(&mut second.seat, PLACE);
    }

    /// Ends the lock, and gives its state. There is none where a pass holds it.
    pub fn close(self, pass: Pass<S>) -> Option<S>
        requires of { IsOf self pass }
        ensures fits { IfSome result (λ state. S.fits state) }
        ensures key { IfSome result (λ state. S.key state ≡ self.key) }
        ensures begins { IfSome result (λ state. IsPrefix pass.seen (S.entries state)) }
        ensures mine { IfSome result (λ state. tagged S.tag_of pass.tag (S.entries state) ≡ pass.mine) }
    {
        let OwnLock { table, waiters: _ } = self;
        let Pass {
            tag: _,
            seat,
            parker: _,
        } = pass;
        let mut closed = table.close_with(seat);
        let word = closed.word(PLACE);
        let state = closed.take(PLACE);
        free_rest(closed);
        match state {
            Some(boxed) if word == FREE => Some(boxed.into_state()),
            _ => None,
        }
    }
}
