//! The messages of the peer that an end has taken, and those ahead of them that it keeps.

ghost use Rattle.std.specs.Prelude.{◌≡◌, ◌+◌, ◌<◌, ◌≤◌, ◌^◌, None, true, is_some, length, max, replicate};
ghost use Rattle.window_link.specs.Windows.{arrival, received, next_kept, kept_with, keeping, advanced, without_next};
ghost use Rattle.window_link.specs.refinement.Places.{filled};
ghost use Rattle.frame_codec.specs.Limits.{sequence_space};
ghost use Rattle.window_link.specs.Limits.{most_kept};

use crate::arrival::Arrival;
use crate::front::drop_front;
use arrayvec::ArrayVec;
use bottle_values::Value;
use frame_codec::Msg;
use std::marker::Model;

/// How many messages after those that were taken have a place.
pub const MAX_KEPT: usize = 18;

/// How many messages were taken, in order, and what is kept of the ones after them.
///
/// Of the 18 places 17 are used at most: of the next number something is kept only from a frame that made it the next
/// one to the moment in which it is taken or thrown out.
#[derive(Drop)]
pub struct ReceiveWindow {
    taken: u64,
    // First of the next number, then of each further one, up to the furthest that was kept; in front of them is what was
    // kept of so many that were taken.
    ahead: ArrayVec<Option<Msg>, MAX_KEPT>,
    gone: usize,
}

impl Model for ReceiveWindow {
    ghost use Rattle.std.specs.Prelude.{◌+◌, ◌-◌, ◌<◌, ◌≤◌, length, drop};
    ghost use Rattle.window_link.specs.Windows.{Receiving};
    ghost use Rattle.window_link.specs.refinement.Places.{filled};
    ghost use Rattle.frame_codec.specs.Limits.{sequence_space};
    ghost use Rattle.window_link.specs.Limits.{most_kept};

    ghost Value = { Receiving };

    ghost view = { λ w. record { taken = w.taken; kept = filled most_kept (drop w.gone w.ahead.items) } };

    ghost invariant = { λ w. (w.gone ≤ length w.ahead.items) × (length w.ahead.items ≤ most_kept) × (w.taken + (length w.ahead.items - w.gone) < sequence_space) };
}

impl ReceiveWindow {
    /// The messages up to that number were taken, and none is kept.
    pub fn after(taken: u64) -> ReceiveWindow
        requires { taken < sequence_space }
        ensures { result ≡ record { taken = taken; kept = replicate most_kept None } }
    {
        ReceiveWindow {
            taken,
            ahead: ArrayVec::new(),
            gone: 0,
        }
    }

    pub fn taken(&self) -> u64
        ensures value { result ≡ self.now.taken }
        ensures range { result < sequence_space }
    {
        self.taken
    }

    /// Takes the message where its number is the next one, and keeps it where it is one of those after that.
    pub fn receive(&mut self, number: u64, msg: Msg) -> Arrival
        requires { number < sequence_space }
        ensures arrival { result ≡ arrival self.old.taken number msg }
        ensures window { self.new ≡ received self.old number msg }
    {
        if number == self.taken + 1 {
            self.advance();
            return Arrival::Fresh(msg);
        }
        if number <= self.taken {
            return Arrival::Repeat;
        }
        if number > self.taken + MAX_KEPT as u64 {
            return Arrival::Early;
        }
        self.keep(number, msg);
        Arrival::Kept
    }

    /// What is kept of the next number.
    pub fn kept(&self) -> Option<Msg>
        ensures { result ≡ next_kept self.now }
    {
        *self.ahead.get(self.gone)?
    }

    /// What is kept of the next number is taken.
    pub fn accept_kept(&mut self)
        requires { is_some (next_kept self.old) ≡ true }
        ensures { self.new ≡ advanced self.old }
    {
        // What is kept has a number.
        let _ = &self.ahead;
        self.advance();
    }

    /// What is kept of the next number is thrown out.
    pub fn drop_kept(&mut self)
        requires { is_some (next_kept self.old) ≡ true }
        ensures { self.new ≡ without_next self.old }
    {
        self.ahead[self.gone] = None;
    }

    // What was kept of the number stays.
    fn keep(&mut self, number: u64, msg: Msg)
        requires ahead { self.old.taken < number }
        requires near { number ≤ self.old.taken + most_kept }
        requires number { number < sequence_space }
        ensures { self.new ≡ keeping self.old number msg }
    {
        let place = (number - self.taken - 1) as usize;
        drop_front(&mut self.ahead, self.gone);
        self.gone = 0;
        keep_at(&mut self.ahead, place, msg);
    }

    // The next number was taken; nothing is kept of it any more.
    fn advance(&mut self)
        requires { self.old.taken + 1 < sequence_space }
        ensures { self.new ≡ advanced self.old }
    {
        self.taken += 1;
        if self.gone < self.ahead.len() {
            self.gone += 1;
        }
    }
}

// What was kept there stays.
fn keep_at(ahead: &mut ArrayVec<Option<Msg>, MAX_KEPT>, place: usize, msg: Msg)
    requires few { length ahead.old.items ≤ most_kept }
    requires near { place < most_kept }
    ensures kept { filled most_kept ahead.new.items ≡ kept_with (filled most_kept ahead.old.items) place msg }
    ensures len { length ahead.new.items ≡ max (length ahead.old.items) (place + 1) }
{
    reach(ahead, place);
    if ahead[place].is_none() {
        ahead[place] = Some(msg);
    }
}

// There is a place for as many after the next number, from now on.
fn reach(ahead: &mut ArrayVec<Option<Msg>, MAX_KEPT>, place: usize)
    requires few { length ahead.old.items ≤ most_kept }
    requires near { place < most_kept }
    ensures same { filled most_kept ahead.new.items ≡ filled most_kept ahead.old.items }
    ensures len { length ahead.new.items ≡ max (length ahead.old.items) (place + 1) }
{
    // Names the type of what a bottle holds: else the check isn't told of it where a message is moved.
    let _: Option<Value> = None;
    for _ in ahead.len()..place + 1 {
        ahead.push(None);
    }
}
