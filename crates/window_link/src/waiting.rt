//! The messages of an end that wait.

ghost use Rattle.std.specs.Prelude.{◌≡◌, ◌<◌, ◌≤◌, ◌++◌, ◌∷◌, [], length, drop, slice_get, Some};

use crate::front::drop_front;
use arrayvec::ArrayVec;
use bottle_values::Value;
use frame_codec::Msg;
use std::marker::Model;

/// How many messages may wait for acknowledgement.
pub const MAX_WAITING: usize = 18;

/// Messages that wait, the oldest first. Contracts see the list.
///
/// Nothing moves when the oldest leave: they stay in front of the others until there is no place behind those.
#[derive(Drop)]
pub struct Waiting {
    messages: ArrayVec<Msg, MAX_WAITING>,
    // So many in front wait no more.
    gone: usize,
}

impl Model for Waiting {
    ghost use Rattle.std.specs.Prelude.{List, ◌≤◌, length, drop};
    ghost use Rattle.frame_codec.specs.declared.message.Msg.{Msg};
    ghost use Rattle.window_link.specs.Limits.{most_waiting};

    ghost Value = { List Msg };

    ghost view = { λ w. drop w.gone w.messages.items };

    ghost invariant = { λ w. (w.gone ≤ length w.messages.items) × (length w.messages.items ≤ most_waiting) };
}

impl Waiting {
    /// None waits.
    pub(crate) fn none() -> Waiting
        ensures { result ≡ [] }
    {
        Waiting {
            messages: ArrayVec::new(),
            gone: 0,
        }
    }

    /// How many wait.
    pub fn len(&self) -> usize
        ensures len { result ≡ length self.now }
        ensures few { length self.now ≤ MAX_WAITING }
    {
        self.messages.len() - self.gone
    }

    /// The message after so many older ones.
    pub fn message(&self, i: usize) -> Msg
        requires { i < length self.now }
        ensures { slice_get self.now i ≡ Some result }
    {
        self.messages[self.gone + i]
    }

    /// One message more waits.
    pub(crate) fn push(&mut self, msg: Msg)
        requires { length self.old < MAX_WAITING }
        ensures { self.new ≡ self.old ++ msg ∷ [] }
    {
        // Names the type of what a bottle holds: else the check isn't told of it where a message is moved.
        let _: Option<Value> = None;
        if self.messages.is_full() {
            drop_front(&mut self.messages, self.gone);
            self.gone = 0;
        }
        self.messages.push(msg);
    }

    /// So many of the oldest wait no more.
    pub(crate) fn drop_oldest(&mut self, many: usize)
        requires { many ≤ length self.old }
        ensures { self.new ≡ drop many self.old }
    {
        self.gone += many;
    }
}
