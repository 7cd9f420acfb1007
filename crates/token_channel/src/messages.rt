//! Messages that are taken with a frame.

ghost use Rattle.std.specs.Prelude.{◌≡◌, ◌≤◌, ◌<◌, ◌++◌, ◌∷◌, [], length};

use arrayvec::ArrayVec;
use bottle_values::Value;
use frame_codec::Msg;
use std::marker::Model;
use window_link::MAX_KEPT;

/// At most as many messages as a link takes with one frame, in order. Contracts see the list.
#[derive(Debug, Drop)]
pub struct Messages {
    messages: ArrayVec<Msg, MAX_KEPT>,
}

impl Model for Messages {
    ghost use Rattle.std.specs.Prelude.{List};
    ghost use Rattle.frame_codec.specs.declared.message.Msg.{Msg};

    ghost Value = { List Msg };

    ghost view = { λ m. m.messages.items };
}

impl Messages {
    /// None.
    pub fn none() -> Messages
        ensures { result ≡ [] }
    {
        Messages {
            messages: ArrayVec::new(),
        }
    }

    /// All of them.
    pub fn as_slice(&self) -> &[Msg]
        ensures { result.now ≡ self.now }
    {
        self.messages.as_slice()
    }

    /// None is left.
    pub(crate) fn clear(&mut self)
        ensures { self.new ≡ [] }
    {
        self.messages.clear();
    }

    /// One more, behind the others.
    pub(crate) fn push(&mut self, msg: Msg)
        requires { length self.old < MAX_KEPT }
        ensures { self.new ≡ self.old ++ msg ∷ [] }
    {
        // Names the type of what a bottle holds: else the check isn't told of it where a message is moved.
        let _: Option<Value> = None;
        self.messages.push(msg);
    }
}
