//! What a frame can carry.

ghost use Rattle.std.specs.Prelude.{◌≡◌, ◌↔◌, IsTrue};
ghost use Rattle.frame_codec.specs.Frame.{carries};

use bottle_values::{Value, Version};

// The tags, the first byte of each message.
pub const ASK_FORK: u8 = 1;

pub const FORK: u8 = 2;

pub const ASK_BOTTLE: u8 = 3;

pub const BOTTLE: u8 = 4;

/// A message about the fork or one bottle of a pair. A bottle is named by its record's number.
/// The default is what a place for messages holds while it has none.
///
/// A vector of fixed capacity has to fill its unused places. No clause speaks of the default.
#[derive(Clone, Copy, Debug, Default, PartialEq, Eq, Hash)]
pub enum Msg {
    /// The fork's request token.
    #[default]
    AskFork,
    /// The fork.
    Fork,
    /// A bottle's request token.
    AskBottle(u16),
    /// A bottle with the record's value.
    Bottle(u16, Value),
}

impl Msg {
    /// Whether a frame of this version can carry it.
    pub fn is_carried(&self, version: Version) -> bool
        ensures { result ≡ carries version self.now }
    {
        match self {
            Msg::Bottle(_, value) => version.admits(*value),
            _ => true,
        }
    }

    /// Whether two messages are the same.
    pub fn equals(&self, other: &Msg) -> bool
        ensures { IsTrue result ↔ (self.now ≡ other.now) }
    {
        match self {
            Msg::AskFork => match other {
                Msg::AskFork => true,
                _ => false,
            },
            Msg::Fork => match other {
                Msg::Fork => true,
                _ => false,
            },
            Msg::AskBottle(bottle) => match other {
                Msg::AskBottle(another) => *bottle == *another,
                _ => false,
            },
            Msg::Bottle(bottle, value) => match other {
                Msg::Bottle(another, its_value) => {
                    *bottle == *another && value.equals(*its_value)
                }
                _ => false,
            },
        }
    }
}
