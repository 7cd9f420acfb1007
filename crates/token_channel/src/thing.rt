//! What a pair of neighbours shares.

ghost use Rattle.std.specs.Prelude.{◌≡◌};
ghost use Rattle.token_channel.specs.Things.{same, thing_of};
ghost use Rattle.token_channel.specs.Places.{with_held};

use frame_codec::Msg;

/// A thing that is at one end of a pair or on its way to the other. A bottle is named by its record's
/// number.
#[derive(Clone, Copy, Debug, PartialEq, Eq)]
pub enum Thing {
    Fork,
    ForkToken,
    Bottle(u16),
    BottleToken(u16),
}

impl Thing {
    /// The thing that a message carries.
    pub fn of(msg: Msg) -> Thing
        ensures { result ≡ thing_of msg }
    {
        match msg {
            Msg::AskFork => Thing::ForkToken,
            Msg::Fork => Thing::Fork,
            Msg::AskBottle(bottle) => Thing::BottleToken(bottle),
            Msg::Bottle(bottle, _) => Thing::Bottle(bottle),
        }
    }

    /// Whether the two are one.
    pub fn is(self, other: Thing) -> bool
        ensures { result ≡ same self other }
    {
        match (self, other) {
            (Thing::Fork, Thing::Fork) | (Thing::ForkToken, Thing::ForkToken) => true,
            (Thing::Bottle(a), Thing::Bottle(b)) => a == b,
            (Thing::BottleToken(a), Thing::BottleToken(b)) => a == b,
            _ => false,
        }
    }
}

/// A thing of the pair, and whether it is held at this end.
#[derive(Clone, Copy, PartialEq, Eq)]
pub struct SharedThing {
    pub thing: Thing,
    pub held: bool,
}

impl SharedThing {
    /// The same, with `held` where it is this thing's place.
    pub fn with_held(self, thing: Thing, held: bool) -> SharedThing
        ensures { result ≡ with_held thing held self }
    {
        if self.thing.is(thing) {
            return SharedThing { held, ..self };
        }
        self
    }
}
