//! How far an office is with its current session.

ghost use Rattle.std.specs.Prelude.{◌≡◌};

/// An office has no session, or one that waits for its bottles, or one that works.
#[derive(Clone, Copy, PartialEq, Eq)]
pub enum Phase {
    Tranquil,
    Thirsty,
    Drinking,
}

impl Phase {
    ghost use Rattle.drinking_core.specs.Drinkers.{is_tranquil, is_thirsty, is_drinking};

    pub fn is_tranquil(self) -> bool
        ensures { result ≡ is_tranquil self }
    {
        matches!(self, Phase::Tranquil)
    }

    pub fn is_thirsty(self) -> bool
        ensures { result ≡ is_thirsty self }
    {
        matches!(self, Phase::Thirsty)
    }

    pub fn is_drinking(self) -> bool
        ensures { result ≡ is_drinking self }
    {
        matches!(self, Phase::Drinking)
    }
}
