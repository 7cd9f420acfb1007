//! What an office has of its pair with another.

ghost use Rattle.std.specs.Prelude.{◌≡◌, ◌&&◌, not};
ghost use Rattle.dining_core.specs.refinement.Tables.{is_held, is_clean, used};

/// Where the fork of a pair is, as one of its offices sees it.
#[derive(Clone, Copy, PartialEq, Eq)]
pub enum Fork {
    /// It isn't here.
    Away,
    /// It is here, and was used since it came.
    Dirty,
    /// It is here, and wasn't used since it came.
    Clean,
}

impl Fork {
    pub fn is_held(self) -> bool
        ensures { result ≡ is_held self }
    {
        !matches!(self, Fork::Away)
    }

    pub fn is_clean(self) -> bool
        ensures { result ≡ is_clean self }
    {
        matches!(self, Fork::Clean)
    }

    /// The fork once its office ate.
    pub fn used(self) -> Fork
        ensures { result ≡ used self }
    {
        match self {
            Fork::Clean => Fork::Dirty,
            other => other,
        }
    }
}

/// The fork of a pair, and whether its request token is here.
#[derive(Clone, Copy, PartialEq, Eq)]
pub struct SharedFork {
    pub fork: Fork,
    pub token: bool,
}

impl SharedFork {
    /// Whether the fork is elsewhere, and may be asked for.
    pub fn is_askable(self) -> bool
        ensures { result ≡ (not (is_held self.fork) && self.token) }
    {
        !self.fork.is_held() && self.token
    }

    /// Whether the fork is here, was used, and is asked for.
    pub fn is_owed(self) -> bool
        ensures { result ≡ (self.token && (is_held self.fork && not (is_clean self.fork))) }
    {
        self.token && matches!(self.fork, Fork::Dirty)
    }
}
