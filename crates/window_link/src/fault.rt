//! What a link refuses.

ghost use Rattle.std.specs.Prelude.{◌≡◌, Some};
ghost use Rattle.window_link.specs.FaultText.{fault_text};

use std::fmt;
use thiserror::Error;

/// Why a frame isn't taken, or a message isn't queued.
#[derive(Clone, Copy, Debug, PartialEq, Eq, Error)]
pub enum LinkFault {
    /// The frame is of another run, or doesn't go from the peer to this end.
    Stranger,
    /// The frame is of another version than this end.
    WrongVersion,
    /// The frame's count is past the last number that was used.
    AckAhead,
    /// The greatest number was used.
    Worn,
}

impl LinkFault {
    /// Its code and its name.
    pub fn text(self) -> &'static str
        ensures { result.now ≡ fault_text self }
    {
        match self {
            LinkFault::Stranger => "L1 Stranger",
            LinkFault::WrongVersion => "L4 WrongVersion",
            LinkFault::AckAhead => "L2 AckAhead",
            LinkFault::Worn => "L3 Worn",
        }
    }
}

impl fmt::Display for LinkFault {
    ghost output = { λ x. Some (fault_text x) };

    fn fmt<W: fmt::Write>(&self, f: &mut fmt::Formatter<W>) -> fmt::Result {
        let fault = *self;
        f.write_str(fault.text())
    }
}
