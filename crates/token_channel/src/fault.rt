//! What a channel refuses.

ghost use Rattle.std.specs.Prelude.{◌≡◌, Some};
ghost use Rattle.token_channel.specs.FaultText.{fault_text};

use std::fmt;
use thiserror::Error;
use window_link::LinkFault;

/// Why a frame isn't taken. Nothing changed, and its count isn't used.
#[derive(Clone, Copy, Debug, PartialEq, Eq, Error)]
pub enum ChannelFault {
    /// The link refuses it.
    Link(LinkFault),
    /// It brings a thing that is held here, or that still waits here, or that isn't the pair's.
    Breach,
}

impl ChannelFault {
    /// Its code and its name.
    pub fn text(self) -> &'static str
        ensures { result.now ≡ fault_text self }
    {
        match self {
            ChannelFault::Link(fault) => fault.text(),
            ChannelFault::Breach => "C1 Breach",
        }
    }
}

impl fmt::Display for ChannelFault {
    ghost output = { λ x. Some (fault_text x) };

    fn fmt<W: fmt::Write>(&self, f: &mut fmt::Formatter<W>) -> fmt::Result {
        let fault = *self;
        f.write_str(fault.text())
    }
}
