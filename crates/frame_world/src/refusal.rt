//! Why an event of a world is refused.

ghost use Rattle.std.specs.Prelude.{◌≡◌, Some};
ghost use Rattle.frame_world.specs.RefusalText.{refusal_text};

use std::fmt;
use thiserror::Error;

/// Why an event is refused. A refused event leaves the world as it was.
#[derive(Clone, Copy, Debug, PartialEq, Eq, Error)]
pub enum WorldRefusal {
    /// So many frames weren't sent.
    NoFrame,
    /// The plan doesn't have this office.
    NoOffice,
    /// The office refuses it.
    Office(site_core::Refusal),
}

impl WorldRefusal {
    /// Its code and its name.
    pub fn text(self) -> &'static str
        ensures { result.now ≡ refusal_text self }
    {
        match self {
            WorldRefusal::NoFrame => "N1 NoFrame",
            WorldRefusal::NoOffice => "N2 NoOffice",
            WorldRefusal::Office(refusal) => refusal.text(),
        }
    }
}

impl fmt::Display for WorldRefusal {
    ghost output = { λ x. Some (refusal_text x) };

    fn fmt<W: fmt::Write>(&self, f: &mut fmt::Formatter<W>) -> fmt::Result {
        let fault = *self;
        f.write_str(fault.text())
    }
}
