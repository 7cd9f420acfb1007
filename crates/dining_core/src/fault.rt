//! What a rule refuses.

ghost use Rattle.std.specs.Prelude.{◌≡◌, Some};
ghost use Rattle.dining_core.specs.FaultText.{not_now_text};

use std::fmt;
use thiserror::Error;

/// The rule's guard is false. Nothing changed.
#[derive(Clone, Copy, Debug, PartialEq, Eq, Error)]
pub struct NotNow;

impl NotNow {
    /// Its code and its name.
    pub fn text(self) -> &'static str
        ensures { result.now ≡ not_now_text }
    {
        "O1 NotNow"
    }
}

impl fmt::Display for NotNow {
    ghost output = { λ _. Some not_now_text };

    fn fmt<W: fmt::Write>(&self, f: &mut fmt::Formatter<W>) -> fmt::Result {
        let fault = *self;
        f.write_str(fault.text())
    }
}
