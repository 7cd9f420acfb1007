//! What is wrong with bytes that are no frame.

ghost use Rattle.std.specs.Prelude.{◌≡◌, Some};
ghost use Rattle.frame_codec.specs.FaultText.{fault_text};

use std::fmt;
use thiserror::Error;

/// Why bytes are no frame: the first of these that applies, in this order.
#[derive(Clone, Copy, Debug, PartialEq, Eq, Error)]
pub enum FrameFault {
    /// Fewer than 26 bytes.
    Short,
    /// The first two bytes aren't `44 50`.
    Magic,
    /// The version is neither 01 nor 02.
    Version,
    /// The kind is neither data nor acknowledgement.
    Kind,
    /// A data frame's number isn't from 1 to `MAX_NUMBER`, or an acknowledgement's isn't 0.
    Number,
    /// The count is above `MAX_NUMBER`.
    Count,
    /// A data frame's tag is none of 01 to 04.
    Tag,
    /// In version 02 the byte behind a bottle's record is no form of a value, or a text's length is above 64.
    ValueForm,
    /// The frame is longer or shorter than its version, kind, tag and form say.
    Length,
    /// A byte of a text is none that may stand in one.
    TextByte,
}

impl FrameFault {
    /// Its code and its name.
    pub fn text(self) -> &'static str
        ensures { result.now ≡ fault_text self }
    {
        match self {
            FrameFault::Short => "F1 Short",
            FrameFault::Magic => "F2 Magic",
            FrameFault::Version => "F3 Version",
            FrameFault::Kind => "F4 Kind",
            FrameFault::Number => "F5 Number",
            FrameFault::Count => "F6 Count",
            FrameFault::Tag => "F7 Tag",
            FrameFault::ValueForm => "F9 ValueForm",
            FrameFault::Length => "F8 Length",
            FrameFault::TextByte => "F10 TextByte",
        }
    }
}

impl fmt::Display for FrameFault {
    ghost output = { λ x. Some (fault_text x) };

    fn fmt<W: fmt::Write>(&self, f: &mut fmt::Formatter<W>) -> fmt::Result {
        let fault = *self;
        f.write_str(fault.text())
    }
}
