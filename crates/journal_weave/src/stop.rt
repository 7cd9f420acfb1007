//! Where an office doesn't follow its journal.

use frame_codec::Frame;

/// What a journal has after the entries that its office gives, where it doesn't end with them.
#[derive(Clone, Copy)]
pub struct Stop {
    /// How many entries the office gives.
    pub given: usize,
    /// The frame that the next one takes, if it is an entry and does.
    pub takes: Option<Frame>,
}
