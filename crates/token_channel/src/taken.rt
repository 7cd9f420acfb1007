//! What was taken with a frame.

use crate::messages::Messages;

/// What a frame that isn't refused was, with all that is taken with it.
#[derive(Debug, Drop)]
pub enum Taken {
    /// An acknowledgement, without a message.
    Acked,
    /// The next message, and after it those that were kept, up to the first gap. All are taken.
    Fresh(Messages),
    /// A message that was taken before.
    Repeat,
    /// A message that is ahead of the next one; it is kept.
    Kept,
    /// A message that is too far ahead; it is dropped.
    Early,
}
