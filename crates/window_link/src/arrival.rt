//! What a frame brings.

use frame_codec::Msg;

/// What a frame that isn't refused was to the end that it came to.
#[derive(Clone, Copy, Debug, PartialEq, Eq)]
pub enum Arrival {
    /// An acknowledgement, without a message.
    Acked,
    /// The next message; it is taken.
    Fresh(Msg),
    /// A message that was taken before.
    Repeat,
    /// A message that is ahead of the next one; it is kept until the ones before it are taken, or was kept
    /// already.
    Kept,
    /// A message that is too far ahead to be kept; it is dropped.
    Early,
}
