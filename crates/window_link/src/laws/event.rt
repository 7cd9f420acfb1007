//! What can happen to two ends, and what they answer.

use crate::arrival::Arrival;
use frame_codec::{Frame, Msg};

/// One end of the two.
#[derive(Clone, Copy, Debug, PartialEq, Eq)]
pub enum End {
    Left,
    Right,
}

/// One thing that happens to two linked ends.
#[derive(Clone, Copy, Debug, PartialEq, Eq)]
pub enum LinkEvent {
    /// That end queues the message.
    Queue(End, Msg),
    /// That end makes the frame of its i-th waiting message, from 1.
    Make(End, usize),
    /// That end makes a frame with its count alone.
    Ack(End),
    /// The k-th frame that was ever made, from 1, comes to the end that it was made for.
    Arrive(usize),
}

/// What an event gives.
#[derive(Clone, Copy, Debug, PartialEq, Eq)]
pub enum LinkReply {
    /// There was nothing to do: no room or number for a message, or one that frames of this version can't carry, no
    /// such waiting message, no such frame.
    Idle,
    /// The message waits.
    Queued,
    /// The frame is the last one that was made.
    Made,
    /// What the frame was to the end that it came to.
    Arrived(Arrival),
}

/// A frame, with the end that made it.
///
/// So it goes to the other end even where both have one number.
#[derive(Clone, Copy, Debug, PartialEq, Eq)]
pub struct Posted {
    pub by: End,
    pub frame: Frame,
}
