//! Numbered links between two offices: a sliding window of messages that wait, with cumulative
//! acknowledgement. Frames may be lost, repeated and reordered; what is taken begins what was sent.
//!
//! - A [`Link`] is one end. It numbers the messages that are queued, makes their frames anew at each
//!   sending, and says of a frame that comes whether it brings the next message ([`Arrival`]) or why
//!   it is refused ([`LinkFault`]). A message up to 18 past the taken ones is kept until its turn comes:
//!   the caller takes it, or throws it out. Contracts see it as `LinkState`, in `specs/Links.antt`; what a
//!   frame does is `fault_of`, `arrival_at` and `after_arrival` there.
//! - [`laws`] has both ends and every frame that they made. Over every list of events what is taken
//!   begins what was sent, what is acknowledged was taken, and the rest waits (`HasLawfulStreams`, in
//!   `specs/Two.antt`, over the streams of `specs/Streams.antt`).
//!
//! What waits is what frames of the link's version can carry (`are_carried`, in `specs/Windows.antt`): [`Link::queue`] asks that
//! of its message, and [`Link::carries`] tells it.
//!
//! `sending` and `receiving` are the two windows of an end: what waits and what is kept lie in vectors of fixed room, in
//! order. No call of [`Link`] takes memory. It stands on `frame_codec`, and on the kit's `arrayvec`.
//!
//! A frame's count is used first, whatever the frame brings; then its message is taken, where its number is the next
//! one. One that is kept follows once those before it are taken: on a network that reorders, it isn't sent again. One
//! further ahead is dropped. So loss, repetition and reordering end here. A link keeps two numbers, the messages that
//! wait, and what is kept of the numbers ahead up to the furthest; neither window knows of the other.
//!
//! Not said: what [`Link::queue`] does where no place is free (`has_room` is a condition); that a frame was made by the
//! peer, since a forged one that passes `check` is taken; that the caller takes what is kept; that anything arrives.
//! The laws are of the frames that the two ends made, and start from [`Link::open`], not from [`Link::resume`].
#![tactic(auto)]

mod arrival;
mod fault;
mod front;
pub mod laws;
mod link;
mod receiving;
mod sending;
mod waiting;

pub use arrival::Arrival;
pub use fault::LinkFault;
pub use link::Link;
pub use receiving::MAX_KEPT;
pub use waiting::{MAX_WAITING, Waiting};
