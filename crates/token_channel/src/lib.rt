//! The channel between two neighbours: each fork, bottle and request token of the pair is held at one
//! end, or waits there for the other.
//!
//! - A [`Channel`] is one end: a numbered link, and what is held here. [`Channel::send`] moves one
//!   thing from held to waiting; [`Channel::take`] makes held those that it answers, or refuses the
//!   whole frame ([`ChannelFault`]) where it brings what can't come (`is_breach`, in
//!   `specs/Channels.antt`). It is [`Channel::check`] and then [`Channel::accept`], which an office calls apart.
//! - Whatever bytes came, each thing of the pair is held here, or waits here once, or neither
//!   (`IsApart`, in the same file; clauses `apart` and `few` of [`Channel::waiting`]). So at most
//!   `2 + 2B` messages wait where the two share B records ([`laws::few_wait`]), and with at most 8 of
//!   them the link's 18 places are enough.
//! - [`laws`] says what a channel opens with, that of a frame that isn't refused what it brings is
//!   held, and all else as before, and that what is shared stays.
//! - [`waiting_bottle`] tells of a bottle that waits (`specs/WaitingBottle.antt`).
//! - A [`Thing`] is what a message carries (`specs/Things.antt`).
//!
//! No call takes memory but [`Channel::open`]. It stands on `window_link`, `frame_codec` and `office_map`.
//!
//! Why 18 places are enough: the 2 + 2B things of a pair are the fork, each bottle, and a request token of each; a
//! thing waits only where it isn't held, and waits once; and B is at most 8. A message that would break this is refused
//! with its whole frame, so it holds of lying peers too.
//!
//! Not said: that what is sent comes; that the peer had it, since a lying peer may send what it doesn't have; anything
//! of both ends together.
#![tactic(auto)]

mod channel;
mod fault;
pub mod laws;
mod messages;
mod places;
mod taken;
mod thing;
mod waiting;

pub use channel::Channel;
pub use fault::ChannelFault;
pub use messages::Messages;
pub use taken::Taken;
pub use thing::{SharedThing, Thing};
pub use waiting::waiting_bottle;
