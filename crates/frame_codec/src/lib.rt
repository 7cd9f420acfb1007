//! Frames of the link between two neighbouring offices, and their bytes on the wire.
//!
//! - A [`Frame`] is data, with a numbered message, or an acknowledgement. Its type keeps each field
//!   in the format's range, and that one of version 01 carries no text (`IsFrame`, in
//!   `specs/Frame.antt`). [`Frame::equals`] and [`Msg::equals`] compare what they say.
//! - [`decode`] answers a frame exactly where the grammar relates all of the bytes and that frame
//!   (its clauses `found` and `only`; the grammar is `Spells`, in `specs/Spelling.antt`), and else
//!   the first fault that applies (`fault`; the list is `has`, in the same file).
//! - [`encode`] writes the one spelling of the frame (`spelled`, `length`) and leaves the rest of the
//!   buffer (`rest`).
//! - [`laws`] says of the grammar alone that no spelling begins another, that each frame has one
//!   spelling, and that each spelling is of one frame.
//!
//! The two versions differ in the third byte and in how a value is spelled, which is told in `body`. No call takes
//! memory. It stands on `byteorder` and `bottle_values`.
//!
//! Not said: anything of other versions, but that they are refused (F3); that a frame's version, run and offices are
//! those of a plan.
#![tactic(auto)]

mod body;
mod fault;
mod frame;
mod header;
pub mod laws;
mod message;
mod spelling;

pub use fault::FrameFault;
pub use frame::{Frame, MAX_NUMBER};
pub use message::Msg;
pub use spelling::{MAX_LENGTH, decode, encode};
