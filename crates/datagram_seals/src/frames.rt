//! Frames under a seal, which who has no secret can't make: a datagram is a frame's bytes, and behind them the first 16 bytes
//! of the frame's HMAC-SHA-256 under a secret that two neighbours share.
//!
//! - [`hmac`] is HMAC-SHA-256 (RFC 2104; `specs/frames/Hmac.antt`) over the kit's SHA-256, whose definition is the standard's.
//! - A [`Secret`] is made of a key of any length. [`Secret::seal`] writes a frame and its seal (clause `written`), and
//!   [`Secret::open`] hands out the frame of a datagram exactly where the datagram is that frame with its seal behind it
//!   (clauses `opened` and `no_frame`).
//! - [`laws`] says that a datagram is the sealed form of one frame at most, and that a frame which was opened was sealed by one
//!   who has the secret, or the datagram is a forgery (`IsForgery`, in `specs/frames/SealLaws.antt`).
//!
//! Two seals are compared to their ends: what the comparison answers has every bit that differs at any of the 16 places
//! (`differing_bits`). No call takes memory.
//!
//! Not said: that forgeries are hard to find, which nobody has proved; how long a comparison takes on a processor; that a
//! secret's bytes are overwritten when it is dropped.

mod digest;
pub mod laws;
mod secret;

pub use crate::frames::digest::hmac;
pub use crate::frames::secret::{MAX_SEALED_BYTES, SEAL_BYTES, Secret};
