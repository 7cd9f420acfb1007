//! The sessions that an office has left: those that were submitted, and have neither finished nor been withdrawn.
//!
//! - [`sessions_left`] answers them in order of ticket, with their programs (`specs/left/Left.antt`). They are those of the submitted
//!   sessions that have no outcome and weren't withdrawn ([`laws::nothing_is_lost_or_twice`]).
//! - [`add_left`] adds their texts to a text, and [`add_program`] that of one session. Where all of them are within the limits of a text of sessions, they are read as these
//!   sessions ([`laws::texts_are_read_in_turn`]).
//!
//! An office keeps these sessions, but shows how many they are alone. So they are found in its journal, in one walk, which keeps no
//! more of them than an office takes.
//!
//! Not said: how many they are, and how long their texts; that a session which is submitted again does what it would have done.

pub mod laws;
mod left;
mod texts;

pub use crate::left::left::sessions_left;
pub use crate::left::texts::{add_left, add_program};
