//! Sessions out of lines that come one after another, without end.
//!
//! - A [`SessionReader`] takes a line at a time, and hands out each session at its closing `end` (`hear`, in
//!   `specs/Streams.antt`). A faulty session is told once, with the first line at which that is seen; from there on lines are
//!   passed over up to the next that begins with `session`. Neither the sessions nor the lines have a limit.
//! - Of a text it hands out the text's sessions, and tells its first fault ([`laws::texts_are_heard`],
//!   [`laws::first_faults_are_told`]). What is heard of a session doesn't hang on what came before it
//!   ([`laws::sessions_stand_alone`]).
//!
//! [`requests`]: what a client asks of an office that serves, out of bytes that come as they come, over this reader.
//!
//! It stands on `session_language`, whose reader it is over. Not said: how long a line may be, which is the caller's to
//! bound. After want of memory nobody reads on.
#![tactic(auto)]

pub mod laws;
pub mod requests;
mod stream;

pub use crate::stream::{Heard, SessionReader, begins_session};
