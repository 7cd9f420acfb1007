//! What an office answers to what a client asks.
//!
//! - [`answer`] answers one thing that is asked, by one line: a session is submitted, under the next ticket or under its own; a
//!   ticket that was given is looked up; a record's value is looked at; or it is said what can't be read (`Answers`, in
//!   `specs/answers/Answers.antt`; the lines, in the form that is asked for, are those of `specs/answers/Said.antt`). Where the office's queue is full
//!   nothing is answered, and it can be asked again.
//! - A session under a ticket is submitted once, however often it is asked for, in this life of the office or a later one, whose
//!   journal goes on from what stood ([`laws::tickets_are_safe`]).
//!
//! It stands on `site_core`, whose journal is all that an office knows of tickets, and on `session_streams::requests`. Not said: when a line
//! may go out; it rests on the office's journal as it is now.

mod answering;
mod lack;
pub mod laws;
mod said;

pub use crate::answers::answering::answer;
pub use crate::answers::lack::Lack;
pub use crate::answers::said::add_ready;
