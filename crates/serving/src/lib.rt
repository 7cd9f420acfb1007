//! An office that serves: it takes sessions while it runs, and tells each result when it stands.
//!
//! - [`serve`] goes on from what the office's store has (`stored_runs`), and answers what a client asks, in rounds: what came is
//!   heard, what was asked is answered, a turn is made (clause `serves`, definitions in `specs/Serving.antt`). So a line that is said
//!   is of entries that stand, and each session that is asked for is submitted once, in order. Lines are in the form that is asked for.
//! - Over all rounds what is asked is answered in the order in which it came, each once, by one line
//!   ([`laws::each_is_answered_once`]), and what finishes is told in its order, each once ([`laws::outcomes_are_told_once`]).
//! - What is answered is `serving::answers`': a session under a ticket is submitted once, however often it is asked for, in this life
//!   of the office or a later one.
//!
//! A client's bytes are read by the thread that turns the office, as far as they are there: so what is asked is what the bytes ask
//! for (`session_streams::requests`), and there is no thread beside it whose end would have to be waited for.
//!
//! Who makes its socket may have a client's bytes end a wait there, as the program does: then a line is heard as it comes. Else it is
//! heard at the next turn.
//!
//! Not said: how soon a line is said; what a client takes.
#![tactic(auto)]

pub mod answers;
mod asking;
mod fault;
mod incoming;
pub mod laws;
mod served;
mod service;
mod status;
mod telling;
mod times;

pub use crate::fault::ServeFault;
pub use crate::served::Served;
pub use crate::service::serve;
pub use crate::status::{Monitor, Status, TimedStore};
pub use crate::times::Times;
