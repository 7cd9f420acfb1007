//! An office that keeps its journal in a store, and goes on from there: killed at whatever moment, it loses nothing that it told.
//!
//! - [`resumed`] makes the office of what was found in its store, and says which of a run's sessions are left
//!   (`specs/Keeping.antt`): those that it submitted begin its own of the list. Where the store hasn't its journal, it names the line.
//! - [`run_stored`] turns it at a station (clause `goes_on`, definitions in `specs/Runs.antt`): whatever ends the run, the store has
//!   the text of the journal's first entries, each datagram that left is of one of them, and what is told as finished finished by
//!   them. It is told as soon as it stands, in the form that is asked for.
//! - What `run_stored` is made of is public, for other runs with a store: [`found_in`], [`beginning`], [`turning`], [`telling`] and its
//!   [`books`].
//!
//! - [`durable`]: an adaptive turn, of which no frame leaves before its entry stands.
//!
//! What the offices of a network that are lost and go on so have done is one world (`office_restarts`).
//!
//! Not said: that a file has what was found in it, which is the premise beside the headline; over UDP, where sockets
//! tell nothing, which datagrams left; what is written where writing fails; how soon a session is told; which line of a
//! faulty store is told, and what is said for people (tests show both).
#![tactic(auto)]

pub mod beginning;
pub mod books;
pub mod durable;
mod ended;
mod fault;
mod keeping;
mod lines;
mod run;
mod submits;
pub mod telling;
pub mod turning;

pub use crate::ended::Ended;
pub use crate::fault::{KeptFault, LineFault, StoredFault};
pub use crate::keeping::{Kept, found_in, resumed};
pub use crate::run::run_stored;
