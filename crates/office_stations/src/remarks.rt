//! Remarks: what people are told of a run that left sessions, and of neighbours that were never reached or heard.
//!
//! - [`Remarks`] are the lines, of one office after another: which of its sessions are left and what each waits for, ten at most
//!   in all and then how many more; and which of its neighbours it never reached or heard.
//! - [`tickets_left`] and [`wait_for`] tell which sessions are left at an office, and what each waits for (`specs/remarks/Left.antt`).
//!   Only the first waits for neighbours, and for records alone: no session waits for a fork, which settles which of two offices
//!   has a record first.
//! - [`unmet_by`] is said of a neighbour that was never reached or heard, and of no other.
//!
//! How many sessions are named is a clause (`specs/remarks/Counts.antt`). No clause speaks of the words: tests pin them.
//!
//! What an office tells is asked of it, not kept: no state is kept for people, and no layer below knows of them. The
//! first session that is left has its program in the journal, under its ticket; one walk finds it, and the next ones
//! wait for the one before. A session is left where its ticket has no outcome, of as many tickets as the file has
//! sessions of the office: those of `run` and `live` are submitted in the file's order and never withdrawn.
//!
//! Not said: where a bottle is that isn't there; that a session is of the file.

mod left;
mod lines;
mod remarks;
mod way;

pub use crate::remarks::left::{WaitsFor, tickets_left, wait_for};
pub use crate::remarks::remarks::Remarks;
pub use crate::remarks::way::{Unmet, Way, unmet_by};
