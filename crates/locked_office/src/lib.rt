//! A desk: an office under its lock, which several threads use, each with a pass of its own.
//!
//! A caller:
//!
//! ```
//! use locked_office::Desk;
//! use session_programs::Program;
//! use site_core::{Office, Reply};
//! use std::alloc::Global;
//! use std::sync::Wait;
//!
//! /// How many values a session gives, where its office needs nothing of its neighbours.
//! fn given<R: Wait>(rt: &R, alloc: Global, office: Office, program: &Program) -> Option<usize> {
//!     let Ok((desk, mut passes)) = Desk::open(alloc, office, 2) else {
//!         return None;
//!     };
//!     let mut client = passes.pop()?;
//!     let mut worker = passes.pop()?;
//!     let Ok(Reply::Ticket(ticket)) = desk.submit(rt, &mut client, program) else {
//!         return None;
//!     };
//!     // This is what another thread does, with its own pass.
//!     let Ok(_) = desk.advance(rt, &mut worker, 64) else {
//!         return None;
//!     };
//!     desk.meet(worker, &mut client);
//!     match desk.outcome(rt, &mut client, ticket) {
//!         Ok(Some(outcome)) => Some(outcome.ending.gives.len()),
//!         _ => None,
//!     }
//! }
//! ```
//!
//! - [`Desk::open`] gives the desk and 1 to 16 passes. A call takes the office, does its work, and gives the office back: what
//!   one call adds to the journal stands there side by side, with the tag of the call's pass.
//! - What a call leaves is `Does`, in `specs/Calls.antt`: entries of others may have come since the pass last saw the journal;
//!   then the office did what the call is for, at the end of what the pass had seen by then. What the pass has seen is a legal
//!   journal, and what the call added is its own.
//! - [`Desk::submit`], [`Desk::withdraw`], [`Desk::took`] and [`Desk::send`] hand in one event (`Steps` and `Receives`, of
//!   `site_core`), and [`Desk::take_read`] what somebody has read of bytes already (`TakesRead`). [`Desk::advance`] does the rules
//!   that come next (`Advances`, in `specs/Advance.antt`). [`Desk::outcome`], [`Desk::waiting`], [`Desk::some_waits`] and
//!   [`Desk::journal_part`] look, and add nothing. [`framed`] reads the frame off an answer.
//! - Those wait while another pass has the office. [`Desk::try_submit`], [`Desk::try_withdraw`], [`Desk::try_took`] and
//!   [`Desk::try_outcome`] answer `Busy` instead, with the pass as it was; [`Desk::meet`] tells one pass what another has seen. They wait for nobody.
//!
//! Nothing is said of who gets the office first, nor that a call that waits returns.
//!
//! Each call takes the office, does its work in one function (`calls`), and gives the office back; the calls that don't
//! wait are the trying and that same function.
//!
//! ```text
//! a pass had seen      | entries of others | what the call adds |
//! [ e1 e2 e3 ]           [ e4 e5 ]           [ e6 ]
//! <------------ what the pass has seen after the call ------------>
//! ```
//!
//! What others added is 'there is' data of a call's clause: nothing is said of it but that the whole is a legal
//! journal. What a call leaves of its pass is one equation (`Did`): the entries that were seen and what was added, and
//! of what is the pass's own just that more. So calls that follow each other are chained by rewriting.
//!
//! Not said: that memory suffices for a copy of what there is; that `Busy`, and the `None` of [`Desk::close`], come
//! only with a holder (tests show it).
#![tactic(auto)]

mod advance;
mod calls;
mod desk;
pub mod laws;

pub use crate::advance::Stopped;
pub use crate::calls::framed;
pub use crate::desk::Desk;
