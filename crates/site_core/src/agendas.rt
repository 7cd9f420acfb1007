//! The sessions of an office: those that wait, the current one, and how those ended that finished.
//!
//! - An [`Agenda`] has the sessions in the order of their tickets, 1, 2, and so on. Each call does what a definition in
//!   `specs/agendas/Agenda.antt` says, and its clauses say so of every agenda that the code means (`Means`, in
//!   `specs/agendas/refinement/AgendaOfCode.antt`).
//! - A session waits ([`Agenda::submit`]), becomes the current one ([`Agenda::start`]), waits for its bottles, works on a
//!   copy of their values ([`Agenda::begin`], [`Agenda::work`]) and finishes with its outcome ([`Agenda::finish`]). One that
//!   hasn't begun to work may be withdrawn, and then has none.
//! - A session's work is that of `session_machine`, in pieces of at most [`LONGEST_PIECE`] instructions. It begins in the
//!   memory of the work before it, and by the code that its program brings; where it brings none, that is made for it.
//!
//! Memory is taken by [`Agenda::submit`], [`Agenda::begin`] and [`Agenda::make_room`] alone, before anything changes.

mod agenda;
mod limits;
mod session;

pub use crate::agendas::agenda::Agenda;
pub use crate::agendas::limits::{LONGEST_PIECE, MAX_UNFINISHED};
pub use crate::agendas::session::Session;
