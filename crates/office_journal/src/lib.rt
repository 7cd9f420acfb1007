//! What an office may do, what happens at it, what it answers, and the journal of all that it accepted.
//!
//! - A [`Rule`] is what an office does left to itself, an [`Event`] what happens at it, and a [`Reply`] or a [`Refusal`] what it
//!   answers. Which of them it answers is no matter here: `site_core` says it.
//! - An [`Entry`] is an event that was accepted, with who handed it in, and the reply. A contract sees a journal as a list of them.
//! - A [`Journal`] has at most [`MAX_ENTRIES`] entries. It keeps each in 32 bytes, in the pages of `office_journal::pages`, and beside them the
//!   programs of the sessions that were submitted and the texts that frames carry (`entry_in`, in
//!   `specs/refinement/PackedEntries.antt`). [`packing`] makes that form of an event. A reader is shown an [`EntryRef`], which borrows the program of a submitted session from the journal (`entry_shown`, in
//!   `specs/Shown.antt`). Who goes over many entries asks for what it needs of one: an [`EventPart`], the frame that came, the frame
//!   that is told. An entry has room for two frames, which would be made ready for each.
//!
//! [`Journal::make_room`] takes the memory of an entry before it is made, [`Journal::make_room_for_program`] that of a program, and
//! [`Journal::make_room_for_text`] that of a text. The first refuses a full journal as `JournalFull`. The entries stay, whatever is refused.
#![tactic(auto)]

mod event;
mod journal;
mod limits;
pub mod packing;
pub mod pages;
mod reply;
mod rule;

pub use crate::event::{Entry, EntryRef, Event, EventPart, EventRef};
pub use crate::journal::Journal;
pub use crate::limits::MAX_ENTRIES;
pub use crate::pages::ENTRY_BYTES;
pub use crate::reply::{Refusal, Reply};
pub use crate::rule::Rule;
