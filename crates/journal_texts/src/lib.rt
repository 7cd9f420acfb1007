//! The journals of offices as texts.
//!
//! - [`text`] writes the journal of an office: a first line with the run and the office's name, and then a line for each entry
//!   (clause `text`). What is written is the text of that journal (clause `reads_back`).
//! - [`add_header`] and [`add_lines`] write it part by part, as a journal grows: what was written stays as it is
//!   (`specs/Growing.antt`).
//! - [`read_journal`] reads a text of a journal under a plan: whose it is, its entries, and whether it ends with them (clause
//!   `meaning`), or its first fault (clause `fault`). [`read_into`] tells the same to a type of the caller's ([`Entries`]) entry by
//!   entry, so that no list of them has to stand.
//! - Both speak of one relation, `IsJournal` of `specs/JournalText.antt`, and [`laws`] says that a text is one journal at most, and
//!   none where it has a fault. So what was written is read as what it was written for.
//!
//! - [`wording`]: the words of offices, records, rules, replies and frames, which scripts share with journals.
//!
//! What a line says is in `specs/Lines.antt`, how it is written in `specs/Written.antt`.
//!
//! Journals are read and written above the office, since it has no need of texts. One relation says what a journal's
//! text is, and reading and writing both speak of it: so that what is written reads back needs no law beside the one
//! that a text is one journal at most. A journal is legal when it is written: each entry was accepted, so its names are
//! the plan's and its numbers fit, and no entry has to be refused for what a text can't say.
//!
//! Not said: that an office replies so; how fast a text is read; anything of a torn text that doesn't begin a
//! journal's. `Memory` may stand in place of each answer.
#![tactic(auto)]

mod entries;
mod fault;
mod header;
mod journal_text;
pub mod laws;
mod line;
mod reading;
mod torn;
pub mod wording;
mod writing;

pub use crate::entries::Entries;
pub use crate::fault::{JournalFault, JournalRefusal, JournalRule};
pub use crate::journal_text::JournalText;
pub use crate::reading::{read_into, read_journal};
pub use crate::torn::whole_lines;
pub use crate::writing::{add_header, add_lines, text};
