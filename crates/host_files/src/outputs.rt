//! What a program writes files to, as `host_files::inputs::Sources` is what it reads from.
//!
//! - [`Targets`] makes folders and writes whole files. Which files were written, in which order and with which text, is the
//!   ghost `written`: an `Ok` adds the file (clause `adds`), and an `Err` adds none (clause `fails`).
//! - A program's own is [`Disk`], of which nothing is known. [`InMemory`] keeps each file that was written, and may fail at a
//!   call.
//!
//! Not said: what a disk has, and what a file has after a fault, since how much of the text went out isn't known; which
//! folders were made, since a file can't be written where its folder isn't there; what a try answers, since whether a
//! later writing succeeds isn't known. Tests show that a try leaves a disk as it is: a file that isn't there is made
//! and removed, one that is there is opened for writing and keeps what it has.
//! - [`write_whole`] writes a text to one writer (clause `whole`), and [`Outgoing`] one that is too long to be kept, in parts as it
//!   comes: what a writer holds, with what hasn't gone out, grows by what is added, and stays the same where a part goes out
//!   (clause `bytes`). Less than a part is left then (clause `few`). Until one goes out, the writer is as it was (clause `still`).

mod disk;
mod memory;
mod outgoing;
mod targets;
#[cfg(test)]
mod tests;

pub use disk::{Disk, write_whole};
pub use memory::{InMemory, MemoryFile};
pub use outgoing::{Outgoing, PART};
pub use targets::Targets;
