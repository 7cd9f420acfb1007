//! The texts that the words of a command line name: files, and for the word `-` the standard input. Where several words
//! are `-`, the standard input is cut into as many texts, at its first lines that are exactly `---`.
//!
//! - [`text`] reads the next word's text (clause `text`), and of a text past a limit one byte more than the limit (clause
//!   `bounded`): which text a word has is in `specs/inputs/Words.antt`, and where a text is cut in `specs/inputs/Cut.antt`.
//! - [`beginning`] reads the first bytes of a file that may be there (clause `bytes`), and says where none is (clause `nowhere`).
//! - [`Sources`] is what a program reads from. A program's own has [`Devices`], of which nothing is known; [`Texts`] are in
//!   memory and say what they have, and then the clauses speak of these bytes.
//!
//! The standard input is read when its first part is asked for, and no further than that part's limit wants. A file is
//! opened when its text is asked for.
//!
//! Of the standard input no more is read at a time than a part's limit and a line of a cut; what was read beyond the
//! part is kept for the next one. So a plan is judged before the sessions are waited for, where they come later.
//!
//! Not said: which bytes a device gives; how much is asked of it (a private clause bounds one filling, a test an
//! endless reader); what the words after a text past its limit have, since nothing is read after it; that a file has
//! several names, but where the system tells it.

mod cut;
mod devices;
mod failure;
mod fault;
mod reading;
mod sources;
mod standard_input;
#[cfg(test)]
mod tests;
mod texts;

pub use devices::{Device, Devices};
pub use failure::failure_kind;
pub use fault::InputFault;
pub use sources::Sources;
pub use standard_input::{StandardInput, beginning, text};
pub use texts::Texts;
