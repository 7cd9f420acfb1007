//! A journal's entries, each in 32 bytes, in pages of 256.
//!
//! - A [`Packed`] entry has a [`Kind`], a tag, and what an entry of that kind has: the ticket of a session and the place of its program;
//!   the neighbour of a rule, and its record or size; a frame. A contract sees all of these side by side (`Told`, in `specs/pages/Told.antt`).
//!   What event and reply that is, `office_journal` says.
//! - [`Pages`] are a list of them. An entry stays where it was written.
//!
//! [`Pages::make_room`] alone takes memory. Where that is refused, all entries stay.

mod kind;
mod packed;
mod pages;

pub use crate::pages::kind::Kind;
pub use crate::pages::packed::{ENTRY_BYTES, Packed};
pub use crate::pages::pages::Pages;
