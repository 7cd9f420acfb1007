//! Programs: what a session is, once its text was read.
//!
//! - A [`Program`] is a session's office, the names of its variables, and its statements as a tree. [`Program::of`] makes one of
//!   parts that are well formed, and what holds of every program is in `specs/WellFormed.antt` (clause `well_formed` of `tree`).
//! - `needs` are the records that it reads or sets anywhere (`all`, `in_order`, `named`), `fits` says whether a plan has its office
//!   and its records, and texts where it has such, and `text` is its canonical text under such a plan (`text_under`, in `specs/Program.antt`; clause
//!   `canonical`).
//! - The limits are in `specs/Limits.antt` (the code has its own, [`limits`]). Whether a session keeps those of its length, its
//!   statements, its cost and its bytes of text, is looked at in [`sizes`].
//! - [`measures`]: what a session costs, gives and needs, without running it.
//! - [`Code`] is the flat code of a session: lines that each say what to do and which line comes next. One line is one count of a
//!   session's length (`length_on`, in `session_meaning`'s `specs/Length.antt`). [`Program::with_code`] and [`with_codes`] put
//!   it beside a program, for as often as the program is submitted; [`Code::of`] takes it from there, or makes it. Which code a
//!   tree has is in `specs/refinement/Emission.antt`, and that every program is within the machine's limits is `HasRoom`
//!   (`specs/Room.antt`, clause `room` of [`Code::of`]).
//!
//! It stands on `session_meaning`, which has the tree, what a session does alone, and its measures. Nothing here knows how a text
//! is read: that is `session_language`, above, which reads the canonical text of a program as that program.
#![tactic(auto)]

mod code;
mod coding;
mod constant;
mod instruction;
pub mod limits;
mod listing;
pub mod measures;
mod program;
mod rank;
mod register;
pub mod sizes;
mod text;
mod words;

pub use crate::code::Code;
pub use crate::constant::Constant;
pub use crate::instruction::{Instruction, Line};
pub use crate::listing::comparison_text;
pub use crate::program::{Program, with_codes};
pub use crate::rank::Rank;
pub use crate::register::Register;
pub use crate::text::{magnitude, write_text};
