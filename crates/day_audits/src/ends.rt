//! What a day leaves: the plan of the next one, and the sessions that are left, as texts.
//!
//! - [`next_plan_of`] is the text of the plan that comes after a world's: the same offices, pairs and records, with the values of the
//!   world's bottles, which are those of the serial run of its finished sessions, and the next run number. [`next_plan_with`] is that
//!   with values from elsewhere.
//! - [`left_of`] is the text of the sessions that the offices of a world have left. It is read as these, where all of them are within
//!   the limits of a text of sessions. [`left_of_file`] is that of the sessions of a file that haven't finished, whether they were
//!   submitted or not, where each office's are submitted in the order of the file.
//!
//! Definitions: `specs/ends/DayEnds.antt`; the plan's are in `day_audits::plans`, and which sessions are left in `day_audits::left`.

mod files;
mod plans;
mod worlds;

pub use crate::ends::files::left_of_file;
pub use crate::ends::plans::next_plan_with;
pub use crate::ends::worlds::{left_of, next_plan_of};
