//! What is printed of sessions and of records as JSON: an object a line.
//!
//! - [`report::report`] has an object for each outcome, in the order in which they are given, and then one for each record.
//! - [`report::add_outcome`] and [`report::add_value`] add one such line to a text, [`report::add_unfinished`] the line that says
//!   how many sessions haven't finished, and [`report::add_unwoven`] the one that names an entry of a journal.
//!
//! The lines are those of `specs/json/Json.antt`, with the names of `session_reports`. A line tells its outcome: of a plan's outcomes no
//! two have one line ([`laws::json_lines_tell_outcomes`]). Names have letters, digits and `_`, so nothing in them is escaped; numbers
//! are written as they are, and some are past what a reader of floating-point numbers keeps.

pub mod laws;
pub mod report;
