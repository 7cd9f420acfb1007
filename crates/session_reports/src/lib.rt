//! What is printed of sessions and of records, whoever ran them.
//!
//! - [`report::report`] has a line for each outcome, in the order in which they are given, and then a line for each record.
//! - [`report::add_outcome`] and [`report::add_value`] add one such line to a text, and [`report::add_unfinished`] the line that
//!   says how many sessions haven't finished.
//! - [`names::office_name`] and [`names::record_name`] are a plan's names, which the lines have, and [`numbers::add_number`] adds a
//!   number's digits.
//!
//! - [`json`] has the same as JSON, an object a line, and [`form`] that of the two for which a command line asks.
//!
//! The lines are those of `specs/Report.antt`, with the names of `specs/Names.antt`; one record more is one line more
//! ([`laws::rows_are_added`]). They are of plans, of outcomes and of values: an office isn't asked.
#![tactic(auto)]

pub mod form;
pub mod json;
pub mod laws;
pub mod names;
pub mod numbers;
pub mod report;
