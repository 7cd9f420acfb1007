//! Which text is printed of sessions and of records: that for people, or an object of JSON on each line.
//!
//! - [`Form`] says which of the two, as a command line asks for it ([`Form::of`]).
//! - [`report::report`], [`report::add_outcome`], [`report::add_value`] and [`report::add_unfinished`] are those of
//!   `session_reports` in the one form and those of `session_reports::json` in the other; [`report::add_outcomes`] adds the lines of several.
//! - [`words::add_opening`] and [`words::add_closing`] stand around words that are a line in the one form, and the text of an object in the other;
//!   [`words::add_count`] and [`words::add_words`] add the line of a number, and of words, under a name.
//!
//! What is printed in a form is in `specs/form/Forms.antt`. A report's definition takes the form, so the contract of a command says which
//! text it wrote.

mod forms;
pub mod report;
pub mod words;

pub use crate::form::forms::Form;
