//! The words that stand for an office, variables and records in a text.

use office_map::Plan;
use text_lines::ShortName;

/// Where records' names come from.
#[derive(Clone, Copy)]
pub enum RecordNames<'a> {
    /// The names of a plan.
    Of(&'a Plan),
    /// A name of 16 bytes for each, as which it counts in the size of a session.
    Wide,
}

#[derive(Clone, Copy)]
pub struct Words<'a> {
    pub office: &'a str,
    pub variables: &'a [ShortName],
    pub records: RecordNames<'a>,
}
