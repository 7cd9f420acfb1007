//! Audits: of the journals that offices left, one text each, the report of the world whose record they are; or the entry that no
//! schedule has.
//!
//! - [`Journals`] gathers the journals by office: [`Journals::read`] takes one text after the other, in any order, and refuses one
//!   that is no journal, or whose office has one already (clause `refused`); [`Journals::missing`] tells the office that has none
//!   (clause `lacks`). An office takes a step for each line as it is read, and so no list of entries stands beside its own journal.
//! - [`audit`] weaves what the offices followed into a schedule, and answers the world to which it leads with its report in a form (clause
//!   `woven`), of which the headline holds; or the line that names the entry (clause `unwoven`). The world's offices are those that
//!   followed, so no event is done a second time. [`recorded`] is the world alone, of texts that are there.
//!
//! Which texts are the journals of a plan's offices, and what a refusal says of them, is in `specs/audit/Gathering.antt`; what is written
//! in `specs/audit/Findings.antt`, over what `journal_weave` calls woven.
//!
//! Journals are gathered in whatever order they come: what is gathered is told by office, a refused text with its place
//! among them, and all before it are gathered. First it is judged whether a text is a journal, then whether its office
//! has one already.
//!
//! Not said: that the offices did what they wrote down, or did it in that order; that the entry which is named is the
//! one at fault.

mod auditing;
mod fault;
mod follower;
mod journals;
mod texts;

pub use crate::audit::auditing::{Finding, audit};
pub use crate::audit::fault::GatherFault;
pub use crate::audit::journals::Journals;
pub use crate::audit::texts::recorded;
