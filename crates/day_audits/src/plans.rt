//! The text of a plan, which is read as that plan.
//!
//! - `specs/plans/WrittenPlans.antt`: how a plan is written, and that its text means it ([`laws`] has it proved).
//! - [`next_plan`] writes the plan of the next day (`specs/plans/NextPlans.antt`): the same offices, pairs and records in the order of
//!   their lines, the next run number, and the values that are carried on. It has no ring, and starts with these values.
//!
//! Not said: that the text of so large a plan is short enough to be read.

pub mod laws;
pub mod writing;

pub use crate::plans::writing::next_plan;
