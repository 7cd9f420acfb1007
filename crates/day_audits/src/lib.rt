//! What the journals of a day came to, and the day that follows it.
//!
//! - [`audit`]: of the journals of all offices, one text each, the report of the world whose record they are, or the entry that no
//!   schedule has.
//! - [`left`]: the sessions that an office has left, and their texts. [`carried`]: the plan that goes on with a day's values, and its
//!   run number. [`plans`]: the text of that plan. [`ends`] makes these of worlds and of files.
//! - [`days`]: two days of a network are one serial run.
#![tactic(auto)]

pub mod audit;
pub mod carried;
pub mod days;
pub mod ends;
pub mod left;
pub mod plans;
