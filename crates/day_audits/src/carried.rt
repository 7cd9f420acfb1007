//! Plans that start with the values that a serial run left.
//!
//! - `specs/carried/Days.antt`: the plan that carries values on, and what holds of it; [`laws`] has it proved.
//! - [`run_numbers::next_run`] is the number of the next day's run. Of 4,294,967,296 days in turn no two have one number
//!   (`specs/carried/RunNumbers.antt`), so that no frame of an earlier day is taken for one of today's.
//!
//! Not said: that a plan which carries values on can be written as a text (`day_audits::plans` says it); which tickets the
//! sessions have; that what a day's offices left is carried (`day_audits::ends`), for which the headline says that their finished
//! sessions and last values are those of a serial run.

pub mod laws;
pub mod run_numbers;
