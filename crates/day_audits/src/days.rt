//! Two days of a network are one serial run.
//!
//! - `specs/days/TwoDays.antt`: of two worlds the second goes on from what the first left, and their sessions together end as in one serial
//!   run; [`laws`] has it proved. So it is, day after day, of any number of days: the run of the first two goes on with the third.
//!
//! Not said: anything of a session that didn't finish. It wrote nothing, so that it may be submitted again on the next day.

pub mod laws;
