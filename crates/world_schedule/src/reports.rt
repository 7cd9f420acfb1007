//! What is printed of all offices: the finished sessions, how many haven't finished, and the values.
//!
//! [`world::add_world`] adds that report of a world to a text, in a form: `world_report` of `specs/reports/WorldReport.antt`. Its lines are those
//! of `session_reports::form`. [`telling::tell_world`] writes it as it comes (clause `written`), and where memory
//! runs out before a part went out, nothing was written (clause `unwritten`).
//!
//! Not said: what is in a text where memory ran out, and how much went out where writing failed.

mod fault;
pub mod telling;
pub mod world;

pub use crate::reports::fault::TellingFault;
