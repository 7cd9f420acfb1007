//! Random runs of sessions on the offices of a plan, and what is printed of them.
//!
//! - [`run::run`] submits the sessions of a file, and then the offices do what is drawn: rules, sendings and deliveries, of
//!   which some are lost. The world that it answers is one to which events lead, with no session but the file's, each as soon
//!   as its own office takes it. As many steps are made as the schedule says, or fewer where all sessions have finished: each
//!   does the rule that comes next at an office, sends a message that waits, or brings a recent frame; or nothing, where of
//!   what was drawn there is none, or some frames are lost (clause `run`). All holds of it that holds of every world (clause
//!   `headline`).
//! - [`run::report`] prints that world: the finished sessions in finishing order, how many of the file's haven't finished, and
//!   the values (clause `reports`).
//! - [`Schedule`] says from which seed is drawn, how much is lost, and how many steps there are. One seed gives one run.
//!
//! Which of these events are drawn is no promise; tests show it. What a run may be is in `specs/random/Runs.antt`, over the world of
//! `frame_world`; what is printed in the crate `world_schedule::reports`.
//!
//! Not said: which events are drawn, and that one seed gives one run; in which order the sessions of one office are
//! submitted; how many frames are lost where the loss is below 100; that memory ran out where it is said. A clause on the
//! draws would be the program written again.

mod draws;
pub mod run;
mod schedule;
mod steps;
mod submission;

pub use crate::random::schedule::Schedule;
