//! Scripts of events in a world, their runs, and what is printed of these.
//!
//! - [`script::events`] reads a script: the events that its lines say, or its first faulty line (clauses `meaning`,
//!   `fault`). An event names its session by its number in the file.
//! - [`transcript::simulate`] runs one from the plan's opening, writes what is printed in a form as it comes, a line for each event, and
//!   then the report of the world that it leads to (clause `written`), and answers that world (clauses `world`, `plan`). What the
//!   report tells of sessions and values is what these sessions do alone, one after another in the order of the report (clause
//!   `serial`). Where it is left to itself by enough steps, it comes to its end (clause `ends`). Where memory runs out before a part of it went out, nothing was written (clause `unwritten`).
//! - [`laws`] says that the line which prints an event reads back as that event, that an office which is told to advance
//!   does the rules that come next (`specs/scripts/Advancing.antt`), and that a world which is told to settle takes the steps that
//!   come next, and tells just how many they are (`specs/scripts/Settling.antt`). It comes to its end after at most as many as
//!   its work left tells, a number that every step lowers (`specs/scripts/Termination.antt`): no session is left then, or a journal
//!   is full.
//!
//! Which acts a line asks for is in `specs/scripts/Script.antt`, what they do in `specs/scripts/Runs.antt`, over the world of
//! `frame_world`; what is printed in `specs/scripts/Transcript.antt`. The words of rules, offices and records are those of
//! `journal_texts::wording`, the lines of outcomes and of values those of `world_schedule::reports`.
//!
//! A script asks for acts: an event of the world, or that offices go on, left to themselves. `advance` and `settle` are
//! no events of the world: what they do depends on where the offices are.
//!
//! Not said: by which code a step is refused. Events whose sessions, offices or
//! records aren't there have no line that reads back.

mod event;
mod fault;
pub mod laws;
mod limits;
mod said;
pub mod script;
pub mod transcript;

pub use crate::scripts::event::ScriptEvent;
pub use crate::scripts::fault::{ScriptFault, ScriptRefusal};
pub use crate::scripts::limits::{MAX_BYTES, MAX_RULES, MAX_STEPS};
pub use crate::scripts::said::Said;
