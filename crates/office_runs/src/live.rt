//! All offices of a plan, on threads of one process.
//!
//! [`live::live`] runs the sessions, each at its office: every office has a thread that turns it and one that submits its sessions.
//! What is told, in the form that is asked for, is what the offices' journals tell (clause `tells`), which came of what the
//! threads of each did (`courses`, `specs/live/Courses.antt`), with a `RunFault` where the run ended before its time; and for people
//! nothing where all sessions finished (`quiet`). Nothing is told only where a run can't begin, or for want of memory (`OpeningFault`).
//!
//! An office, who works for it and their threads are in `office_runs`.

mod closing;
mod crew;
pub mod live;
