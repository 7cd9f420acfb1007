//! An office that runs, alone in one thread or with two who work for it.
//!
//! - [`run::run_office`]: one office, alone in its process. Its sessions are submitted as it takes them, and it turns so many
//!   times, by plain turns.
//! - [`threads::open_office`]: an office with who turns it, by adaptive turns ([`threads::Worker::work`]), and who submits its
//!   sessions ([`threads::Client::submit`]), and [`starting`] starts a thread for each, of which the end is known to be such
//!   (`specs/Threads.antt`). When both have ended, [`met::add_office`] tells what came of it, and whose the entries of its journal
//!   are (clause `told`). All offices of a plan run so in `office_runs::live`.
//!
//! An office at its socket, its rounds and what both need of a network are in `office_stations`.
//!
//! What is told of a run is what its offices' journals tell (clause `tells`, `specs/Runs.antt`), with a `RunFault` where it ended
//! before its time. The journal of an office alone came of rounds of it (`ran`). What is said for people besides ([`Ran`]) is nothing
//! where all sessions finished and no fault ended the run (clause `quiet`). Nothing is told only where a run can't begin, or for want
//! of memory (`OpeningFault`).
//!
//! A run of one office is told in rounds, each of which says by the desk's clause how the submitting ended: with no
//! session left, or with a refusal whose cause is a full queue. So a body that holds sessions back is refused, and so
//! is one that tells of want of room where there was some.
//!
//! What the threads of `live` did is told by the passes that they bring back: a thread's clauses are lost at its join,
//! but for what was promised where it was started, and a pass shows all that was written with it. A desk is opened with
//! as many passes as it may have, so that nobody else wrote.
//!
//! Not said: how long a round waits for what comes, how many rounds there are that don't count, and that the clock
//! tells the time; when the system lets a socket fail; that what other offices did is a schedule with a told journal;
//! that a journal has all that was written. Which of several faults was found first is a matter of time. Tests show
//! that it is told, that one ends the others' work at once, that whoever sleeps is woken, that the gate is asked before
//! each turn, that an office has 100,000 turns, and that its sockets are of this machine alone.
#![tactic(auto)]

mod finished;
pub mod live;
pub mod met;
pub mod opened;
pub mod report;
pub mod run;
pub mod starting;
pub mod task;
pub mod threads;

pub use crate::report::Ran;
