//! The commands of the program `drink`: sessions over the records that neighbouring offices share.
//!
//! - [`commands::serial::run`] is `drink serial`. It writes the report of the serial run of the sessions, and the plan of the next day
//!   to the file that is named for it (clause `reports`), and it writes nothing where an input is refused (clause `unwritten`). Its
//!   faults say what the texts are (clause `judged`).
//! - [`commands::sim::run`] is `drink sim`. It writes the transcript of the run of a script (clause `simulates`), and nothing
//!   where an input is refused; its faults say what the texts are, in the order of the words (clause `judged`).
//! - [`commands::random::run`] is `drink random`. It writes the report of a run of the sessions that is drawn (clause `tells`),
//!   and nothing where an input is refused (clauses `judged` and `unwritten`).
//! - [`commands::run::run`] is `drink run`. It writes what a legal journal of the office tells that its words name, and answers
//!   whether sessions are left (clause `runs`). Its faults say what the texts are, and OFFICE and the addresses under the plan,
//!   before the sessions (clause `judged`); nothing is written at one but what stands where the run was cut short (clause `leaves`).
//!   Where its journal goes is looked at before anything is run. Where a file is named for its secrets, they are those of that file's
//!   text, and what its socket tells is told under them (`specs/Sealed.antt`); so it is with a store and of `drink serve`.
//! - [`commands::stored::run`] is `drink run` with a store. The office goes on from what its store has, and what is written is what
//!   `stored_runs` promises (clause `runs`). Its faults say what the texts are, as those of `run` (clause `judged`), and what the store has
//!   that isn't gone on from; then nothing is written, and the store is as it was (clause `leaves`).
//! - [`commands::live::run`] is `drink live`, with the same clauses, of all offices.
//! - [`scripts::read_events`] and [`journals::read_journals`] read scripts and journals, which one command each takes; [`diagnosed`] has
//!   what people are told of a journal that is refused.
//!
//! Plans and sessions are read in `serial_command::reading`, and where outputs go is in `command_outputs`, with the fault of a command. What is
//! printed, and which events a script means, is in `world_schedule::reports` and `simulation::scripts`, which runs may be drawn in `simulation::random`, what is
//! told of offices that run in `office_runs` and `stored_runs`, what a fault says of the texts in `specs/Texts.antt`, and
//! which texts words stand for in `host_files::inputs`.
//!
//! The commands are a library: a wrong body in a program costs the gate half as much again as one in a library, since a
//! program's edits are checked with all that it links. A command gets what words name, and no readers: one function
//! reads a word's text, whether it is a file or a part of the standard input, so each command's contract goes from its
//! words to its report. Tests hand a command files, sockets and stores in memory. What a fault says of the texts
//! (`Judges`) is one definition for all commands, by recursion on the list of a command's inputs: a text is at fault,
//! or it is accepted and the rest is judged under what it means. A kind of input is a row of `Accepts` and of
//! `Refuses`, and a command a file of its own with its list.
//!
//! Not said: which bytes a device gives; what was written where writing failed; anything of the texts where memory ran
//! out, and that it ran out where that is said; which run `random` draws; what comes from a network, and which session
//! comes first at a record; that a socket, a thread or a store couldn't be had, and that no socket was opened before a
//! fault of the words (tests show it); that `--sync` is as asked for; that a file could be written later too; what
//! help, the version and a fault say.
#![tactic(auto)]

pub mod commands;
pub mod diagnosed;
pub mod journals;
pub mod limits;
pub mod scripts;
