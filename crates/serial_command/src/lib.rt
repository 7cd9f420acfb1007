//! The command `serial`: the sessions alone, one after another, and what each did.
//!
//! - [`serial::run`] answers the report of the serial run of the sessions that its words stand for (clause `report`). Where it does,
//!   their texts are accepted (clause `accepted`), and its faults say what the texts are (clause `judged`).
//! - [`answer::answer`] does what the words of a command line ask for, where that is `serial`, with status 0 only where it was done
//!   (clause `done`); [`run`] hands it the files, the standard input and the output that the program was started with.
//! - [`exit`] is how a program ends: its status, and what is said on the standard error.
//! - [`reading`]: the plan and the sessions that words stand for, or what is wrong with their texts; for every command.
//!
//! What is printed is in `specs/Serial.antt`. The words are read as `command_words` says, and which bytes a file, the standard
//! input or a terminal gives or takes is outside what is proved.
#![tactic(auto)]

pub mod answer;
pub mod exit;
pub mod inputs;
pub mod reading;
pub mod serial;

pub use answer::run;
