//! What the program `drink` does with the words of its command line, and how it ends.
//!
//! - [`program::perform`] carries a request out, from the texts that its words stand for (clause `done`).
//! - [`program::answer`] does what the words of a command line ask for, with status 0 only where that was done (clause `done`), and
//!   writes nothing where they ask for nothing (clause `unwritten`).
//! - [`run`] hands it the files, the standard input and the output that the program was started with.
//! - An office that serves hears its client at once: what comes in on the standard input ends a wait at its socket.
//! - [`exit::Exit`] is the status that the program ends with, and what it says then; it is `serial_command`'s.
//! - [`telling::Telling`] says on a terminal how far a run is, and never waits for it.
//!
//! What the words of a command line ask for is in `command_words`, and what each command does in `drink_commands`. Which bytes a file,
//! the standard input or a terminal gives or takes is outside what is proved.
#![tactic(auto)]

mod client;
pub mod program;
pub mod telling;

pub use program::run;
pub use serial_command::exit;
