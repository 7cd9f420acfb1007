//! The words of the command line of `drink`.
//!
//! - [`command_line::command_line`] reads them as `clap` defines them, and answers the [`command_line::Request`] that they ask
//!   for (clause `request`), or the error that `clap` has for such words, or that of words about a store that don't go
//!   together (clause `faults`). Which commands there are, with which words and ranges, is in `specs/CommandLine.antt`.
//! - [`command_line::help`] is the help of the program.
#![tactic(auto)]

pub mod command_line;
