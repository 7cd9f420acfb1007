//! What commands leave: a text on their output, journals in files, journals in stores, the plan of the next day; or the fault that they end with.
//!
//! - [`output::write_whole`] writes a text (clause `written`).
//! - [`journal_files`] writes the journals of offices, each to its file (clauses `written`, `specs/Journals.antt`).
//! - [`day_files`] writes the plan of the next day and the sessions that are left, each to its file (clauses `written`,
//!   `specs/Days.antt`).
//! - [`places`] looks at the files that are to take the journals of a run before it begins: each may take its own (clauses `free`), or
//!   the fault says why it may not (clauses `fault`, `specs/Places.antt`). A file that is an input may take none.
//! - [`stores::Stores`] is what opens the store in which an office keeps its journal while it runs, and [`clients::Clients`] has what is
//!   asked of one that serves.
//! - [`secrets`] reads the file in which an office has its secrets.
//! - [`Fault`] is why a command fails, and its text what people are told. [`Fault::input`] says which input is at fault, if one is;
//!   what is said of an input's text comes from `serial_command::reading`.
#![tactic(auto)]

pub mod clients;
pub mod day_files;
pub mod fault;
pub mod journal_files;
pub mod output;
pub mod places;
pub mod secrets;
pub mod stores;

pub use fault::Fault;
