//! What is told of a session without running it: what it costs, how many values it gives, and which records it needs.
//!
//! - [`measures`] are what a session costs, gives and has of statements (`specs/measures/Measures.antt`), exact up to 10,000.
//! - [`needs`] are the records that a session needs, in order (`needs_of`, in `specs/measures/Needs.antt`).
//! - [`are_of_numbers`] tells whether it has no text (`block_fits` of version 1, in `session_meaning`'s `specs/measures/Fitting.antt`).
//! - [`laws`]: a session's length is at most its cost and 1, and it needs just the records that it names
//!   (`specs/measures/Naming.antt`).
//!
//! Not said: what a session costs on a machine; its cost bounds how often its parts are worked out, by its length.

mod fitting;
pub mod laws;
pub mod measures;
pub mod needs;

pub use crate::measures::fitting::are_of_numbers;
