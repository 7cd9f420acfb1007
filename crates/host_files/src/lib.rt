//! What a command reads and writes: texts of files and of the standard input, and files and streams that take texts.
//!
//! - [`inputs`]: the texts that the words of a command line name. Of sources in memory the clauses say which texts these are; of a
//!   program's own nothing is known.
//! - [`outputs`]: what files and texts are written to, and which were written.
#![tactic(auto)]

pub mod inputs;
pub mod outputs;
