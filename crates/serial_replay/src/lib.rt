//! Sessions one after another, each by a walk over its syntax tree.
//!
//! [`serial`] is the serial run: its outcomes are `outcomes_of`, and the values that it leaves are those of `map_of`
//! (`specs/Serial.antt`). What one session does alone is `alone`, in `session_meaning`'s `specs/Meaning.antt`.
//! Evaluation keeps its operands on a stack of its own (`specs/refinement/PostfixEvaluation.antt`), so no expression
//! deepens the call stack. It works on numbers, and begins anew on values where it meets a text or a fault.
//!
//! Not said: anything of programs that don't fit the plan, or of 2^32 programs and more (`fit` and `few` are
//! conditions).
#![tactic(auto)]

pub mod alone;
mod environment;
mod evaluate;
mod numbers;
pub mod replay;
mod stop;
mod walk;

pub use crate::replay::{Replay, serial};
