//! Diagnostics: what people are told of a text that is refused, besides the code of the rule and the number of the line.
//!
//! [`of_plan`] and [`of_script`] answer a sentence for a refusal that the reader of that text gave: what was found, what was
//! expected, and where there is one the nearest thing to do. They look at the refused line and at the lines above it, which
//! were accepted. [`of_ring`] answers one for offices that precede one another in a ring, with the line of a pair whose fork
//! may be turned.
//!
//! [`shown`] and [`events`] lend what is said of lines, words and events in any text; [`sessions`] has what is said of sessions, and
//! `drink_commands::diagnosed`, where a journal's reader is known, what is said of journals.
//!
//! Nothing is decided here, and no clause speaks of a sentence: tests pin them. What is proved is that nothing but memory
//! stops a function.
//!
//! The sentences have a crate of their own, with no wrong bodies: they look again at lines that a reader has refused.
#![tactic(auto)]

pub mod events;
mod plan;
mod plan_values;
mod ring;
mod script;
pub mod sessions;
pub mod shown;

pub use plan::of_plan;
pub use ring::of_ring;
pub use script::{ScriptLimits, of_script};
