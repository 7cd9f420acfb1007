//! The language of sessions: what a text of sessions means under a plan.
//!
//! A caller:
//!
//! ```
//! use office_map::Plan;
//! use session_language::{LangFault, read_sessions};
//! use std::alloc::Global;
//!
//! /// The sessions of a text under a plan, in their canonical form.
//! fn canonical(alloc: Global, plan: &Plan, text: &[u8]) -> Result<String, LangFault> {
//!     let programs = read_sessions(alloc, text, plan)?;
//!     let mut told = String::new(alloc);
//!     for program in &programs {
//!         // Under another plan its names may mean nothing.
//!         if program.fits(plan) {
//!             told.push_str(program.text(alloc, plan)?.as_str())?;
//!         }
//!     }
//!     Ok(told)
//! }
//! ```
//!
//! - [`read_sessions`] gives the programs that a text means (`sessions_of`, in `specs/Reading.antt`), or the first
//!   refusal with its line. Each program fits the plan.
//! - A program's canonical text under a plan that it fits means that program, and nothing else ([`laws::reads_back`]).
//! - Under a plan of version 2 an operand may be a text between two quotation marks. A line under a plan of version 1 is read
//!   as one of numbers alone ([`laws::numbers_mean_the_same`], with `specs/NumberLines.antt`).
//! - A [`Program`] is that of `session_programs`, its tree and what it does alone are those of `session_meaning`; this
//!   crate passes on their types.
//! - A [`Reader`] takes the lines of a text one at a time (`take_line`, in `specs/Reading.antt`).
//! - Reading an expression takes one pass and no recursion; the grammar is in `specs/Grammar.antt`, the words of a line
//!   in `specs/Lexer.antt` (their code is [`lexer`]), the limits in `specs/Limits.antt` (the code has its own,
//!   [`limits`]).
//!
//! How a text is read: one pass, with no recursion and no tree of pointers. The lexer gives pieces; a reader of phrases
//! hands each token to a builder, which keeps the open parentheses, and an expression comes out in postfix order. The
//! definition (`sessions_of`) gives a tree in place of the nodes, and has its own reader of tokens:
//! `laws::reads_the_grammar` and `laws::expressions_are_unambiguous` say that what it takes is exactly what the grammar
//! has, with one tree each.
//!
//! Not said: that a text which means a program is its canonical one; that a word is a name or a number, which a
//! session's lines say where they use it. The law of the grammar is of expressions alone: the definitions of lines and
//! words are read as they stand. `Memory` may stand in place of each answer.
#![tactic(auto)]

mod adding;
mod builder;
mod draft;
mod fault;
pub mod keyword;
pub mod laws;
mod leaf;
pub mod lexer;
pub mod limits;
mod names;
mod number;
mod parts;
mod read;
mod reader;
mod scope;
mod spoken;
mod summary;
mod token;

pub use crate::fault::{LangFault, SessionRefusal, SessionRule, Stop};
pub use crate::read::read_sessions;
pub use crate::reader::Reader;
pub use session_meaning::{
    Comparison, Condition, End, Ending, Expression, Gives, Node, Operator, Outcome, RecordValues,
    Statement, Variables, WorkingCopy,
};
pub use session_programs::Program;
