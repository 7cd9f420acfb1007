//! Plans: the offices of a broker, which of them are neighbours, and the records that a
//! pair of neighbours shares.
//!
//! A caller:
//!
//! ```
//! use office_map::{Plan, PlanFault, RecordId};
//! use std::alloc::Global;
//!
//! /// Where each record of a plan starts, a line each.
//! fn starts(alloc: Global, text: &[u8]) -> Result<String, PlanFault> {
//!     let plan = Plan::read(alloc, text)?;
//!     let mut told = String::new(alloc);
//!     for number in 0..plan.records() {
//!         let record = RecordId::new(number as u16);
//!         let name = plan.record_name(record);
//!         let office = plan.office_name(plan.start_end(record));
//!         let value = plan.start_value(record);
//!         writeln!(told, "{name} starts at {office} with {value}")?;
//!     }
//!     Ok(told)
//! }
//! ```
//!
//! [`Plan::read`] answers the plan that a text means, the first rule that a line of it breaks,
//! or a ring of offices that precede one another at the start (clause `meaning`). Every plan in
//! hand is consistent (clause `consistent` of [`Plan::offices`]): a pair and a record join two
//! different offices that are declared, nothing is declared twice, and no limit is passed. And
//! it has no ring (clause `accepted`), so that its offices have an order ([`Plan::order`]).
//! Contracts see a plan as its tables alone, one
//! `Rattle.office_map.specs.PlanValue.PlanValue`. A record is found by its name among those whose
//! names have the same key, and an office's neighbours and records are stored lists. Copies of a
//! plan share all of it ([`Plan::copy`]).
//!
//! A value is a number or, under version 2, a text between two `"`. The words of a line are cut alike under both versions
//! ([`plan_words`]), and a text that isn't of version 2 is read as one of numbers alone ([`laws::numbers_mean_the_same`]).
//!
//! It stands on `text_lines`, for lines, words, names and numbers, on `text_lines::short`, for names that are
//! kept, on `bottle_values`, for values, versions and what an answer is unless memory runs out, and on `thiserror`, for the
//! messages of its faults. Definitions:
//!
//! - `specs/PlanText.antt`: which plan the lines of a text mean, what is their first fault, and
//!   what reading answers.
//! - `specs/PlanWords.antt`: the words of a line.
//! - `specs/NumberPlans.antt`: the same for plans of numbers alone, and that they mean the same.
//! - `specs/PlanValue.antt`: the tables, and what contracts ask of them.
//! - `specs/Precedence.antt`: who precedes whom at the start, orders and rings.
//! - `specs/Consistency.antt`: what holds of every accepted plan.
//! - `specs/Address.antt`: which words are addresses.
//! - `specs/Limits.antt`: the limits; the code has its own, [`limits`].
//!
//! Not said: which of several rings is told; how many records are looked at where one is found by its name; that a copy takes no memory; that a plan
//! has the office or the record of a number in hand. `Memory` may stand in place of each answer.
#![tactic(auto)]

mod address;
mod entries;
mod fault;
mod ids;
mod index;
pub mod laws;
pub mod limits;
mod line;
mod line_words;
mod new_entries;
mod plan;
mod plan_entries;
mod precedence;
mod read;
mod records;
mod ring;
mod ring_search;
mod word;

pub use entries::PairEntry;
pub use fault::{PlanFault, PlanRefusal, PlanRule, RING_RULE};
pub use ids::{OfficeId, RecordId};
pub use line_words::{first_plan_word, plan_words};
pub use plan::Plan;
pub use ring::Ring;
