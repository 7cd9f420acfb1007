//! The tree of a session: what it does alone, and how long that takes.
//!
//! - A session is a list of [`Statement`]s over [`Expression`]s. Contracts see them as trees (`specs/Tree.antt`), and a
//!   whole program with its office and its variables' names as a `ProgramValue` (`specs/ProgramValue.antt`).
//! - What a session does alone is `alone`, in `specs/Meaning.antt`, and how much it does `length_on`, in
//!   `specs/Length.antt`; `proofs/WorkedExamples.antt` works out examples of both. How it ended is an [`Ending`], and
//!   an [`Outcome`] with its office and its ticket there.
//! - A running session has a [`WorkingCopy`] of its records and its [`Variables`]; their calls, [`Operator::apply`] and
//!   [`Comparison::holds`] are those of `specs/Meaning.antt`.
//! - [`laws`]: a session writes only what it was given, tells what it read, and takes as many steps as its length.
//! - Expressions are kept in postfix order (`specs/refinement/Postfix.antt`), and their [`Nodes`] are told one at a time, or
//!   what each is but for a text's bytes ([`Part`]);
//!   [`operands`] takes them apart.
//!
//! It stands below the language: what a session does alone and how long that takes needs a tree and no text. So what
//! works a session out, or proves something of it, stands on this crate.
//!
//! Not said: what one count of a length takes on a machine.
#![tactic(auto)]

mod ending;
mod expression;
mod gives;
mod kept;
mod kept_nodes;
pub mod laws;
mod node;
mod node_list;
mod nodes;
pub mod operands;
mod part;
mod slots;
mod tree;
mod variables;
mod working_copy;

pub use crate::ending::{End, Ending, Outcome, RecordValues};
pub use crate::expression::Expression;
pub use crate::gives::Gives;
pub use crate::node::{Comparison, Node, Operator};
pub use crate::node_list::NodeList;
pub use crate::nodes::Nodes;
pub use crate::part::Part;
pub use crate::tree::{Condition, Statement};
pub use crate::variables::Variables;
pub use crate::working_copy::WorkingCopy;
