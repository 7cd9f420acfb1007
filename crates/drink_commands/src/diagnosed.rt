//! What people are told of a journal that is refused, besides the code of the rule and the number of the line.
//!
//! [`of_journal`] answers a sentence for a refusal that `journal_texts` gave: what was found, what was expected, and where
//! there is one the nearest thing to do. It looks at the refused line alone.
//!
//! Nothing is decided here, and no clause speaks of a sentence: tests pin them. What is proved is that nothing but memory
//! stops a function.

mod digits;
mod header;
mod journal;
mod line;

pub use journal::of_journal;
