//! What people are told of sessions that are refused, besides the code of the rule and the number of the line.
//!
//! [`of_sessions`] answers a sentence for a refusal that the reader of sessions gave: what was found, what was expected, and
//! where there is one the nearest thing to do. It looks at the refused line, and at what the lines above it, which were
//! accepted, have opened, named and come to.
//!
//! Nothing is decided here, and no clause speaks of a sentence: tests pin them. What is proved is that nothing but memory
//! stops a function. What is said of lines and words in any text is lent by `diagnostics`.

mod measures;
mod place;
mod sessions;

pub use sessions::of_sessions;
