//! Sets of small numbers, each a bit of one word.
//!
//! A [`Mask16`] has numbers below 16, a [`Mask128`] below 128. `is_in16` and `is_in128`, in `specs/masks/Sets.antt`, say which a
//! mask has. `first` finds the least by the word's trailing zeros: no loop, and no table.
//!
//! No call takes memory.
//!
//! Two masks of one word each, and no set of any size: 16 offices and an office's 128 records at most fit one word, so
//! lemmas over the width serve both, and no proof has cases by word. A number that is too great changes nothing, so
//! that no caller has a condition to meet.

mod mask128;
mod mask16;

pub use mask16::Mask16;
pub use mask128::Mask128;
