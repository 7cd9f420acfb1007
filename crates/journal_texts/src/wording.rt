//! The words that scripts and journals share, read and written.
//!
//! - [`words`] has the words of offices, records and counted numbers, and adds a number's digits. A line of words with a space
//!   between is cut into these words again ([`laws::lines_are_cut_into_their_words`]).
//! - [`rules`] has the words of a rule, which read back as that rule ([`laws::rules_read_back`]).
//! - [`replies`] has the words of a reply, and which reply a word says of a frame that came.
//! - [`digits`] has bytes as digits, two for each byte, and which frame a word of digits spells.
//!
//! Which words say what is in `specs/wording/`: `Words.antt`, `Rules.antt`, `Replies.antt` and `Digits.antt`. Lines, names and numbers
//! are those of `text_lines`, a frame's bytes those of `frame_codec`.
//!
//! Not said: anything of rules whose office or record the plan hasn't, or whose piece of work isn't allowed. The code
//! and the name of a refusal stand in the crate that refuses (`text` of each fault), and what is printed of it is that
//! text.

mod blocks;
pub mod digits;
pub mod laws;
pub mod replies;
pub mod rules;
pub mod words;
