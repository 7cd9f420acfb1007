//! What all texts of the broker share: lines, words, names and numbers.
//!
//! Plans, sessions, scripts and journals are texts of lines. A line that is neither blank nor a comment says something, and
//! keeps its number in the text ([`Statements`]). It has words ([`words`], [`first_word`]), of which some are names ([`name`])
//! or numbers ([`number`]), and may hold no byte but tabs and printable ASCII ([`is_plain`]). `docs/formats.md` has the rules.
//!
//! A name is kept as a [`ShortName`] ([`short_name`]). Where one stands in a list of names is told by [`place_of_name`], and by
//! [`Guesses`], which look first where it stood last.
//!
//! - [`short`]: names of at most sixteen bytes, each in a place of its own.
//! - [`marked`]: the words of a line by marks of 64 bytes at once, for texts in which each microsecond counts.
//!
//! It stands on `memchr`, for the ends of lines and of words. Definitions: `specs/Text.antt`. The limits of names and numbers are
//! [`limits`].
#![tactic(auto)]

mod guesses;
pub mod limits;
mod line_words;
mod lines;
pub mod marked;
mod name_places;
mod names;
mod numbers;
pub mod short;
mod statements;

pub use crate::short::ShortName;
pub use guesses::Guesses;
pub use line_words::{blank_place, first_word, is_blank, is_same_word, words};
pub use lines::{first_line, is_plain, is_plain_byte, place_of};
pub use name_places::place_of_name;
pub use names::{is_name, name, short_name};
pub use numbers::{has_only_digits, number};
pub use statements::Statements;
