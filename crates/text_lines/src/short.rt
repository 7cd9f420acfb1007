//! Names of at most sixteen bytes, each in a place of its own.
//!
//! A [`ShortName`] has the bytes of a name and zeros after them. So it is copied as a number is, and two names are told
//! apart by two words ([`ShortName::is`]), with no look at single bytes. Contracts see a name as the list of its bytes.
//! Which lists can be names is `is_short`, in `specs/short/Names.antt`: ASCII without zeros. What a crate above calls a name is
//! more; it is judged there, once, before the name is made ([`ShortName::packed`]).
//!
//! The bytes lie as they are read, and not in two numbers, since callers lend a name as text ([`ShortName::as_str`]). To
//! read eight of them as a number is one step. How many they are stands beside for that loan alone.
//!
//! No call takes memory. Not said: how fast two names are told apart; that different names seldom have one
//! [`ShortName::key`].

mod short_name;

pub use short_name::{MOST_BYTES, ShortName};
