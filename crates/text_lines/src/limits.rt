//! The limits of names and numbers, as the definitions have them.

/// The most letters of a name.
pub const MOST_LETTERS: usize = 16;

/// The most digits of a number.
pub const MOST_DIGITS: usize = 19;

/// Numbers are below this.
pub const NUMBERS_END: u64 = 9_223_372_036_854_775_808;
