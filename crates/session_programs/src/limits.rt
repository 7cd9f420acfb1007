//! The limits of programs, as the definitions have them.

/// The most blocks that may stand in one another.
pub const MOST_BLOCKS: usize = 8;

/// The most turns of a `repeat`.
pub const MOST_TURNS: u64 = 10_000;

/// How deep an expression may be.
pub const MOST_DEPTH: u8 = 32;

/// Codes of a `require` are below this.
pub const CODES_END: u64 = 65_536;

/// The most records that a session may name.
pub const MOST_RECORDS: usize = 16;

/// The most variables that a session may have.
pub const MOST_VARIABLES: usize = 32;

/// The most values that a session may give.
pub const MOST_GIVES: u32 = 64;
