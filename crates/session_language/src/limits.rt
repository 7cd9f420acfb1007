//! The limits of texts of sessions, and of the sessions in them, as the definitions have them.

pub use session_programs::limits::{
    CODES_END, MOST_BLOCKS, MOST_DEPTH, MOST_GIVES, MOST_RECORDS, MOST_TURNS, MOST_VARIABLES,
};
pub use session_programs::sizes::limits::{MOST_BYTES, MOST_COST, MOST_STATEMENTS};

/// The longest text of sessions, in bytes.
pub const TEXT_LIMIT: usize = 1_048_576;

/// The most sessions of a text.
pub const MOST_SESSIONS: usize = 1_024;

/// One past the greatest depth: as far as depths are counted.
pub(crate) const PAST_DEPTH: u8 = MOST_DEPTH + 1;
