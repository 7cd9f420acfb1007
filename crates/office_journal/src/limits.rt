//! The limit of a journal.

/// The most entries of a journal.
pub const MAX_ENTRIES: usize = 1_000_000;
