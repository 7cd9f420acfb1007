//! The limits of an agenda.

/// The most sessions that are submitted and unfinished.
pub const MAX_UNFINISHED: usize = 64;

/// The most instructions of one piece of work.
pub const LONGEST_PIECE: u16 = 1000;
