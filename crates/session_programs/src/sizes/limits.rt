//! The limits of a session's length, as the definitions have them.

/// The most statements of a session, blocks included.
pub const MOST_STATEMENTS: u32 = 256;

/// The most that a session may cost.
pub const MOST_COST: u32 = 10_000;

/// Each node has at most 21 bytes besides those of a text, each statement at most 24 besides, and the first and the last line have
/// 29. So a session that has no more nodes, bytes of texts and statements than this is never too long.
///
/// Such a session isn't measured. They are counted apart from the cost: of an `if` only the dearer part costs, and
/// `repeat 0` costs 1 whatever stands in it.
pub(crate) const SHORT_EXTENT: u32 = 681;

/// The most bytes of a session's text, where each office and record counts as 16.
pub const MOST_BYTES: u32 = 16_384;

/// One past that: as far as sizes are counted.
pub(crate) const PAST_BYTES: u32 = MOST_BYTES + 1;
