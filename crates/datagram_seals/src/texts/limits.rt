//! The limits of keys, as the definitions have them.

/// The fewest bytes of a key.
pub const FEWEST_BYTES: usize = 16;

/// The most bytes of a key: those of a block of the digest.
pub const MOST_BYTES: usize = 64;
