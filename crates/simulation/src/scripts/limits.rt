//! The limits of a script.

/// The most bytes of its text.
pub const MAX_BYTES: usize = 16_777_216;

/// The most rules of one line.
pub const MAX_RULES: u16 = 1000;

/// The most steps of one line.
pub const MAX_STEPS: u32 = 1_000_000;

/// The steps of a line without a number, of which there are never as many: each adds an entry, and the journals of 16 offices have
/// room for one fewer.
pub(crate) const STEPS_TO_THE_END: u32 = 16_000_001;
