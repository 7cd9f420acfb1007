//! The limit of an office.

/// The instructions of a piece of work that is done unasked.
pub const USUAL_PIECE: u16 = 256;
