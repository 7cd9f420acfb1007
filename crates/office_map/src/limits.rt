//! The limits of plans, as the definitions have them.

/// The longest text of a plan, in bytes.
pub const TEXT_LIMIT: usize = 262_144;

/// The fewest offices of a plan.
pub const FEWEST_OFFICES: usize = 2;

/// The most offices of a plan.
pub const MOST_OFFICES: usize = 16;

/// The most records that two neighbours share.
pub const MOST_PAIR_RECORDS: usize = 8;
