//! What is said of an event that was accepted.

use site_core::Reply;

/// What is said of an event that was accepted.
#[derive(Clone, Copy, PartialEq, Eq)]
pub enum Said {
    /// What the office replied.
    Replied(Reply),
    /// How many rules an office did, left to itself.
    Rules(u16),
    /// After how many steps no session was left.
    Settled(u32),
    /// How many steps were done, where more are left.
    Open(u32),
}
