//! What a world does next, left to itself.

use office_map::OfficeId;
use site_core::Rule;

/// What a world does next, left to itself.
#[derive(Clone, Copy, PartialEq, Eq)]
pub enum NextStep {
    /// An office does a rule.
    Rule(OfficeId, Rule),
    /// The message of this number, from one office to another, is sent and taken. It is the next for the other.
    Message(OfficeId, OfficeId, u64),
    /// Nothing: no office has a session that is current or waits.
    AllFinished,
}
