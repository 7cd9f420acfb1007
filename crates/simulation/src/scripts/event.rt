//! What a line of a script says.

use office_map::OfficeId;
use site_core::Rule;

/// An event of a script. However many events submit a session, its program is kept once.
#[derive(Clone, Copy, PartialEq, Eq)]
pub enum ScriptEvent {
    /// The session with this number in the file, from 1, is submitted at its office.
    Submit(u64),
    /// The session with this ticket is withdrawn at an office.
    Withdraw(OfficeId, u32),
    /// An office does a rule.
    Do(OfficeId, Rule),
    /// An office does so many rules at most, left to itself.
    Advance(OfficeId, u16),
    /// The world does so many steps at most, left to itself.
    Settle(u32),
    /// The world goes on, left to itself, until no session is left.
    SettleToTheEnd,
    /// An office makes a frame for a neighbour: of the i-th message that waits for it, from 1, or with 0 of the count
    /// alone.
    Send(OfficeId, OfficeId, usize),
    /// The frame that was sent as the k-th of all, from 1, comes to its addressee.
    Deliver(usize),
}
