//! What happens in a world.

use office_map::OfficeId;
use session_programs::Program;
use site_core::Rule;

/// An event of a world.
#[derive(Drop)]
pub enum WorldEvent {
    /// A session is submitted at an office.
    Submit(OfficeId, Program),
    /// A session is withdrawn at an office: the one with this ticket.
    Withdraw(OfficeId, u32),
    /// An office does a rule.
    Do(OfficeId, Rule),
    /// An office makes a frame for a neighbour: of the i-th message that waits for it, from 1, or with 0 of the count
    /// alone.
    Send(OfficeId, OfficeId, usize),
    /// The frame that was sent as the k-th of all, from 1, comes to its addressee.
    Deliver(usize),
}
