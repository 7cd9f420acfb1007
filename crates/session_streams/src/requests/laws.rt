//! What holds of what is asked.

ghost use Rattle.session_streams.specs.requests.RequestLaws.{PartsAreOne, TextsAreAsked, TicketsKeepTheirSessions};

use crate::laws::lines_close_one;

/// Bytes that come in parts ask for what they ask for as a whole.
pub fn parts_are_one()
    ensures { PartsAreOne }
{}

/// A text that isn't too long asks for what its lines ask for, one after the other.
pub fn texts_are_asked()
    ensures { TextsAreAsked }
{}

/// Between a line `ticket` and the next session nothing is asked for but that it can't be read, and that session has the
/// ticket, or isn't asked for.
pub fn tickets_keep_their_sessions()
    ensures { TicketsKeepTheirSessions }
{
    lines_close_one();
}
