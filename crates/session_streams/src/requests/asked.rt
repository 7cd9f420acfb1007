//! What a client asks.

use office_map::RecordId;
use session_language::{Program, SessionRefusal};

/// What a client asks of an office.
#[derive(Drop)]
pub enum Asked {
    /// That this session is done.
    Session(Program),
    /// The same under a ticket: once, however often it is asked.
    Numbered(u32, Program),
    /// Which value this record has.
    Look(RecordId),
    /// Something that can't be read.
    Misread(SessionRefusal),
}
