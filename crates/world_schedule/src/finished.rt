//! Sessions that finished.

use office_map::OfficeId;

/// A session that finished: its office, and its ticket there.
///
/// Its outcome is the office's, and its program is in the office's journal. Both are found by the ticket, and no place
/// is computed from it. That the office finished a session with that ticket is the world's invariant; that it finds
/// that session and no other follows from rising tickets.
#[derive(Clone, Copy, PartialEq, Eq)]
pub struct Finished {
    pub office: OfficeId,
    pub ticket: u32,
}
