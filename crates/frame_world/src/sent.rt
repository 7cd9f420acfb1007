//! Where a frame that was sent is told.

use office_map::OfficeId;

/// An entry that tells a frame: the office that sent it, and the place of the entry in its journal, from 0.
///
/// A journal only grows, and keeps each frame that it tells. So who lists frames need keep no frame a second time.
#[derive(Clone, Copy, PartialEq, Eq)]
pub struct SentAt {
    pub office: OfficeId,
    pub entry: u32,
}
