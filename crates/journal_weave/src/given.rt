//! Journals as they are given.

use site_core::Entry;

/// What is given of an office's journal.
///
/// Bytes that no frame can be are no entry, so what is read of such a journal is its entries before them, and that it
/// goes on. No schedule is woven from it, and the entry after its last one is named, or an earlier one.
#[derive(Drop)]
pub struct GivenJournal {
    /// Its entries, the oldest first.
    pub entries: Vec<Entry>,
    /// Whether it ends with them. If not, what it has next is no entry that any office makes.
    pub ends: bool,
}
