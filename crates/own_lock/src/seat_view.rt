//! What a seat at the lock's table knows. Only proofs see these types: no value of a view or a part is
//! ever made.

use std::collections::LinkedList;
use std::snapshot::Snapshot;

/// What one pass knows: its tag, the entries that it has seen, and its own among them.
///
/// A pass's own entries are told twice: the rule has them as all entries of its tag in the history, and in what the
/// pass has seen. Neither gives the other, since a pass could have seen less than it made. Said outright, the second is
/// at hand in a pass alone, without its lock (`Pass::tag`, clause `mine`).
pub struct Part<E> {
    pub tag: u8,
    pub seen: LinkedList<E>,
    pub mine: LinkedList<E>,
}

/// The lock's key, whether the seat holds the state, and what the passes at the seat know. A seat that
/// was joined to another has no key and no part.
///
/// So the key is an option, and every view with a pass has the lock's. A step's report can't read what the table was opened
/// with: that is why views carry it. Each tag has one seat in the rule, by a function from tags to seats, in place of
/// 'no two passes have one tag': a split or a meeting changes that function at one tag, and no two views are ever
/// compared.
pub struct SeatView<K, E> {
    pub key: Option<K>,
    pub holds: bool,
    pub parts: LinkedList<Part<E>>,
}

/// The state that the lock was opened with, and how many passes.
#[derive(Drop)]
pub struct Opening<S> {
    pub state: Snapshot<S>,
    pub passes: u8,
}
