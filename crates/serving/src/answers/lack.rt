//! What an office lacks for an answer.

/// What an office lacks for an answer.
#[derive(Clone, Copy, Debug, PartialEq, Eq)]
pub enum Lack {
    /// Its journal takes no entry more, so it takes no session more.
    JournalFull,
    Memory,
}
