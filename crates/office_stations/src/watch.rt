//! How far a run is, for people.

use crate::remarks::Unmet;

/// How many of a run's sessions finished, of how many, and how many datagrams came, went and were refused.
#[derive(Clone, Copy, PartialEq, Eq)]
pub struct Progress {
    pub finished: u64,
    pub sessions: u64,
    pub came: u64,
    pub went: u64,
    pub refused: u64,
}

/// Who looks on. It is told about once a second while a run goes on.
pub trait Watch {
    fn tell(&self, progress: Progress);

    /// A neighbour was never reached or heard yet.
    fn tell_of(&self, unmet: &Unmet<'_>);

    /// What is said of a run that has ended: of what it left, or nothing.
    fn end(&self, _remarks: &str) {}
}

/// Nobody.
#[derive(Clone, Copy)]
pub struct Quiet;

impl Watch for Quiet {
    fn tell(&self, _progress: Progress) {}

    fn tell_of(&self, _unmet: &Unmet<'_>) {}
}
