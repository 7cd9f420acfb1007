//! How far a session is.

use crate::counters::Counters;

/// How far a session is: its place, how many turns of its loops have begun, and whether its last condition held.
#[derive(Drop)]
pub struct Course {
    pub place: usize,
    pub counters: Counters,
    pub flag: bool,
}
