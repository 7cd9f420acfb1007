//! How far a run is.

/// How many of the office's entries stand in its store, how many of its sessions are told as finished, and how many that it submitted
/// haven't finished.
#[derive(Clone, Copy)]
pub struct Books {
    pub stood: usize,
    pub told: usize,
    pub left: usize,
}
