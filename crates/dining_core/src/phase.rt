//! How far an office is with eating.

/// An office thinks, then waits for its forks, then eats.
#[derive(Clone, Copy, PartialEq, Eq)]
pub enum Phase {
    Thinking,
    Hungry,
    Eating,
}
