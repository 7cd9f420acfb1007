//! What a run is drawn from.

/// What a run is drawn from.
#[derive(Clone, Copy, PartialEq, Eq)]
pub struct Schedule {
    /// The seed of the generator: one seed gives one run.
    pub seed: u64,
    /// Of a hundred deliveries that are drawn, how many are left undone. From 100 on all are.
    pub loss: u64,
    /// How many steps there are.
    pub steps: u64,
}
