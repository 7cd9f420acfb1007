//! Runs of all offices of a plan in one process.
//!
//! - [`scripts`]: by a script, which says what happens or lets the offices go on by themselves. What is printed is what the
//!   definitions say of that script.
//! - [`random`]: by draws from a seed. Each run is one of a world, of which the headline holds; which one is drawn is no promise.
#![tactic(auto)]

pub mod random;
pub mod scripts;
