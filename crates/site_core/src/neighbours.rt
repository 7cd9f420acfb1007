//! What an office shares with its neighbours: forks, bottles, and a channel to each of them.
//!
//! - [`Pairs`] are an office's forks (a `Table`), its bottles (a `Bar`) and one channel to each neighbour. Each keeps what is
//!   held here in the form that it needs; that they agree is the invariant of `Pairs`, and no contract of an office mentions
//!   it. Each rule call is its row: `NotNow` exactly where the guard is false (`not_now`), and else its effect (`done`), with
//!   the message that it sends: `DoesForkRule` and `DoesBottleRule`, in `specs/neighbours/refinement/PairsOfCode.antt`, beside the
//!   invariant and which pairs the code means (`pairs_of`). The rows are `after_fork_rule` and `after_bottle_rule` in
//!   `specs/neighbours/Pairs.antt`.
//! - A frame that comes is first looked at ([`Pairs::check`]: the fault is `frame_fault`), and one without a fault is taken
//!   ([`Pairs::take`]): what it brings is held, and after it what was kept, up to the first gap or breach (`after_taking`).
//! - [`Pairs::first_given`] and the three beside it tell the least record or neighbour of whom a rule may be done, and
//!   [`Pairs::may_eat`] whether all forks are here of an office that waits for them.
//!
//! No call takes memory but [`Pairs::open`]. No row stands twice: those of forks are of `dining_core`, those of bottles of
//! `drinking_core`, the numbers of messages are of `window_link`, and what a frame may bring is of `token_channel`.

mod channels;
mod pairs;

pub use crate::neighbours::pairs::Pairs;
