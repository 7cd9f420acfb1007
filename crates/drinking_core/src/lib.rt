//! The bottles of one office: which are here, with which values, and how far the office is with its session.
//!
//! - A [`Bar`] is an office's side: its phase, which records its session needs, and of each of its records the bottle
//!   with its value, if it is here, and whether the bottle's request token is. Each rule call is its row: `NotNow`
//!   exactly where the guard is false (`not_now`), and else its effect (`done`): `DoesRule`, in
//!   `specs/refinement/Bars.antt`, beside `drinker_of`, which says which office a bar means. The rows are `may` and
//!   `act` in `specs/Drinkers.antt`.
//! - [`laws`] has all bars with the bottles and request tokens on the way (`specs/Worlds.antt`): each bottle and each
//!   token has one place, and only the end of a session changes the value of a bottle. Where all stand still
//!   (`specs/Standstill.antt`), a thirsty office lacks a fork.
//!
//! No call takes memory but [`Bar::open`]. It stands on `dining_core`, `office_map` and `bottle_values`.
//!
//! Rules are given what they depend on and don't own: to start, the records of the first waiting session; to give a
//! bottle, the office's own table; to finish, what the session wrote, or nothing while its work goes on. So the crate
//! knows no programs and no queue. A rule more is a case more of `BottleRule`, `may` and `act`.
//!
//! Not said: that the table of `give_bottle` is the same office's, and that what `finish` is given is what the session
//! wrote (the caller hands both in); anything of a bottle that comes where it is already (that it is away is a
//! condition); that a thirsty office drinks; which neighbour has the fork that one lacks (it is one that keeps a
//! bottle); how many instructions a look at a mask takes.
#![tactic(auto)]

mod bar;
pub mod laws;
mod masked_bar;
mod phase;
mod places;
mod shared_bottle;
mod spots;

pub use bar::Bar;
pub use masked_bar::MaskedBar;
pub use phase::Phase;
