//! The forks of one office: who eats first of it and its neighbours.
//!
//! - A [`Table`] is an office's side: its phase, and of each neighbour's fork whether it is here, clean, and asked for.
//!   Each rule call is its row: `NotNow` exactly where the guard is false (`not_now`), and else its effect (`done`):
//!   `DoesRule`, in `specs/refinement/Tables.antt`, beside `diner_of`, which says which office a table means. The rows
//!   are `may` and `act` in `specs/Diners.antt`.
//! - [`laws`] has all tables with the forks and request tokens on the way (`specs/Worlds.antt`): each fork and each
//!   token has one place, two neighbours never eat at once, from an accepted plan precedence never has a ring, and only
//!   eating turns it, which puts the eater last. Where all stand still (`specs/Standstill.antt`) and an office is
//!   thirsty, one that is thirsty eats.
//!
//! - [`masks`] are sets of small numbers, each a bit of one word: of offices here, and of records in `drinking_core`.
//!
//! No call takes memory but [`Table::open`]. It stands on `office_map` and `bottle_values`.
//!
//! An office precedes a neighbour when it has their fork clean, or the neighbour has it dirty, or it is on the way to
//! the office. A fork is clean when it comes and dirty once its office ate; only a dirty fork is given away. So nothing
//! but eating changes who precedes whom, and an office that eats comes after all its neighbours: an order of the
//! offices in which each comes before those that it precedes stays one when the eater is put last. A plan whose offices
//! precede one another in a ring is refused, so there is such an order at the start, and then ever after.
//!
//! Not said: that anyone does a rule, that a hungry office eats, that what is on the way comes; anything of a fork that
//! comes where it is already (that it is away is a condition); how many instructions a look at a mask takes.
#![tactic(auto)]

mod fault;
pub mod laws;
mod masked_table;
pub mod masks;
mod phase;
mod places;
mod shared_fork;
mod table;

pub use fault::NotNow;
pub use masked_table::MaskedTable;
pub use phase::Phase;
pub use shared_fork::{Fork, SharedFork};
pub use table::Table;
