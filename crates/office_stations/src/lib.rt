//! An office at a socket: what it takes to turn it, and what it is told by who looks on.
//!
//! - [`Station`]: its pump and its socket, which wait and turn, and know when the neighbours were last heard; [`at_address`] binds one
//!   at the plan's address. Before a turn it waits once, as long at most as its [`Pace`] says (`specs/Waits.antt`). What it knows of
//!   its neighbours, [`Hearing`] and [`Ways`], may be handed from thread to thread.
//! - [`Turning`]: by which of its calls a pump is turned, the plain or the adaptive one.
//! - [`submit_some`] submits the sessions of a list that are the office's, as it takes them. So a run is rounds of sessions and turns
//!   (`specs/Rounds.antt`), of which those count that [`TimedTurn`] says.
//! - [`Binds`], [`Socket`], [`Wakes`]: what is needed of a network, from `socket_pump::sockets`.
//! - [`Gate`]: is called before each turn, so that a test can hold an office.
//! - [`Watch`]: is told once a second how far a run is, and of neighbours that were never reached or heard; [`Shared`] is what
//!   several offices know of that. Who submits an office's sessions sleeps there in the office's [`Room`], while it takes no more.
//! - [`remarks`]: what people are told of sessions that are left, and of neighbours that were never reached or heard.
//!
//! How often a turn comes, and that a datagram arrives, is no promise.
//!
//! Not said: that nothing was waited for at the socket but by [`Station::wait`]; that who sleeps in a room wakes. Tests show the last.
#![tactic(auto)]

mod address;
mod around;
mod client;
mod fault;
mod gate;
mod hearing;
mod opening;
mod pace;
pub mod remarks;
mod room;
mod sessions;
mod shared;
mod station;
mod turning;
mod watch;

pub use crate::address::without_address;
pub use crate::around::Around;
pub use crate::client::submit_some;
pub use crate::fault::RunFault;
pub use crate::gate::{Gate, Open};
pub use crate::hearing::{Hearing, Ways};
pub use crate::opening::OpeningFault;
pub use crate::pace::{Pace, TimedTurn};
pub use crate::room::Room;
pub use crate::sessions::{count_finished, count_of};
pub use crate::shared::Shared;
pub use crate::station::{Station, at_address};
pub use crate::turning::Turning;
pub use crate::watch::{Progress, Quiet, Watch};
pub use socket_pump::sockets::{Binds, Socket, UdpSocket, UdpSockets, Waits, Wakes};
