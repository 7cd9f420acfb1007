//! Sockets of offices: wires at an address, which can be waited at.
//!
//! - [`Socket`]: a wire that has an address, knows those of the neighbours, and is waited at until a datagram comes, it is woken, or so
//!   many milliseconds are over. How it was waited is kept in [`Waits`] (`specs/sockets/Waits.antt`).
//! - [`Wakes`] wakes who waits there; [`Binds`] makes both.
//! - [`UdpSockets`] is UDP; what comes in at a file that it heeds, as a client's input, ends a wait too. Tests have sockets in memory.
//!
//! Not said: that an address is one of this machine's; over UDP, what the system was asked, and how long it waited.

mod socket;
mod udp;
mod waits;

pub use crate::sockets::socket::{Binds, Socket, Wakes};
pub use crate::sockets::udp::{UdpSocket, UdpSockets};
pub use crate::sockets::waits::Waits;
