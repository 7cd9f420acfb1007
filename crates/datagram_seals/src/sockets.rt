//! Sockets whose datagrams are frames under seals, where there are secrets.
//!
//! - A [`SealedSocket`] is a socket over another one. Under seals it is a [`SealedWire`] over the datagrams of that one, and a neighbour
//!   is heard where a datagram was opened under the secret with it; else it does what the one below does. It is waited at as that one
//!   is, and what else is known of the way to a neighbour is what that one knows.
//! - What it tells is `told_under` (`specs/sockets/Sealed.antt`) of the [`Secrets`] that its type names. So it is known of a run that is proved
//!   for whatever sockets: what its socket told is told under these secrets, and each frame in it was opened under them.
//! - [`SealedSockets`] binds them, all under the same secrets, or all without.
//!
//! So what turns an office over any socket turns it under seals. Not said: over UDP, which datagrams came; how many of a neighbour
//! were opened.

mod socket;

pub use crate::sockets::socket::{SealedSocket, SealedSockets, Secrets};
pub use crate::wires::SealedWire;
