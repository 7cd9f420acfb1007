//! Wires in memory, by which tests tell what an office hears and see what it says, and wires that fail.
//!
//! - A [`MemoryWire`] hands out what [`MemoryWire::comes`] put in, and writes down all that goes out and all that it answered. It
//!   fails where it has no memory for that. Contracts see its account (`socket_pump`'s `specs/memory/Wires.antt`).
//! - A [`FaultWire`] is any wire that fails once more, at the call that was chosen (`specs/memory/OneFault.antt`). It meets the contract of
//!   a wire, so what `socket_pump` says of a turn over a wire that fails holds over it.
//! - A [`Datagram`] is the bytes of one.
//!
//! Not said: what a wire in memory hands out next.

mod fault;
mod wire;

pub use crate::memory::fault::FaultWire;
pub use crate::memory::wire::{Datagram, MemoryWire};
