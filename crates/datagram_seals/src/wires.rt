//! A wire whose datagrams are frames under seals.
//!
//! [`SealedWire`] is a wire over another one: what it sends is sealed under the secret with the office to which it goes, and what
//! comes is opened under the secret with the office that it names as its sender. What doesn't open is handed on as no bytes, which no
//! office takes for a frame: it is refused and counted as any datagram that is none. Its account is that of the wire below, with
//! frames for datagrams (`told_of`, in `specs/wires/SealedWires.antt`), and each frame in it was opened ([`laws::each_is_opened`]). Each
//! datagram that it lets out is its frame's sealed form (clause `sealed` of `send`).
//!
//! Not said: over a socket, which tells nothing, which datagrams came; where secrets come from; that an office has one with each of its
//! neighbours. Without one a send fails, and is counted.

pub mod laws;
mod wire;

pub use crate::wires::wire::SealedWire;
