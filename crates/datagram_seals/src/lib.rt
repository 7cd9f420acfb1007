//! Datagrams sealed under the secret of two neighbours.
//!
//! - [`frames`]: the seal, and when a datagram is opened. [`texts`]: the secrets of an office, by a text of lines.
//! - [`wires`] and [`sockets`]: wires and sockets over others, which seal what goes out and open what comes.
#![tactic(auto)]

pub mod frames;
pub mod sockets;
pub mod texts;
pub mod wires;
