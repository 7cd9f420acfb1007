//! Wires that are bound to an address.

ghost use Rattle.std.specs.Prelude.{◌≡◌, ◌<◌, OnOk, OnErr};
ghost use Rattle.socket_pump.specs.sockets.Waits.{failed};
ghost use Rattle.socket_pump.specs.sockets.Waits.{one_more};
ghost use Rattle.socket_pump.specs.declared.sockets.waits.Waits.{Waits};

use crate::{Contact, Wire, WireFailed};
use office_map::OfficeId;
use std::io;
use std::net::SocketAddr;

/// A wire that has an address, knows those of the neighbours, and can be waited at.
pub trait Socket: Wire + Drop {
    /// How it was waited at.
    ghost waits: { Self → Waits };

    /// The address that it has.
    ///
    /// # Errors
    /// What the system answers.
    fn address(&self) -> io::Result<SocketAddr>;

    /// Where a neighbour is, from now on.
    fn set_peer(&mut self, v: OfficeId, at: SocketAddr)
        requires { v < 16 }
        ensures account { Self.account self.new ≡ Self.account self.old }
        ensures waits { waits self.new ≡ waits self.old };

    /// What is known of the way to a neighbour, and from it.
    fn contact(&self, v: OfficeId) -> Contact
        requires { v < 16 };

    /// Waits for a datagram, or until it is woken, so many milliseconds at most. That it failed is counted, as of the other calls.
    fn poll(&mut self, most: u64) -> Result<(), WireFailed>
        ensures waits { waits self.new ≡ one_more most (waits self.old) }
        ensures fine { OnOk result (Self.account self.new ≡ Self.account self.old) }
        ensures failed { OnErr result (Self.account self.new ≡ failed (Self.account self.old)) };
}

/// What wakes who waits at a socket.
pub trait Wakes: Drop {
    fn wake(&self);
}

/// What binds sockets.
pub trait Binds {
    type Socket: Socket;

    type Alarm: Wakes;

    /// A socket at this address, and what wakes who waits at it. At port 0 it has one of the system's choice.
    ///
    /// # Errors
    /// What the system answers.
    fn bind(&self, at: SocketAddr) -> io::Result<(Self::Socket, Self::Alarm)>;
}
