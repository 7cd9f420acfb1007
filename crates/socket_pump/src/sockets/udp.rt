//! Sockets of UDP.

ghost use Rattle.std.specs.Prelude.{◌≡◌, ◌≤◌, false, IfOk, IfSome};
ghost use Rattle.socket_pump.specs.Wires.{Accepts, Hands, counted};

use crate::sockets::socket::{Binds, Socket, Wakes};
use crate::sockets::waits::Waits;
use crate::{Contact, UdpWire, Wire, WireFailed};
use office_map::OfficeId;
use std::alloc::Global;
use std::io;
use std::net::{Net, SocketAddr};
use std::os::fd::RawFd;

/// The sockets of UDP.
#[derive(Drop)]
pub struct UdpSockets<'a, N: Net> {
    net: &'a N,
    alloc: Global,
    /// What comes in at this file ends a wait at a socket too.
    heeded: Option<RawFd>,
}

impl<'a, N: Net> UdpSockets<'a, N> {
    pub fn new(net: &'a N, alloc: Global) -> UdpSockets<'a, N> {
        UdpSockets {
            net,
            alloc,
            heeded: None,
        }
    }

    /// The same, at which what comes in at this file ends a wait too: so an office hears its client at once.
    pub fn heeding(net: &'a N, alloc: Global, file: RawFd) -> UdpSockets<'a, N> {
        UdpSockets {
            net,
            alloc,
            heeded: Some(file),
        }
    }
}

impl<'a, N: Net> Binds for UdpSockets<'a, N> {
    type Socket = UdpSocket;

    type Alarm = mio::Waker;

    fn bind(&self, at: SocketAddr) -> io::Result<(UdpSocket, mio::Waker)> {
        let mut wire = UdpWire::bind(self.net, self.alloc, at)?;
        if let Some(file) = self.heeded {
            wire.heed(file);
        }
        let waker = wire.waker()?;
        let waits = Waits::none();
        Ok((UdpSocket { wire, waits }, waker))
    }
}

/// One of them, which keeps how it was waited at.
#[derive(Drop)]
pub struct UdpSocket {
    wire: UdpWire,
    waits: Waits,
}

impl Wire for UdpSocket {
    ghost account = { λ s. counted s.wire.failures };

    ghost tells = { false };

    fn receive(&mut self, buffer: &mut [u8; 128]) -> Result<Option<usize>, WireFailed> {
        self.wire.receive(buffer)
    }

    fn send(&mut self, to: OfficeId, bytes: &[u8]) -> Result<(), WireFailed> {
        self.wire.send(to, bytes)
    }
}

impl Socket for UdpSocket {
    ghost waits = { λ s. s.waits };

    fn address(&self) -> io::Result<SocketAddr> {
        self.wire.address()
    }

    fn set_peer(&mut self, v: OfficeId, at: SocketAddr) {
        self.wire.set_peer(v, at);
    }

    fn contact(&self, v: OfficeId) -> Contact {
        self.wire.contact(v)
    }

    fn poll(&mut self, most: u64) -> Result<(), WireFailed> {
        self.waits = self.waits.and(most);
        match self.wire.poll(most) {
            Ok(()) => Ok(()),
            Err(_) => Err(WireFailed),
        }
    }
}

impl Wakes for mio::Waker {
    fn wake(&self) {
        // Who isn't woken looks up by itself, a little later.
        let _ = mio::Waker::wake(self);
    }
}
