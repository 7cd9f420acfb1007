//! A wire over UDP. It tells its failures, and nothing of its datagrams: what becomes of those is the network's. So a frame that
//! the system doesn't take is one that was accepted and lost, like any other that doesn't arrive: no route, no such address, a
//! filter, a refusal that an earlier frame met, want of room. What is known of each neighbour is counted.

ghost use Rattle.std.specs.Prelude.{◌≡◌, ◌≤◌, ◌<◌, IfOk, IfSome, OnErr, OnOk, OnSome};
ghost use Rattle.socket_pump.specs.Contacts.{contact_with, address_of, IsFresh, Finds};
ghost use Rattle.socket_pump.specs.Wires.{risen};

use crate::contact::{Contact, Contacts};
use crate::wire::{Wire, WireFailed};
use mio::net::UdpSocket;
use mio::unix::SourceFd;
use mio::{Events, Interest, Poll, Token, Waker};
use office_map::OfficeId;
use std::alloc::Global;
use std::io;
use std::marker::Model;
use std::net::{Net, SocketAddr};
use std::os::fd::RawFd;
use std::time::Duration;

/// The most reads of one call. A read may fail for what an earlier frame met; where so many fail in a row, the socket can't be used
/// any more.
const MOST_READS: u32 = 64;

/// A UDP socket, and where the neighbours are. Contracts see how many of its calls failed, where each neighbour is, and what is
/// known of it.
///
/// No list of errors says which of them pass: a socket that can't be used any more fails at the next read, and there 64
/// failures in a row say so, since the system tells each error of an earlier frame once. That a neighbour can't be
/// reached is told by its `Contact`, and ends nothing: an office with three neighbours goes on without one.
#[derive(Drop)]
pub struct UdpWire {
    socket: UdpSocket,
    poll: Poll,
    events: Events,
    peers: [Option<SocketAddr>; 16],
    contacts: Contacts,
    failures: u64,
}

impl Model for UdpWire {
    ghost use Rattle.socket_pump.specs.Contacts.{UdpView};

    ghost Value = { UdpView };

    ghost view = { λ w. record { failures = w.failures; peers = w.peers; contacts = w.contacts } };
}

impl UdpWire {
    /// A socket at this address; at port 0 the system chooses one. No neighbour is known yet.
    ///
    /// # Errors
    /// What the system answers, where the address can't be bound or it has no descriptor left, or where memory runs out.
    pub fn bind(net: &impl Net, alloc: Global, at: SocketAddr) -> io::Result<UdpWire>
        ensures { IfOk result IsFresh }
    {
        let mut socket = UdpSocket::bind(net, at)?;
        let poll = Poll::new(net)?;
        poll.registry()
            .register(&mut socket, Token(0), Interest::READABLE)?;
        Ok(UdpWire {
            socket,
            poll,
            events: Events::with_capacity(alloc, 8)?,
            peers: [None; 16],
            contacts: Contacts::none(),
            failures: 0,
        })
    }

    /// The address that it has.
    ///
    /// # Errors
    /// What the system answers.
    pub fn address(&self) -> io::Result<SocketAddr> {
        self.socket.local_addr()
    }

    /// What ends a wait at this socket, from any thread.
    ///
    /// # Errors
    /// What the system answers, where it has no descriptor left.
    pub fn waker(&self) -> io::Result<Waker> {
        Waker::new(self.poll.registry(), Token(1))
    }

    /// What comes in at this file ends a wait too, from now on: once for all that has come since the last wait. A file of which the
    /// system tells no such thing, as one on a disk, ends none.
    pub fn heed(&mut self, file: RawFd)
        ensures { self.new ≡ self.old }
    {
        let mut source = SourceFd(&file);
        let _ = self
            .poll
            .registry()
            .register(&mut source, Token(2), Interest::READABLE);
    }

    /// Where a neighbour is, from now on.
    pub fn set_peer(&mut self, v: OfficeId, at: SocketAddr)
        requires { v < 16 }
        ensures finds { Finds self.old v at self.new }
        ensures same { self.new ≡ record self.old { peers = self.new.peers } }
    {
        self.peers[v.index()] = Some(at);
    }

    /// Waits for a datagram, or until it is woken, so many milliseconds at most.
    ///
    /// # Errors
    /// What the system answers. It is counted, as a failure of the other calls.
    pub fn poll(&mut self, most: u64) -> io::Result<()>
        ensures fine { OnOk result (self.new ≡ self.old) }
        ensures failed { OnErr result (self.new ≡ record self.old { failures = risen self.old.failures }) }
    {
        let time = Duration::from_millis(most);
        match self.poll.poll(&mut self.events, Some(time)) {
            Ok(()) => Ok(()),
            Err(error) => {
                let WireFailed = self.failed();
                Err(error)
            }
        }
    }

    /// What is known of the way to a neighbour, and from it.
    pub fn contact(&self, v: OfficeId) -> Contact
        requires { v < 16 }
        ensures { result ≡ contact_with self.now.contacts v }
    {
        self.contacts.of(v)
    }

    fn peer(&self, v: OfficeId) -> Option<SocketAddr>
        ensures address { result ≡ address_of self.now.peers v }
        ensures within { OnSome result (v < 16) }
    {
        match self.peers.get(v.index()) {
            Some(peer) => *peer,
            None => None,
        }
    }

    fn failed(&mut self) -> WireFailed
        ensures { self.new ≡ record self.old { failures = risen self.old.failures } }
    {
        self.failures = self.failures.saturating_add(1);
        WireFailed
    }
}

impl Wire for UdpWire {
    ghost use Rattle.socket_pump.specs.Wires.{Hands, Accepts, counted};
    ghost use Rattle.socket_pump.specs.Contacts.{ComesIn, GoesOut};
    ghost use Rattle.std.specs.Prelude.{false};

    ghost account = { λ w. counted w.failures };

    ghost tells = { false };

    fn receive(&mut self, buffer: &mut [u8; 128]) -> Result<Option<usize>, WireFailed>
        ensures within { IfOk result (λ o. IfSome o (λ n. n ≤ 128)) }
        ensures account { Hands false (counted self.old.failures) result buffer.new (counted self.new.failures) }
        ensures comes_in { ComesIn self.old result buffer.new self.new }
    {
        match read(&self.socket, buffer) {
            Ok(Some(count)) => {
                self.contacts.came(&buffer[..count]);
                Ok(Some(count))
            }
            Ok(None) => Ok(None),
            Err(WireFailed) => Err(self.failed()),
        }
    }

    fn send(&mut self, to: OfficeId, bytes: &[u8]) -> Result<(), WireFailed>
        ensures account { Accepts false (counted self.old.failures) to bytes.now result (counted self.new.failures) }
        ensures goes_out { GoesOut self.old to result self.new }
    {
        let Some(peer) = self.peer(to) else {
            return Err(self.failed());
        };
        let outcome = match self.socket.send_to(bytes, peer) {
            Ok(_) => Ok(()),
            Err(error) => Err(error.raw_os_error()),
        };
        self.contacts.tried(to, outcome);
        Ok(())
    }
}

// The next datagram, or none where none came, or a failure where no read gets through.
fn read(socket: &UdpSocket, buffer: &mut [u8; 128]) -> Result<Option<usize>, WireFailed>
    ensures within { IfOk result (λ o. IfSome o (λ n. n ≤ 128)) }
{
    for _ in 0..MOST_READS {
        match socket.recv_from(buffer) {
            Ok((count, _)) => return Ok(Some(count)),
            Err(error) => {
                if error.kind() == io::ErrorKind::WouldBlock {
                    return Ok(None);
                }
            }
        }
    }
    Err(WireFailed)
}
