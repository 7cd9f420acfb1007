//! Sockets in memory. Their ports are the numbers of mailboxes, from 1.

use frame_codec::decode;
use office_map::OfficeId;
use office_stations::{Binds, Socket, Waits, Wakes};
use socket_pump::memory::{Datagram, FaultWire};
use socket_pump::{Contact, Wire, WireFailed};
use std::alloc::{AllocError, Global};
use std::collections::VecDeque;
use std::io;
use std::net::{Ipv4Addr, SocketAddr};
use std::rt::Clock;
use std::sync::atomic::{AtomicU64, Ordering};
use std::sync::{Mutex, Wait};
use std::thread::{Parker, sleep, yield_now};
use std::time::{Duration, Instant};

/// More seconds than any wait for something that comes takes.
const LONG: u64 = 10;

/// The datagrams that came to a socket and weren't received, how long it was to wait, in milliseconds, whether its alarm is gone,
/// where who waits at it sleeps, and whether one slept there for long.
#[derive(Drop)]
pub(crate) struct Mailbox {
    came: Mutex<VecDeque<Datagram>>,
    pub(crate) waited: AtomicU64,
    pub(crate) gone: AtomicU64,
    sleeper: Parker,
    pub(crate) forgotten: AtomicU64,
}

impl Mailbox {
    /// As many as a plan may have offices.
    pub(crate) fn some(alloc: Global) -> Result<Vec<Mailbox>, AllocError> {
        let mut boxes = Vec::new(alloc);
        for _ in 0..16 {
            boxes.push(Mailbox {
                came: Mutex::new(VecDeque::new(alloc)),
                waited: AtomicU64::new(0),
                gone: AtomicU64::new(0),
                sleeper: Parker::new(),
                forgotten: AtomicU64::new(0),
            })?;
        }
        Ok(boxes)
    }

    // Sleeps until something comes or the alarm rings. Once neither did for long, it sleeps no more.
    fn sleep<R: Wait + Clock>(&self, rt: &R) {
        if self.forgotten.load(Ordering::SeqCst) > 0 {
            yield_now();
            return;
        }
        let long = Duration::from_secs(LONG);
        let Ok(before) = Instant::now(rt) else {
            return;
        };
        self.sleeper.park_timeout(rt, long);
        if before.elapsed(rt).is_ok_and(|slept| slept >= long) {
            self.forgotten.store(1, Ordering::SeqCst);
        }
    }
}

/// What comes to a socket in memory.
#[derive(Clone, Copy, PartialEq, Eq)]
pub(crate) enum Comes {
    /// What is sent to it.
    Frames,
    /// The same, and who waits at it sleeps until something comes or it is woken, however short the wait is to be.
    FramesAlone,
    /// One byte, which is no frame, as often as it is asked.
    Noise,
    /// Nothing, and nobody waits at it.
    Nothing,
}

/// What binds them. The one with this number, from 0, is refused, and of each so many calls of `receive` and `send` go before one
/// fails. A frame for the office with the number `lost` is lost, and said to be so for want of a route.
#[derive(Drop)]
pub(crate) struct MemorySockets<'a, R: Wait + Clock> {
    rt: &'a R,
    alloc: Global,
    boxes: &'a [Mailbox],
    bound: AtomicU64,
    refused: u64,
    fails_at: u64,
    comes: Comes,
    lost: u8,
}

impl<'a, R: Wait + Clock> MemorySockets<'a, R> {
    pub(crate) fn new(
        rt: &'a R,
        alloc: Global,
        boxes: &'a [Mailbox],
        refused: u64,
        fails_at: u64,
    ) -> MemorySockets<'a, R> {
        MemorySockets {
            rt,
            alloc,
            boxes,
            bound: AtomicU64::new(0),
            refused,
            fails_at,
            comes: Comes::Frames,
            lost: u8::MAX,
        }
    }

    /// None is refused and none fails, and that comes to them.
    pub(crate) fn to_which(
        rt: &'a R,
        alloc: Global,
        boxes: &'a [Mailbox],
        comes: Comes,
    ) -> MemorySockets<'a, R> {
        MemorySockets {
            rt,
            alloc,
            boxes,
            bound: AtomicU64::new(0),
            refused: u64::MAX,
            fails_at: u64::MAX,
            comes,
            lost: u8::MAX,
        }
    }
}

/// Where one of them hands out what came to its mailbox, and puts what goes out into those of others.
#[derive(Drop)]
pub(crate) struct Mailing<'a, R: Wait + Clock> {
    rt: &'a R,
    alloc: Global,
    boxes: &'a [Mailbox],
    own: usize,
    peers: [usize; 16],
    comes: Comes,
    lost: u8,
    contacts: [Contact; 16],
}

/// One of them.
#[derive(Drop)]
pub(crate) struct MemorySocket<'a, R: Wait + Clock> {
    mail: FaultWire<Mailing<'a, R>>,
    waits: Waits,
}

/// What wakes who sleeps at a socket in memory. It says at the mailbox when it is gone, and who submits the office's sessions with it.
pub(crate) struct Alarm<'a> {
    mailbox: Option<&'a Mailbox>,
}

impl<'a> Drop for Alarm<'a> {
    fn drop(self) {
        let Self { mailbox } = self;
        if let Some(mailbox) = mailbox {
            mailbox.gone.store(1, Ordering::SeqCst);
        }
    }
}

impl<'a> Wakes for Alarm<'a> {
    fn wake(&self) {
        if let Some(mailbox) = self.mailbox {
            mailbox.sleeper.unpark();
        }
    }
}

impl<'a, R: Wait + Clock> Binds for MemorySockets<'a, R> {
    type Socket = MemorySocket<'a, R>;

    type Alarm = Alarm<'a>;

    fn bind(&self, at: SocketAddr) -> io::Result<(MemorySocket<'a, R>, Alarm<'a>)> {
        if !at.ip().is_loopback() {
            return Err(io::Error::from(io::ErrorKind::AddrNotAvailable));
        }
        let count = self.bound.fetch_add(1, Ordering::SeqCst);
        if count == self.refused {
            return Err(io::Error::from(io::ErrorKind::AddrInUse));
        }
        let own = if at.port() == 0 {
            count as usize
        } else {
            usize::from(at.port()) - 1
        };
        let mail = Mailing {
            rt: self.rt,
            alloc: self.alloc,
            boxes: self.boxes,
            own,
            peers: [usize::MAX; 16],
            comes: self.comes,
            lost: self.lost,
            contacts: [Contact::none(); 16],
        };
        let socket = MemorySocket {
            mail: FaultWire::new(mail, self.fails_at),
            waits: Waits::none(),
        };
        let alarm = Alarm {
            mailbox: self.boxes.get(own),
        };
        Ok((socket, alarm))
    }
}

impl<'a, R: Wait + Clock> Mailing<'a, R> {
    // Waits at its mailbox, for so many milliseconds at most, if nobody sleeps there.
    fn rest(&self, mailbox: &Mailbox, most: u64) {
        if most == 0 || self.comes == Comes::Nothing {
            yield_now();
        } else if self.comes == Comes::FramesAlone {
            mailbox.sleep(self.rt);
        } else {
            sleep(self.rt, Duration::from_millis(1));
        }
    }

    fn hear(&mut self, bytes: &[u8]) {
        if let Ok(frame) = decode(bytes) {
            if let Some(contact) = self.contacts.get_mut(usize::from(frame.from())) {
                contact.heard = contact.heard.saturating_add(1);
            }
        }
    }

    fn count_lost(&mut self, to: OfficeId) {
        if let Some(contact) = self.contacts.get_mut(to.index()) {
            contact.lost = contact.lost.saturating_add(1);
            contact.cause = Some(101);
        }
    }

    fn count_gone(&mut self, to: OfficeId) {
        if let Some(contact) = self.contacts.get_mut(to.index()) {
            contact.went = contact.went.saturating_add(1);
        }
    }
}

impl<'a, R: Wait + Clock> Wire for Mailing<'a, R> {
    ghost use Rattle.socket_pump.specs.Wires.{counted};
    ghost use Rattle.std.specs.Prelude.{false};

    ghost account = { λ _. counted 0 };

    ghost tells = { false };

    fn receive(&mut self, buffer: &mut [u8; 128]) -> Result<Option<usize>, WireFailed> {
        if self.comes == Comes::Noise {
            buffer[0] = 0;
            return Ok(Some(1));
        }
        let Some(mailbox) = self.boxes.get(self.own) else {
            return Ok(None);
        };
        let datagram = mailbox.came.lock(self.rt).pop_front();
        let Some(datagram) = datagram else {
            return Ok(None);
        };
        let count = datagram.bytes().len().min(64);
        buffer[..count].copy_from_slice(&datagram.bytes()[..count]);
        self.hear(&buffer[..count]);
        Ok(Some(count))
    }

    fn send(&mut self, to: OfficeId, bytes: &[u8]) -> Result<(), WireFailed> {
        if to.number() == self.lost {
            self.count_lost(to);
            return Ok(());
        }
        self.count_gone(to);
        let peer = self.peers.get(to.index()).copied().unwrap_or(usize::MAX);
        let Some(mailbox) = self.boxes.get(peer) else {
            return Ok(());
        };
        let Ok(datagram) = Datagram::of(self.alloc, bytes) else {
            return Ok(());
        };
        let mut came = mailbox.came.lock(self.rt);
        // Where there is no room it is lost.
        let _ = came.push_back(datagram);
        mailbox.sleeper.unpark();
        Ok(())
    }
}

impl<'a, R: Wait + Clock> Wire for MemorySocket<'a, R> {
    ghost use Rattle.socket_pump.specs.Wires.{counted};
    ghost use Rattle.socket_pump.specs.memory.OneFault.{with_fault};
    ghost use Rattle.std.specs.Prelude.{false};

    ghost account = { λ s. with_fault s.mail.left (counted 0) };

    ghost tells = { false };

    fn receive(&mut self, buffer: &mut [u8; 128]) -> Result<Option<usize>, WireFailed> {
        self.mail.receive(buffer)
    }

    fn send(&mut self, to: OfficeId, bytes: &[u8]) -> Result<(), WireFailed> {
        self.mail.send(to, bytes)
    }
}

impl<'a, R: Wait + Clock> Socket for MemorySocket<'a, R> {
    ghost waits = { λ s. s.waits };

    fn address(&self) -> io::Result<SocketAddr> {
        let port = u16::try_from(self.mail.wire.own)
            .unwrap_or(0)
            .wrapping_add(1);
        Ok(SocketAddr::from((Ipv4Addr::LOCALHOST, port)))
    }

    fn set_peer(&mut self, v: OfficeId, at: SocketAddr) {
        if self.mail.wire.comes != Comes::Nothing {
            self.mail.wire.peers[v.index()] = usize::from(at.port()).saturating_sub(1);
        }
    }

    fn contact(&self, v: OfficeId) -> Contact {
        self.mail.wire.contacts[v.index()]
    }

    fn poll(&mut self, most: u64) -> Result<(), WireFailed> {
        self.waits = self.waits.and(most);
        let mail = &self.mail.wire;
        if let Some(mailbox) = mail.boxes.get(mail.own) {
            mailbox.waited.fetch_add(most, Ordering::SeqCst);
            mail.rest(mailbox, most);
        }
        Ok(())
    }
}
