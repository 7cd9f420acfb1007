//! A wire in memory, which tells all.

ghost use Rattle.std.specs.Prelude.{◌≡◌, ◌≤◌, IfOk, IfSome, length};
ghost use Rattle.socket_pump.specs.Wires.{counted, risen};

use crate::{Wire, WireFailed};
use office_map::OfficeId;
use std::alloc::{AllocError, Global};
use std::collections::VecDeque;
use std::marker::Model;

/// The bytes of a datagram. Contracts see them as a list.
#[derive(Drop)]
pub struct Datagram {
    bytes: Vec<u8>,
}

impl Model for Datagram {
    ghost use Rattle.std.specs.Prelude.{ℕ, List};

    ghost Value = { List ℕ };

    ghost view = { λ d. d.bytes.items };
}

impl Datagram {
    /// A copy of these bytes.
    pub fn of(alloc: Global, bytes: &[u8]) -> Result<Datagram, AllocError>
        ensures { IfOk result (λ d. d ≡ bytes.now) }
    {
        let mut copy = Vec::new(alloc);
        copy.extend_from_slice(bytes)?;
        Ok(Datagram { bytes: copy })
    }

    /// The bytes.
    pub fn bytes(&self) -> &[u8]
        ensures { result.now ≡ self.now }
    {
        self.bytes.as_slice()
    }
}

/// A wire whose datagrams stay in memory: what comes is put in by [`MemoryWire::comes`], and what went out is told by
/// [`MemoryWire::accepted`]. Contracts see its account.
#[derive(Drop)]
pub struct MemoryWire {
    alloc: Global,
    inbox: VecDeque<Datagram>,
    failures: u64,
    received: Vec<Option<Datagram>>,
    accepted: Vec<(OfficeId, Datagram)>,
}

impl Model for MemoryWire {
    ghost use Rattle.socket_pump.specs.Wires.{Account};

    ghost Value = { Account };

    ghost view = { λ w. record { failures = w.failures; received = w.received.items; accepted = w.accepted.items } };
}

impl MemoryWire {
    /// A wire on which nothing came. It fails for want of memory alone.
    pub fn new(alloc: Global) -> MemoryWire
        ensures { result ≡ counted 0 }
    {
        MemoryWire {
            alloc,
            inbox: VecDeque::new(alloc),
            failures: 0,
            received: Vec::new(alloc),
            accepted: Vec::new(alloc),
        }
    }

    /// A datagram comes, after those that came before. Of more than 128 bytes the first 128 are handed out.
    pub fn comes(&mut self, bytes: &[u8]) -> Result<(), AllocError>
        ensures { self.new ≡ self.old }
    {
        let datagram = Datagram::of(self.alloc, bytes)?;
        self.inbox.push_back(datagram)?;
        Ok(())
    }

    /// What went out, the first first.
    pub fn accepted(&self) -> &[(OfficeId, Datagram)]
        ensures { result.now ≡ self.now.accepted }
    {
        self.accepted.as_slice()
    }

    fn failed(&mut self) -> WireFailed
        ensures { self.new ≡ record self.old { failures = risen self.old.failures } }
    {
        self.failures = self.failures.saturating_add(1);
        WireFailed
    }
}

impl Wire for MemoryWire {
    ghost use Rattle.std.specs.Prelude.{true};

    ghost account = { λ w. w };

    ghost tells = { true };

    fn receive(&mut self, buffer: &mut [u8; 128]) -> Result<Option<usize>, WireFailed> {
        let Some(datagram) = self.inbox.pop_front() else {
            let Ok(()) = self.received.push(None) else {
                return Err(self.failed());
            };
            return Ok(None);
        };
        let count = datagram.bytes().len().min(128);
        buffer[..count].copy_from_slice(&datagram.bytes()[..count]);
        let Ok(kept) = Datagram::of(self.alloc, &buffer[..count]) else {
            return Err(self.failed());
        };
        let Ok(()) = self.received.push(Some(kept)) else {
            return Err(self.failed());
        };
        Ok(Some(count))
    }

    fn send(&mut self, to: OfficeId, bytes: &[u8]) -> Result<(), WireFailed> {
        let Ok(datagram) = Datagram::of(self.alloc, bytes) else {
            return Err(self.failed());
        };
        let Ok(()) = self.accepted.push((to, datagram)) else {
            return Err(self.failed());
        };
        Ok(())
    }
}
