//! A socket over another one.

ghost use Rattle.std.specs.Prelude.{◌≡◌, ℕ, List, Option, None};
ghost use Rattle.std.specs.Option.{option_copied};
ghost use Rattle.socket_pump.specs.Wires.{risen};
ghost use Rattle.datagram_seals.specs.sockets.Sealed.{secrets_if, told_under};

use crate::frames::Secret;
use crate::wires::SealedWire;
use office_map::OfficeId;
use socket_pump::sockets::{Binds, Socket};
use socket_pump::{Contact, Contacts, Wire, WireFailed};
use std::io;
use std::marker::{Brand, PhantomData};
use std::net::SocketAddr;

/// The secrets of sockets, if they have any, by the office with which each is shared.
///
/// They are known only when an office runs, and then all its sockets have them. So a type names them: whoever runs an office over
/// sockets of it can't put others in their place. A call picks what its own secrets are.
pub trait Secrets {
    ghost secrets: { Option (List (Option (List ℕ))) };
}

impl Secrets for Brand {
    ghost secrets = { None };
}

/// A socket whose datagrams are frames under these secrets, or, without any, one that does what the socket below does.
#[derive(Drop)]
pub struct SealedSocket<'a, S, K: Secrets> {
    /// The socket below, under the secrets.
    pub wire: SealedWire<'a, S>,
    /// Whether there are secrets.
    pub sealed: bool,
    /// Of each office, what came in datagrams that were opened.
    pub heard: Contacts,
    of: PhantomData<K>,
    ghost under: { secrets_if sealed wire.secrets.now ≡ K.secrets },
}

impl<'a, S, K: Secrets> SealedSocket<'a, S, K> {
    /// The socket under the secrets, where there are any. Nobody was heard yet.
    fn new(socket: S, secrets: Option<&'a [Option<Secret>]>) -> SealedSocket<'a, S, K>
        requires { option_copied secrets ≡ K.secrets }
    {
        match secrets {
            Some(secrets) => SealedSocket {
                wire: SealedWire::new(socket, secrets),
                sealed: true,
                heard: Contacts::none(),
                of: PhantomData,
            },
            None => SealedSocket {
                wire: SealedWire::new(socket, &[]),
                sealed: false,
                heard: Contacts::none(),
                of: PhantomData,
            },
        }
    }
}

impl<S: Socket, K: Secrets> Wire for SealedSocket<'_, S, K> {
    ghost account = { λ s. told_under K.secrets s.wire.failures (S.account s.wire.wire) };

    ghost tells = { S.tells };

    fn receive(&mut self, buffer: &mut [u8; 128]) -> Result<Option<usize>, WireFailed> {
        if !self.sealed {
            return self.wire.wire.receive(buffer);
        }
        match self.wire.receive(buffer) {
            Ok(Some(count)) => {
                self.heard.came(&buffer[..count]);
                Ok(Some(count))
            }
            Ok(None) => Ok(None),
            Err(WireFailed) => Err(WireFailed),
        }
    }

    fn send(&mut self, to: OfficeId, bytes: &[u8]) -> Result<(), WireFailed> {
        if !self.sealed {
            return self.wire.wire.send(to, bytes);
        }
        self.wire.send(to, bytes)
    }
}

impl<S: Socket, K: Secrets> Socket for SealedSocket<'_, S, K> {
    ghost waits = { λ s. S.waits s.wire.wire };

    fn address(&self) -> io::Result<SocketAddr> {
        self.wire.wire.address()
    }

    fn set_peer(&mut self, v: OfficeId, at: SocketAddr) {
        self.wire.wire.set_peer(v, at);
    }

    fn contact(&self, v: OfficeId) -> Contact {
        let contact = self.wire.wire.contact(v);
        if !self.sealed {
            return contact;
        }
        let heard = self.heard.of(v);
        Contact {
            heard: heard.heard,
            version: heard.version,
            ..contact
        }
    }

    fn poll(&mut self, most: u64) -> Result<(), WireFailed> {
        match self.wire.wire.poll(most) {
            Ok(()) => Ok(()),
            Err(WireFailed) => {
                self.wire.failures = risen(self.wire.failures);
                Err(WireFailed)
            }
        }
    }
}

/// A count that is one more, or at its top.
fn risen(count: u64) -> u64
    ensures { result ≡ risen count }
{
    count.saturating_add(1)
}

/// What binds sockets under these secrets, where there are any, over what binds those below.
#[derive(Drop)]
pub struct SealedSockets<'b, 'a, B, K: Secrets> {
    binds: &'b B,
    secrets: Option<&'a [Option<Secret>]>,
    of: PhantomData<K>,
    ghost under: { option_copied secrets ≡ K.secrets },
}

impl<'b, 'a, B, K: Secrets> SealedSockets<'b, 'a, B, K> {
    pub fn new(binds: &'b B, secrets: Option<&'a [Option<Secret>]>) -> SealedSockets<'b, 'a, B, K>
        requires { option_copied secrets ≡ K.secrets }
    {
        SealedSockets {
            binds,
            secrets,
            of: PhantomData,
        }
    }
}

impl<'b, 'a, B: Binds, K: Secrets> Binds for SealedSockets<'b, 'a, B, K> {
    type Socket = SealedSocket<'a, B::Socket, K>;

    type Alarm = B::Alarm;

    fn bind(&self, at: SocketAddr) -> io::Result<(SealedSocket<'a, B::Socket, K>, B::Alarm)> {
        let (socket, alarm) = self.binds.bind(at)?;
        Ok((SealedSocket::new(socket, self.secrets), alarm))
    }
}
