//! A wire over another one.

ghost use Rattle.std.specs.Prelude.{◌≡◌, ◌≤◌, length, take, IfOk, IfSome};
ghost use Rattle.std.specs.Option.{option_copied};
ghost use Rattle.socket_pump.specs.Wires.{risen, Hands, Accepts};
ghost use Rattle.datagram_seals.specs.wires.SealedWires.{opened_by, secret_with, sender_of, told_of, IsSealedWith, IsPosted};

use crate::frames::{MAX_SEALED_BYTES, SEAL_BYTES, Secret};
use office_map::OfficeId;
use socket_pump::{Wire, WireFailed};

/// The place of a frame's byte that names its sender.
const SENDER: usize = 8;

/// A wire whose datagrams are frames under seals: of the secrets the one at an office's number is shared with that office.
#[derive(Drop)]
pub struct SealedWire<'a, W> {
    /// Where the datagrams come from and go to.
    pub wire: W,
    /// What is shared with each office.
    pub secrets: &'a [Option<Secret>],
    /// How many calls failed.
    pub failures: u64,
}

impl<'a, W> SealedWire<'a, W> {
    /// The wire under these secrets. No call of it failed yet.
    pub fn new(wire: W, secrets: &'a [Option<Secret>]) -> SealedWire<'a, W>
        ensures wire { result.wire ≡ wire }
        ensures secrets { result.secrets.now ≡ secrets.now }
        ensures failures { result.failures ≡ 0 }
    {
        SealedWire {
            wire,
            secrets,
            failures: 0,
        }
    }
}

impl<W: Wire> Wire for SealedWire<'_, W> {
    ghost account = { λ s. told_of s.secrets.now s.failures (W.account s.wire) };

    ghost tells = { W.tells };

    fn receive(&mut self, buffer: &mut [u8; 128]) -> Result<Option<usize>, WireFailed>
        ensures within { IfOk result (λ o. IfSome o (λ n. n ≤ 128)) }
        ensures account { Hands W.tells (told_of self.old.secrets.now self.old.failures (W.account self.old.wire)) result buffer.new (told_of self.new.secrets.now self.new.failures (W.account self.new.wire)) }
        ensures secrets { self.new.secrets.now ≡ self.old.secrets.now }
    {
        match self.wire.receive(buffer) {
            Ok(Some(count)) => Ok(Some(handed_on(self.secrets, &buffer[..count]))),
            Ok(None) => Ok(None),
            Err(WireFailed) => {
                self.failures = risen(self.failures);
                Err(WireFailed)
            }
        }
    }

    fn send(&mut self, to: OfficeId, bytes: &[u8]) -> Result<(), WireFailed>
        ensures account { Accepts W.tells (told_of self.old.secrets.now self.old.failures (W.account self.old.wire)) to bytes.now result (told_of self.new.secrets.now self.new.failures (W.account self.new.wire)) }
        ensures secrets { self.new.secrets.now ≡ self.old.secrets.now }
        ensures sealed { IfOk result (λ _. IsPosted W.tells self.old.secrets.now (W.account self.old.wire) to bytes.now (W.account self.new.wire)) }
    {
        let mut datagram = [0; MAX_SEALED_BYTES];
        let Some(length) = sealed_with(self.secrets, to.index(), bytes, &mut datagram) else {
            self.failures = risen(self.failures);
            return Err(WireFailed);
        };
        match self.wire.send(to, &datagram[..length]) {
            Ok(()) => Ok(()),
            Err(WireFailed) => {
                self.failures = risen(self.failures);
                Err(WireFailed)
            }
        }
    }
}

/// A count that is one more, or at its top.
fn risen(count: u64) -> u64
    ensures { result ≡ risen count }
{
    count.saturating_add(1)
}

/// How many bytes of the datagram are its frame's; 0 where it doesn't open.
fn handed_on(secrets: &[Option<Secret>], datagram: &[u8]) -> usize
    ensures frame { take result datagram.now ≡ opened_by (secret_with secrets.now (sender_of datagram.now)) datagram.now }
    ensures within { result ≤ length datagram.now }
{
    opened_by(secret_with(secrets, sender_of(datagram)), datagram)
}

/// The office that a datagram names as its sender.
fn sender_of(datagram: &[u8]) -> usize
    ensures { result ≡ sender_of datagram.now }
{
    match datagram.get(SENDER) {
        Some(byte) => *byte as usize,
        None => 0,
    }
}

/// The secret with that office, if there is one.
fn secret_with(secrets: &[Option<Secret>], office: usize) -> Option<&Secret>
    ensures { option_copied result ≡ secret_with secrets.now office }
{
    match secrets.get(office) {
        Some(Some(secret)) => Some(secret),
        _ => None,
    }
}

/// How many bytes of the datagram are the frame's of which it is the sealed form; 0 where it is none's.
fn opened_by(secret: Option<&Secret>, datagram: &[u8]) -> usize
    ensures frame { take result datagram.now ≡ opened_by (option_copied secret.entry) datagram.now }
    ensures within { result ≤ length datagram.now }
{
    let Some(secret) = secret else {
        return 0;
    };
    match secret.open(datagram) {
        Some(frame) => frame.len(),
        None => 0,
    }
}

/// The frame is sealed at the front of `out` under the secret with that office: how many bytes it has with its seal. None where
/// there is no such secret, or the frame is too long.
fn sealed_with(
    secrets: &[Option<Secret>],
    office: usize,
    frame: &[u8],
    out: &mut [u8; MAX_SEALED_BYTES],
) -> Option<usize>
    ensures within { IfSome result (λ n. n ≤ 128) }
    ensures sealed { IfSome result (λ n. IsSealedWith secrets.now office frame.now (take n out.new)) }
{
    if frame.len() > MAX_SEALED_BYTES - SEAL_BYTES {
        return None;
    }
    let secret = secret_with(secrets, office)?;
    Some(secret.seal(frame, out))
}
