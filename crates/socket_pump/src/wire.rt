//! A wire to other offices.

ghost use Rattle.std.specs.Prelude.{◌≡◌, ◌≤◌, Bool, IfOk, IfSome};
ghost use Rattle.socket_pump.specs.Wires.{Account, Hands, Accepts};

use office_map::OfficeId;
use thiserror::Error;

/// A call of the wire failed. What it was about is lost.
#[derive(Clone, Copy, Debug, PartialEq, Eq, Error)]
#[error("U1 WireFailed")]
pub struct WireFailed;

/// Where datagrams come from and go to.
///
/// Contracts see one record of failures, answers and datagrams, and whether it tells the last two. So one clause covers
/// a wire in memory, where tests see every byte, and a socket, of which only the failures are known.
pub trait Wire {
    /// How many calls failed, what `receive` answered, and what `send` accepted.
    ghost account: { Self → Account };

    /// Whether it tells what was received and accepted, or its failures alone.
    ghost tells: { Bool };

    /// The next datagram that came, as far as the buffer has room, and how many bytes that is; or none where none came.
    fn receive(&mut self, buffer: &mut [u8; 128]) -> Result<Option<usize>, WireFailed>
        ensures within { IfOk result (λ o. IfSome o (λ n. n ≤ 128)) }
        ensures account { Hands tells (account self.old) result buffer.new (account self.new) };

    /// A datagram goes out.
    fn send(&mut self, to: OfficeId, bytes: &[u8]) -> Result<(), WireFailed>
        ensures account { Accepts tells (account self.old) to bytes.now result (account self.new) };
}
