//! A wire that fails once.

ghost use Rattle.std.specs.Prelude.{◌≡◌, ◌≤◌, true, false, Some, IfOk, IfSome, IsErr};
ghost use Rattle.socket_pump.specs.Wires.{Hands, Accepts};
ghost use Rattle.socket_pump.specs.memory.OneFault.{is_due, after_call, with_fault};

use crate::{Wire, WireFailed};
use office_map::OfficeId;

/// A wire that passes so many calls on, fails the next one, and passes on all that come after it.
///
/// At the call that fails the wire in it isn't asked: what was to go out is lost, and what was to come in comes at the
/// next call. It is told as a failure of the wire, beside those of the wire in it, so whoever has such a wire has one
/// that meets the contract of any.
#[derive(Drop)]
pub struct FaultWire<W> {
    /// How many calls are passed on before the one that fails; none where it has failed.
    pub left: Option<u64>,
    /// What calls are passed on to.
    pub wire: W,
}

impl<W> FaultWire<W> {
    /// That wire, of which so many calls, of `receive` and `send`, are passed on before one fails.
    pub fn new(wire: W, calls: u64) -> FaultWire<W>
        ensures left { result.left ≡ Some calls }
        ensures wire { result.wire ≡ wire }
    {
        FaultWire {
            left: Some(calls),
            wire,
        }
    }
}

impl<W: Wire> Wire for FaultWire<W> {
    ghost account = { λ w. with_fault w.left (W.account w.wire) };

    ghost tells = { W.tells };

    fn receive(&mut self, buffer: &mut [u8; 128]) -> Result<Option<usize>, WireFailed>
        ensures within { IfOk result (λ o. IfSome o (λ n. n ≤ 128)) }
        ensures account { Hands W.tells (with_fault self.old.left (W.account self.old.wire)) result buffer.new (with_fault self.new.left (W.account self.new.wire)) }
        ensures left { self.new.left ≡ after_call self.old.left }
        ensures fails { is_due self.old.left ≡ true → IsErr result × (self.new.wire ≡ self.old.wire) }
        ensures passes { is_due self.old.left ≡ false → Hands W.tells (W.account self.old.wire) result buffer.new (W.account self.new.wire) }
    {
        let fails = is_due(self.left);
        self.left = after_call(self.left);
        if fails {
            return Err(WireFailed);
        }
        self.wire.receive(buffer)
    }

    fn send(&mut self, to: OfficeId, bytes: &[u8]) -> Result<(), WireFailed>
        ensures account { Accepts W.tells (with_fault self.old.left (W.account self.old.wire)) to bytes.now result (with_fault self.new.left (W.account self.new.wire)) }
        ensures left { self.new.left ≡ after_call self.old.left }
        ensures fails { is_due self.old.left ≡ true → IsErr result × (self.new.wire ≡ self.old.wire) }
        ensures passes { is_due self.old.left ≡ false → Accepts W.tells (W.account self.old.wire) to bytes.now result (W.account self.new.wire) }
    {
        let fails = is_due(self.left);
        self.left = after_call(self.left);
        if fails {
            return Err(WireFailed);
        }
        self.wire.send(to, bytes)
    }
}

// Whether the next call is the one that fails.
fn is_due(left: Option<u64>) -> bool
    ensures { result ≡ is_due left }
{
    match left {
        Some(n) => n == 0,
        None => false,
    }
}

// How many calls are passed on before it, once there was a call more.
fn after_call(left: Option<u64>) -> Option<u64>
    ensures { result ≡ after_call left }
{
    let Some(n) = left else { return None };
    if n == 0 {
        return None;
    }
    Some(n - 1)
}
