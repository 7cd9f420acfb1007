//! Datagrams that come, and what the office makes of them.

ghost use Rattle.std.specs.Prelude.{◌≡◌, ◌<◌, false, MatchResult};
ghost use Rattle.own_lock.specs.Passes.{IsOf};
ghost use Rattle.locked_office.specs.Calls.{Stays};
ghost use Rattle.socket_pump.specs.Turns.{BrokeHearing};
ghost use Rattle.socket_pump.specs.refinement.Stages.{HeardOne, HeardFrom, BrokeOne, Judged};

use crate::pump::{MOST_DATAGRAMS, PumpFault};
use crate::senders::Senders;
use crate::wire::{Wire, WireFailed};
use frame_codec::decode;
use locked_office::Desk;
use own_lock::Pass;
use site_core::laws::{full_at_the_limit, what_is_read_is_received};
use site_core::{Office, Refusal, Reply};
use std::sync::Wait;

/// Datagrams, at most so many: how many were taken, and refused.
pub(crate) fn hear<R: Wait, W: Wire>(
    rt: &R,
    wire: &mut W,
    desk: &Desk,
    pass: &mut Pass<Office>,
    senders: &mut Senders,
) -> Result<(u32, u32), PumpFault>
    requires of { IsOf desk.now pass.old }
    requires idle { pass.old.holds ≡ false }
    ensures stays { Stays desk.now pass.old pass.new }
    ensures heard { MatchResult result
        (λ r. HeardFrom W.tells pass.old.tag desk.now.key pass.old (W.account wire.old) senders.old r.0 r.1 (W.account wire.new) pass.new senders.new)
        (λ f. BrokeHearing W.tells pass.old.tag desk.now.key pass.old (W.account wire.old) f (W.account wire.new) pass.new) }
{
    let mut taken = 0;
    let mut refused = 0;
    while taken + refused < MOST_DATAGRAMS {
        match hear_one(rt, wire, desk, pass, senders) {
            Ok(None) => return Ok((taken, refused)),
            Ok(Some(true)) => taken += 1,
            Ok(Some(false)) => refused += 1,
            Err(fault) => return Err(fault),
        }
    }
    Ok((taken, refused))
}

// One datagram, and whether the office took it.
fn hear_one<R: Wait, W: Wire>(
    rt: &R,
    wire: &mut W,
    desk: &Desk,
    pass: &mut Pass<Office>,
    senders: &mut Senders,
) -> Result<Option<bool>, PumpFault>
    requires of { IsOf desk.now pass.old }
    requires idle { pass.old.holds ≡ false }
    ensures stays { Stays desk.now pass.old pass.new }
    ensures heard { MatchResult result
        (λ o. HeardOne W.tells pass.old.tag desk.now.key pass.old (W.account wire.old) senders.old o (W.account wire.new) pass.new senders.new)
        (λ f. BrokeOne W.tells pass.old.tag desk.now.key pass.old (W.account wire.old) f (W.account wire.new) pass.new) }
{
    let mut buffer = [0; 128];
    let count = match wire.receive(&mut buffer) {
        Ok(Some(count)) => count,
        Ok(None) => return Ok(None),
        Err(WireFailed) => return Err(PumpFault::WireFailed),
    };
    full_at_the_limit();
    what_is_read_is_received();
    let bytes = &buffer[..count];
    let read = decode(bytes);
    let answer = desk.take_read(rt, pass, &read);
    senders.note(&read, &answer);
    match judged(answer) {
        Ok(took) => Ok(Some(took)),
        Err(fault) => Err(fault),
    }
}

/// Whether the office took a datagram.
pub(crate) fn judged(answer: Result<Reply, Refusal>) -> Result<bool, PumpFault>
    ensures { Judged result answer }
{
    match answer {
        Ok(_) => Ok(true),
        Err(Refusal::Memory) => Err(PumpFault::Memory),
        Err(Refusal::JournalFull) => Err(PumpFault::JournalFull),
        Err(_) => Ok(false),
    }
}
