//! Datagrams that come, and the rules that they bring about.

ghost use Rattle.std.specs.Prelude.{◌≡◌, ◌≤◌, ◌<◌, false, IfOk, IfSome, MatchResult};
ghost use Rattle.own_lock.specs.Passes.{IsOf};
ghost use Rattle.locked_office.specs.Calls.{Stays};
ghost use Rattle.socket_pump.specs.Last.{last_of};
ghost use Rattle.socket_pump.specs.refinement.Stages.{HandledOne, HandledFrom, BrokeHandlingOne, BrokeHandlingAll};

use crate::heard::judged;
use crate::last::Lasts;
use crate::pump::{MOST_DATAGRAMS, MOST_RULES, PumpFault, fault_of};
use crate::senders::Senders;
use crate::wire::{Wire, WireFailed};
use frame_codec::decode;
use locked_office::Desk;
use own_lock::Pass;
use site_core::Office;
use site_core::laws::{full_at_the_limit, what_is_read_is_received};
use std::sync::Wait;

/// Datagrams, each that was taken followed by the rules that come next.
///
/// What a datagram brought is used before the next one is looked at, so that a bottle serves the sessions that wait for it
/// before it is asked for again.
pub(crate) fn handle_all<R: Wait, W: Wire>(
    rt: &R,
    last: &mut Lasts,
    wire: &mut W,
    desk: &Desk,
    pass: &mut Pass<Office>,
    senders: &mut Senders,
) -> Result<(u32, u32, u32), PumpFault>
    requires of { IsOf desk.now pass.old }
    requires idle { pass.old.holds ≡ false }
    ensures stays { Stays desk.now pass.old pass.new }
    ensures few { IfOk result (λ r. r.2 ≤ 2048) }
    ensures handled { MatchResult result
        (λ r. HandledFrom W.tells pass.old.tag desk.now.key (last_of last.old) pass.old (W.account wire.old) senders.old r.0 r.1 r.2 (W.account wire.new) pass.new senders.new (last_of last.new))
        (λ f. BrokeHandlingAll W.tells pass.old.tag desk.now.key (last_of last.old) pass.old (W.account wire.old) f (W.account wire.new) pass.new (last_of last.new)) }
{
    let mut taken = 0;
    let mut refused = 0;
    let mut followed = 0;
    while taken + refused < MOST_DATAGRAMS {
        match handle_one(rt, last, wire, desk, pass, senders) {
            Ok(None) => return Ok((taken, refused, followed)),
            Ok(Some((true, rules))) => {
                taken += 1;
                followed += rules;
            }
            Ok(Some((false, rules))) => {
                refused += 1;
                followed += rules;
            }
            Err(fault) => return Err(fault),
        }
    }
    Ok((taken, refused, followed))
}

// One datagram, whether the office took it, and how many rules followed it.
fn handle_one<R: Wait, W: Wire>(
    rt: &R,
    last: &mut Lasts,
    wire: &mut W,
    desk: &Desk,
    pass: &mut Pass<Office>,
    senders: &mut Senders,
) -> Result<Option<(bool, u32)>, PumpFault>
    requires of { IsOf desk.now pass.old }
    requires idle { pass.old.holds ≡ false }
    ensures stays { Stays desk.now pass.old pass.new }
    ensures few { IfOk result (λ o. IfSome o (λ did. did.1 ≤ 64)) }
    ensures handled { MatchResult result
        (λ o. HandledOne W.tells pass.old.tag desk.now.key (last_of last.old) pass.old (W.account wire.old) senders.old o (W.account wire.new) pass.new senders.new (last_of last.new))
        (λ f. BrokeHandlingOne W.tells pass.old.tag desk.now.key (last_of last.old) pass.old (W.account wire.old) f (W.account wire.new) pass.new (last_of last.new)) }
{
    let mut buffer = [0; 128];
    let count = match wire.receive(&mut buffer) {
        Ok(Some(count)) => count,
        Ok(None) => return Ok(None),
        Err(WireFailed) => return Err(PumpFault::WireFailed),
    };
    full_at_the_limit();
    what_is_read_is_received();
    let bytes = &buffer[..count];
    let read = decode(bytes);
    let answer = desk.take_read(rt, pass, &read);
    senders.note(&read, &answer);
    match judged(answer) {
        Ok(true) => {}
        Ok(false) => return Ok(Some((false, 0))),
        Err(fault) => return Err(fault),
    }
    last.hear(&read);
    match desk.advance(rt, pass, MOST_RULES) {
        Ok(rules) => Ok(Some((true, rules))),
        Err(stopped) => Err(fault_of(stopped.refusal)),
    }
}
