//! The pump: datagrams in, rules, messages out.

ghost use Rattle.std.specs.Prelude.{◌≡◌, ◌<◌, ◌≤◌, ◌%◌, ◌⊎◌, ◌∷◌, [], ℕ, List, true, false, None, IfOk, MatchResult, length};
ghost use Rattle.office_map.specs.PlanValue.{are_neighbours};
ghost use Rattle.own_lock.specs.Passes.{IsOf};
ghost use Rattle.frame_codec.specs.Spelling.{spelling};
ghost use Rattle.office_journal.specs.declared.reply.Refusal.TheVariants as refusals;
ghost use Rattle.locked_office.specs.Calls.{Stays};
ghost use Rattle.socket_pump.specs.Wires.{Accepts};
ghost use Rattle.socket_pump.specs.Last.{last_of};
ghost use Rattle.socket_pump.specs.Chains.{Made};
ghost use Rattle.socket_pump.specs.Turns.{Turned, Stage, IsFaultOf, Told, BrokeTelling};
ghost use Rattle.socket_pump.specs.AdaptiveTurns.{AdaptiveTurned, AdaptiveStage};
ghost use Rattle.socket_pump.specs.refinement.Counts.{Acknowledges, AcknowledgesOnly};
ghost use Rattle.socket_pump.specs.refinement.Stages.{HandledFrom, BrokeHandlingAll, SpokeOf, SpokeTo, SpokeToAll, BrokenOf, BrokenTo, BrokenToAll, AreCounts, AreFor};

use crate::handled::handle_all;
use crate::heard::hear;
use crate::last::{Backoff, Lasts};
use crate::senders::Senders;
use crate::wire::{Wire, WireFailed};
use frame_codec::{Frame, MAX_LENGTH, encode};
use locked_office::{Desk, framed};
use office_map::{OfficeId, Plan};
use own_lock::Pass;
use site_core::laws::links_only_grow;
use site_core::{Office, Refusal};
use std::alloc::{AllocError, Global};
use std::marker::Model;
use std::sync::Wait;
use thiserror::Error;

/// The most datagrams of a turn.
pub const MOST_DATAGRAMS: u32 = 32;

/// The most rules of a turn.
pub const MOST_RULES: u32 = 64;

/// What a turn did: datagrams that the office took and that it refused, rules, and frames that went out.
#[derive(Clone, Copy, Debug, PartialEq, Eq)]
pub struct Turn {
    pub taken: u32,
    pub refused: u32,
    pub rules: u32,
    pub sent: u32,
}

/// Why a turn broke off. What was done before stands in the journal; a frame whose sending failed stands there as sent.
///
/// The code of a refusal is told, not its cause: of what the office refused for want of room this says which, and a
/// refused datagram is only counted.
#[derive(Clone, Copy, Debug, PartialEq, Eq, Error)]
pub enum PumpFault {
    #[error("{rule}", rule = WireFailed)]
    WireFailed,
    #[error("{rule}", rule = Refusal::JournalFull)]
    JournalFull,
    #[error("out of memory")]
    Memory,
}

/// A pump of one office. Contracts see whose it is, and when it last sent each message.
///
/// Its neighbours are those of its copy of the plan, so that no message to another can wait is known without asking the
/// office.
#[derive(Drop)]
pub struct Pump {
    plan: Plan,
    me: OfficeId,
    last: Lasts,
}

impl Model for Pump {
    ghost use Rattle.std.specs.Prelude.{◌<◌, length};
    ghost use Rattle.socket_pump.specs.Last.{PumpView};

    ghost Value = { PumpView };

    ghost view = { λ p. record { key = (p.plan, p.me); lasts = p.last } };

    ghost invariant = { λ p. p.me < length p.plan.offices };
}

impl Pump {
    /// A pump of that office, which sent nothing yet. It keeps a copy of the plan.
    ///
    /// # Errors
    /// Where there is no memory for the copy.
    pub fn open(alloc: Global, plan: &Plan, me: OfficeId) -> Result<Pump, AllocError>
        requires { me < length plan.now.offices }
        ensures key { IfOk result (λ p. p.key ≡ (plan.now, me)) }
        ensures last { IfOk result (λ p. (v n : ℕ) → last_of p.lasts v n ≡ None) }
    {
        Ok(Pump {
            plan: plan.copy(alloc)?,
            me,
            last: Lasts::new(),
        })
    }

    /// Takes in what came on the wire, at most 32 datagrams; then does the rules that come next, at most 64; then sends each message
    /// that waits and was never sent or was last sent at least 50 milliseconds ago; and then a count to each neighbour whose
    /// message came in this turn and who got none. `now` is in milliseconds, from any beginning, and of the same clock in each turn.
    ///
    /// # Errors
    /// `WireFailed` where a call of the wire failed, `JournalFull` and `Memory` where the office had no room for an entry. What
    /// was done before stands; a frame whose sending failed stands in the journal as sent, and is lost.
    pub fn turn<R: Wait, W: Wire>(
        &mut self,
        rt: &R,
        wire: &mut W,
        desk: &Desk,
        pass: &mut Pass<Office>,
        now: u64,
    ) -> Result<Turn, PumpFault>
        requires key { desk.now.key ≡ self.old.key }
        requires of { IsOf desk.now pass.old }
        requires idle { pass.old.holds ≡ false }
        ensures key { self.new.key ≡ self.old.key }
        ensures stays { Stays desk.now pass.old pass.new }
        ensures turned { MatchResult result
            (λ t. Turned W.tells pass.old.tag desk.now.key (last_of self.old.lasts) now pass.old (W.account wire.old) t (W.account wire.new) pass.new (last_of self.new.lasts))
            (λ f. Stage W.tells pass.old.tag desk.now.key (last_of self.old.lasts) now pass.old (W.account wire.old) f (W.account wire.new) pass.new (last_of self.new.lasts)) }
    {
        links_only_grow();
        let _ = self.plan.offices();
        let mut senders = Senders::none();
        let (taken, refused) = match hear(rt, wire, desk, pass, &mut senders) {
            Ok(counts) => counts,
            Err(fault) => return Err(fault),
        };
        let rules = match desk.advance(rt, pass, MOST_RULES) {
            Ok(rules) => rules,
            Err(stopped) => return Err(fault_of(stopped.refusal)),
        };
        let messages = match self.tell(rt, wire, desk, pass, &mut senders, Backoff::Constant, now) {
            Ok(sent) => sent,
            Err(fault) => return Err(fault),
        };
        let counts = match self.acknowledge(rt, wire, desk, pass, &senders) {
            Ok(sent) => sent,
            Err(fault) => return Err(fault),
        };
        Ok(Turn {
            taken,
            refused,
            rules,
            sent: messages + counts,
        })
    }

    /// A turn that answers what it hears at once, and spares a neighbour that it doesn't hear. It takes in what came on the wire, at
    /// most 32 datagrams, and does after each that was taken the rules that come next, at most 64; does the rules that come next
    /// then, at most 64; sends each message that waits and is due; and sends a count to each neighbour whose message came in this
    /// turn and who got none. `now` is as in [`Pump::turn`]; a pump is turned by one of the two, since the other marks nobody as
    /// heard.
    ///
    /// A message is due where it is new, and again when its pause is over: 50 milliseconds after it was first sent, and after
    /// each further time twice as long as before, at most 5 seconds, while the office takes no frame at all of its neighbour. With
    /// the first that it takes the pause is 50 milliseconds again.
    ///
    /// # Errors
    /// As [`Pump::turn`].
    pub fn adaptive_turn<R: Wait, W: Wire>(
        &mut self,
        rt: &R,
        wire: &mut W,
        desk: &Desk,
        pass: &mut Pass<Office>,
        now: u64,
    ) -> Result<Turn, PumpFault>
        requires key { desk.now.key ≡ self.old.key }
        requires of { IsOf desk.now pass.old }
        requires idle { pass.old.holds ≡ false }
        ensures key { self.new.key ≡ self.old.key }
        ensures stays { Stays desk.now pass.old pass.new }
        ensures turned { MatchResult result
            (λ t. AdaptiveTurned W.tells pass.old.tag desk.now.key (last_of self.old.lasts) now pass.old (W.account wire.old) t (W.account wire.new) pass.new (last_of self.new.lasts))
            (λ f. AdaptiveStage W.tells pass.old.tag desk.now.key (last_of self.old.lasts) now pass.old (W.account wire.old) f (W.account wire.new) pass.new (last_of self.new.lasts)) }
    {
        links_only_grow();
        let _ = self.plan.offices();
        let mut senders = Senders::none();
        let (taken, refused, followed) = match self.handle(rt, wire, desk, pass, &mut senders) {
            Ok(counts) => counts,
            Err(fault) => return Err(fault),
        };
        let finally = match desk.advance(rt, pass, MOST_RULES) {
            Ok(rules) => rules,
            Err(stopped) => return Err(fault_of(stopped.refusal)),
        };
        let messages = match self.tell(
            rt,
            wire,
            desk,
            pass,
            &mut senders,
            Backoff::Exponential,
            now,
        ) {
            Ok(sent) => sent,
            Err(fault) => return Err(fault),
        };
        let counts = match self.acknowledge(rt, wire, desk, pass, &senders) {
            Ok(sent) => sent,
            Err(fault) => return Err(fault),
        };
        Ok(Turn {
            taken,
            refused,
            rules: followed + finally,
            sent: messages + counts,
        })
    }

    // Datagrams, at most so many, each that was taken followed by the rules that come next: how many were taken, and refused, and
    // how many rules were done.
    fn handle<R: Wait, W: Wire>(
        &mut self,
        rt: &R,
        wire: &mut W,
        desk: &Desk,
        pass: &mut Pass<Office>,
        senders: &mut Senders,
    ) -> Result<(u32, u32, u32), PumpFault>
        requires of { IsOf desk.now pass.old }
        requires idle { pass.old.holds ≡ false }
        ensures key { self.new.key ≡ self.old.key }
        ensures stays { Stays desk.now pass.old pass.new }
        ensures few { IfOk result (λ r. r.2 ≤ 2048) }
        ensures handled { MatchResult result
            (λ r. HandledFrom W.tells pass.old.tag desk.now.key (last_of self.old.lasts) pass.old (W.account wire.old) senders.old r.0 r.1 r.2 (W.account wire.new) pass.new senders.new (last_of self.new.lasts))
            (λ f. BrokeHandlingAll W.tells pass.old.tag desk.now.key (last_of self.old.lasts) pass.old (W.account wire.old) f (W.account wire.new) pass.new (last_of self.new.lasts)) }
    {
        handle_all(rt, &mut self.last, wire, desk, pass, senders)
    }

    // All messages that are due, to all neighbours. Those who got one need no count. Where none waits, one look tells it.
    fn tell<R: Wait, W: Wire>(
        &mut self,
        rt: &R,
        wire: &mut W,
        desk: &Desk,
        pass: &mut Pass<Office>,
        senders: &mut Senders,
        backoff: Backoff,
        now: u64,
    ) -> Result<u32, PumpFault>
        requires key { desk.now.key ≡ self.old.key }
        requires of { IsOf desk.now pass.old }
        requires idle { pass.old.holds ≡ false }
        ensures key { self.new.key ≡ self.old.key }
        ensures stays { Stays desk.now pass.old pass.new }
        ensures few { IfOk result (λ sent. sent ≤ 288) }
        ensures told { MatchResult result
            (λ sent. SpokeToAll backoff W.tells pass.old.tag desk.now.key (last_of self.old.lasts) (last_of self.new.lasts) now pass.old (W.account wire.old) senders.old sent (W.account wire.new) pass.new senders.new)
            (λ f. BrokenToAll backoff W.tells pass.old.tag desk.now.key (last_of self.old.lasts) (last_of self.new.lasts) now pass.old (W.account wire.old) f (W.account wire.new) pass.new) }
    {
        links_only_grow();
        if !desk.some_waits(rt, pass) {
            return Ok(0);
        }
        let mut sent = 0;
        for k in 0..self.plan.offices() {
            let v = OfficeId::new(k as u8);
            if !self.plan.are_neighbours(self.me, v) {
                continue;
            }
            let count = match tell_one(rt, &mut self.last, wire, desk, pass, v, backoff, now) {
                Ok(count) => count,
                Err(fault) => return Err(fault),
            };
            sent += count;
            senders.got(v, count);
        }
        Ok(sent)
    }

    // A count to each neighbour that sent something and got nothing.
    fn acknowledge<R: Wait, W: Wire>(
        &self,
        rt: &R,
        wire: &mut W,
        desk: &Desk,
        pass: &mut Pass<Office>,
        senders: &Senders,
    ) -> Result<u32, PumpFault>
        requires key { desk.now.key ≡ self.now.key }
        requires of { IsOf desk.now pass.old }
        requires idle { pass.old.holds ≡ false }
        ensures stays { Stays desk.now pass.old pass.new }
        ensures few { IfOk result (λ sent. sent ≤ 16) }
        ensures told { MatchResult result
            (λ sent. (made : List Made) × Told W.tells pass.old.tag desk.now.key pass.old (W.account wire.old) (W.account wire.new) pass.new made × (length made ≡ sent) × AreCounts made × Acknowledges desk.now.key senders.now made)
            (λ f. (made : List Made) × BrokeTelling W.tells pass.old.tag desk.now.key pass.old (W.account wire.old) f (W.account wire.new) pass.new made × AreCounts made × AcknowledgesOnly desk.now.key senders.now made) }
    {
        let mut sent = 0;
        for k in 0..senders.end().min(self.plan.offices()) {
            let v = OfficeId::new(k as u8);
            if !senders.has(v) {
                continue;
            }
            if !self.plan.are_neighbours(self.me, v) {
                continue;
            }
            match send_count(rt, wire, desk, pass, v) {
                Ok(()) => {}
                Err(fault) => return Err(fault),
            }
            sent += 1;
        }
        Ok(sent)
    }
}

// All messages to one neighbour that are due.
fn tell_one<R: Wait, W: Wire>(
    rt: &R,
    last: &mut Lasts,
    wire: &mut W,
    desk: &Desk,
    pass: &mut Pass<Office>,
    v: OfficeId,
    backoff: Backoff,
    now: u64,
) -> Result<u32, PumpFault>
    requires of { IsOf desk.now pass.old }
    requires idle { pass.old.holds ≡ false }
    requires small { v < 16 }
    ensures stays { Stays desk.now pass.old pass.new }
    ensures few { IfOk result (λ sent. sent ≤ 18) }
    ensures others { (u i : ℕ) → (u ≡ v → ⊥) → last_of last.new u i ≡ last_of last.old u i }
    ensures told { MatchResult result
        (λ sent. SpokeTo backoff W.tells pass.old.tag desk.now.key (last_of last.old) (last_of last.new) now pass.old (W.account wire.old) sent (W.account wire.new) pass.new v)
        (λ f. BrokenTo backoff W.tells pass.old.tag desk.now.key (last_of last.old) (last_of last.new) now pass.old (W.account wire.old) f (W.account wire.new) pass.new v) }
{
    links_only_grow();
    let Ok((first, count)) = desk.waiting(rt, pass, v) else {
        return Ok(0);
    };
    let mut sent = 0;
    for number in first..first + count as u64 {
        let more = match tell_message(rt, last, wire, desk, pass, v, number, backoff, now) {
            Ok(more) => more,
            Err(fault) => return Err(fault),
        };
        sent += more;
    }
    Ok(sent)
}

// One message, if it is due and still waits: how many frames were made.
//
// By number, since another pass may take an acknowledgement between two of them; one that doesn't wait any more is
// passed over.
fn tell_message<R: Wait, W: Wire>(
    rt: &R,
    last: &mut Lasts,
    wire: &mut W,
    desk: &Desk,
    pass: &mut Pass<Office>,
    v: OfficeId,
    number: u64,
    backoff: Backoff,
    now: u64,
) -> Result<u32, PumpFault>
    requires of { IsOf desk.now pass.old }
    requires idle { pass.old.holds ≡ false }
    requires small { v < 16 }
    ensures stays { Stays desk.now pass.old pass.new }
    ensures few { IfOk result (λ sent. sent ≤ 1) }
    ensures others { (u i : ℕ) → ((u ≡ v) × (i % 18 ≡ number % 18) → ⊥) → last_of last.new u i ≡ last_of last.old u i }
    ensures told { MatchResult result
        (λ sent. SpokeOf backoff W.tells pass.old.tag desk.now.key (last_of last.old) (last_of last.new) now pass.old (W.account wire.old) sent (W.account wire.new) pass.new v number)
        (λ f. BrokenOf backoff W.tells pass.old.tag desk.now.key (last_of last.old) (last_of last.new) now pass.old (W.account wire.old) f (W.account wire.new) pass.new v number) }
{
    links_only_grow();
    if !last.is_due(v, number, backoff, now) {
        return Ok(0);
    }
    let frame = match desk.send_number(rt, pass, v, number) {
        Ok(Some(frame)) => frame,
        Ok(None) => return Ok(0),
        Err(refusal) => return Err(fault_of(refusal)),
    };
    last.put(v, number, backoff, now);
    match put_out(wire, v, &frame) {
        Ok(()) => Ok(1),
        Err(WireFailed) => Err(PumpFault::WireFailed),
    }
}

// A count alone.
fn send_count<R: Wait, W: Wire>(
    rt: &R,
    wire: &mut W,
    desk: &Desk,
    pass: &mut Pass<Office>,
    v: OfficeId,
) -> Result<(), PumpFault>
    requires of { IsOf desk.now pass.old }
    requires idle { pass.old.holds ≡ false }
    requires near { are_neighbours desk.now.key.0 desk.now.key.1 v ≡ true }
    ensures stays { Stays desk.now pass.old pass.new }
    ensures told { MatchResult result
        (λ _. (m : Made) × Told W.tells pass.old.tag desk.now.key pass.old (W.account wire.old) (W.account wire.new) pass.new (m ∷ []) × (m.frame.number ≡ 0) × (m.to ≡ v))
        (λ f. (made : List Made) × BrokeTelling W.tells pass.old.tag desk.now.key pass.old (W.account wire.old) f (W.account wire.new) pass.new made × AreCounts made × AreFor v made) }
{
    let answer = desk.send(rt, pass, v, 0);
    let frame = match framed(&answer) {
        Ok(Some(frame)) => frame,
        Ok(None) => return Ok(()),
        Err(refusal) => return Err(fault_of(refusal)),
    };
    match put_out(wire, v, &frame) {
        Ok(()) => Ok(()),
        Err(WireFailed) => Err(PumpFault::WireFailed),
    }
}

// The spelling of a frame goes out.
fn put_out<W: Wire>(wire: &mut W, v: OfficeId, frame: &Frame) -> Result<(), WireFailed>
    ensures { Accepts W.tells (W.account wire.old) v (spelling frame.now) result (W.account wire.new) }
{
    let mut bytes = [0; MAX_LENGTH];
    let length = encode(frame, &mut bytes);
    wire.send(v, &bytes[..length])
}

pub(crate) fn fault_of(refusal: Refusal) -> PumpFault
    requires { (refusal ≡ refusals.JournalFull) ⊎ (refusal ≡ refusals.Memory) }
    ensures { IsFaultOf refusal result }
{
    match refusal {
        Refusal::JournalFull => PumpFault::JournalFull,
        _ => PumpFault::Memory,
    }
}
