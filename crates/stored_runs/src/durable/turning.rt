//! A turn.

ghost use Rattle.std.specs.Prelude.{◌≡◌, ◌≤◌, ◌⊎◌, false, true, length, OnOk, OnErr, IfErr, IfOk};
ghost use mathlib.Core.List.{IsPrefix};
ghost use Rattle.own_lock.specs.Passes.{IsOf};
ghost use Rattle.locked_office.specs.Calls.{Stays};
ghost use Rattle.journal_stores.specs.Stores.{IsFound};
ghost use Rattle.socket_pump.specs.Last.{last_of};
ghost use Rattle.stored_runs.specs.durable.Breaking.{BrokeAt};
ghost use Rattle.stored_runs.specs.durable.Letting.{StoreHas, FindsText, LetsOut, Turns, BreaksOff};

use crate::durable::fault::TurnFault;
use crate::durable::mail::Mail;
use crate::durable::posting::{fetch, post};
use crate::durable::standing::stand;
use journal_stores::Store;
use locked_office::Desk;
use own_lock::Pass;
use site_core::Office;
use socket_pump::{Pump, Turn, Wire};
use std::alloc::Global;
use std::sync::Wait;

/// Takes in what came on the wire, does the rules that come next, and makes frames, as [`Pump::adaptive_turn`] does; then all
/// entries are made to stand in the store; then the frames go out. The first `stood` entries of the journal stand in the store.
/// What the mail had is forgotten.
///
/// # Errors
/// `WireFailed`, `JournalFull` and `Memory` as of a pump; `StoreFailed` where it isn't sure that the new entries stand. No frame
/// of an entry that doesn't stand has gone out.
pub fn turn<R: Wait, W: Wire, S: Store>(
    rt: &R,
    alloc: Global,
    pump: &mut Pump,
    wire: &mut W,
    mail: &mut Mail,
    desk: &Desk,
    pass: &mut Pass<Office>,
    store: &mut S,
    stood: &mut usize,
    now: u64,
) -> Result<Turn, TurnFault>
    requires key { desk.now.key ≡ pump.old.key }
    requires of { IsOf desk.now pass.old }
    requires idle { pass.old.holds ≡ false }
    requires usable { S.failed store.old ≡ false }
    requires has { StoreHas (S.stood store.old) desk.now.key pass.old.seen stood.old }
    requires within { stood.old ≤ length pass.old.seen }
    ensures key { pump.new.key ≡ pump.old.key }
    ensures stays { Stays desk.now pass.old pass.new }
    ensures has { StoreHas (S.stood store.new) desk.now.key pass.new.seen stood.new }
    ensures within { stood.new ≤ length pass.new.seen }
    ensures grows { IsPrefix pass.old.seen pass.new.seen }
    ensures steps { (stood.new ≡ stood.old) ⊎ (stood.new ≡ length pass.new.seen) }
    ensures lets_out { LetsOut W.tells pass.old.tag (W.account wire.old) (W.account wire.new) pass.new.seen stood.new }
    ensures all { OnOk result (stood.new ≡ length pass.new.seen) }
    ensures usable { OnOk result (S.failed store.new ≡ false) }
    ensures fault { IfErr result (BreaksOff (S.failed store.new) pass.new.seen (W.account wire.old) (W.account wire.new)) }
    ensures broke { IfErr result (λ f. BrokeAt pass.old.tag desk.now.key (last_of pump.old.lasts) now pass.old f pass.new (last_of pump.new.lasts)) }
    ensures turned { IfOk result (λ t. Turns W.tells pass.old.tag desk.now.key (last_of pump.old.lasts) now pass.old (W.account wire.old) t (W.account wire.new) pass.new (last_of pump.new.lasts)) }
    ensures whole { OnOk result (IsFound (S.stood store.old) (S.found store.old) → IsFound (S.stood store.new) (S.found store.new)) }
    ensures found { OnErr result (IsFound (S.stood store.old) (S.found store.old) → FindsText (S.stood store.new) (S.found store.new) desk.now.key pass.new.seen) }
{
    match fetch(wire, mail) {
        Ok(()) => {}
        Err(fault) => return Err(fault),
    }
    let turn = match pump.adaptive_turn(rt, mail, desk, pass, now) {
        Ok(turn) => turn,
        Err(fault) => return Err(TurnFault::of_pump(fault)),
    };
    match stand(rt, alloc, desk, pass, store, stood, &mut mail.text) {
        Ok(()) => {}
        Err(fault) => return Err(fault),
    }
    match post(wire, mail.out()) {
        Ok(()) => Ok(turn),
        Err(fault) => Err(fault),
    }
}
