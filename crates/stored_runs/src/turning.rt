//! A turn of an office at its station, whose frames leave only when their entries stand.

ghost use Rattle.std.specs.Prelude.{◌≡◌, ◌⊎◌, ◌≤◌, Some, false, length, IfOk, IfErr, OnOk};
ghost use mathlib.Core.List.{IsPrefix};
ghost use Rattle.own_lock.specs.Passes.{IsOf};
ghost use Rattle.locked_office.specs.Calls.{Stays};
ghost use Rattle.socket_pump.specs.Last.{last_of};
ghost use Rattle.stored_runs.specs.durable.Letting.{StoreHas, LetsOut};
ghost use Rattle.office_stations.specs.declared.turning.Turning.TheVariants.{Adaptive};
ghost use Rattle.office_stations.specs.Rounds.{Turns};
ghost use Rattle.office_stations.specs.refinement.Standings.{standing};
ghost use Rattle.stored_runs.specs.Runs.{Broke, IsFaultOf};

use crate::durable::{Mail, turn};
use crate::fault::StoredFault;
use journal_stores::Store;
use locked_office::Desk;
use office_stations::{Shared, Socket, Station, TimedTurn};
use own_lock::Pass;
use site_core::Office;
use std::alloc::Global;
use std::rt::Clock;
use std::sync::Wait;

/// One turn, after a wait for what comes, and when it was. Its entries stand before its frames leave.
pub fn turn_once<R: Wait + Clock, S: Socket, T: Store>(
    rt: &R,
    alloc: Global,
    station: &mut Station<S>,
    mail: &mut Mail,
    desk: &Desk,
    pass: &mut Pass<Office>,
    store: &mut T,
    stood: &mut usize,
    shared: &Shared,
) -> Result<TimedTurn, StoredFault>
    requires key { desk.now.key ≡ station.old.pump.key }
    requires of { IsOf desk.now pass.old }
    requires idle { pass.old.holds ≡ false }
    requires tag { pass.old.tag ≡ 0 }
    requires usable { T.failed store.old ≡ false }
    requires has { StoreHas (T.stood store.old) desk.now.key pass.old.seen stood.old }
    requires within { stood.old ≤ length pass.old.seen }
    ensures key { station.new.pump.key ≡ station.old.pump.key }
    ensures stays { Stays desk.now pass.old pass.new }
    ensures grows { IsPrefix pass.old.seen pass.new.seen }
    ensures steps { (stood.new ≡ stood.old) ⊎ (stood.new ≡ length pass.new.seen) }
    ensures has { StoreHas (T.stood store.new) desk.now.key pass.new.seen stood.new }
    ensures within { stood.new ≤ length pass.new.seen }
    ensures lets_out { LetsOut S.tells pass.old.tag (S.account station.old.socket) (S.account station.new.socket) pass.new.seen stood.new }
    ensures all { OnOk result (stood.new ≡ length pass.new.seen) }
    ensures usable { OnOk result (T.failed store.new ≡ false) }
    ensures fault { IfErr result (λ fault. IsFaultOf (T.failed store.new) (Some fault)) }
    ensures broke { IfErr result (λ fault. Broke desk.now.key pass.old (last_of station.old.pump.lasts) fault pass.new (last_of station.new.pump.lasts)) }
    ensures turns { IfOk result (λ t. Turns Adaptive S.tells pass.old.tag desk.now.key t
        (standing pass.old (S.account station.old.socket) (last_of station.old.pump.lasts)) (standing pass.new (S.account station.new.socket) (last_of station.new.pump.lasts))) }
{
    let at = match station.wait(rt) {
        Ok(at) => at,
        Err(fault) => return Err(StoredFault::Run(fault)),
    };
    let done = match turn(
        rt,
        alloc,
        &mut station.pump,
        &mut station.socket,
        mail,
        desk,
        pass,
        store,
        stood,
        at,
    ) {
        Ok(done) => done,
        Err(fault) => return Err(StoredFault::of_turn(fault)),
    };
    station.note(&done, at, shared);
    Ok(TimedTurn { at, turn: done })
}
