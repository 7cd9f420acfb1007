//! What is said in a round of a service.

ghost use Rattle.std.specs.Prelude.{◌≡◌, ◌⊎◌, ◌≤◌, ◌++◌, Some, false, length, drop, IfOk, IfErr, OnOk};
ghost use Rattle.std.specs.List.{flat_map};
ghost use Rattle.std.specs.Io.KnownBytes.{Appends};
ghost use mathlib.Core.List.{IsPrefix};
ghost use Rattle.own_lock.specs.Passes.{IsOf};
ghost use Rattle.site_core.specs.agendas.Agenda.{unfinished};
ghost use Rattle.site_core.specs.Journals.{office_of, IsLegal};
ghost use Rattle.locked_office.specs.Calls.{Stays, Looks, office_with};
ghost use Rattle.session_reports.specs.form.Forms.{outcome_as};
ghost use Rattle.socket_pump.specs.Last.{last_of};
ghost use Rattle.stored_runs.specs.durable.Letting.{StoreHas, LetsOut};
ghost use Rattle.office_stations.specs.declared.turning.Turning.TheVariants.{Adaptive};
ghost use Rattle.office_stations.specs.Rounds.{Turns};
ghost use Rattle.office_stations.specs.Sessions.{finished_of};
ghost use Rattle.office_stations.specs.refinement.Standings.{standing};
ghost use Rattle.stored_runs.specs.Runs.{IsFaultOf};
ghost use Rattle.serving.specs.Serving.{IsEndBy, Unless};
ghost use Rattle.serving.specs.refinement.Telling.{EndsTelling, SaidOrNot};

use crate::answers::Lack;
use crate::fault::ServeFault;
use journal_stores::Store;
use locked_office::Desk;
use office_map::{OfficeId, Plan};
use office_stations::{RunFault, Shared, Socket, Station, TimedTurn, Watch};
use own_lock::Pass;
use session_reports::form::Form;
use site_core::Office;
use std::alloc::Global;
use std::io::Write;
use std::rt::Clock;
use std::sync::Wait;
use stored_runs::StoredFault;
use stored_runs::books::Books;
use stored_runs::durable::{Mail, stand_office};
use stored_runs::telling::{stand_and_tell, tell_left, write_some};
use stored_runs::turning::turn_once;

/// A turn; what was said before it goes out once that stands, and then what finished is told.
pub(crate) fn turn_and_tell<R: Wait + Clock, S: Socket, W: Watch, T: Store, O: Write>(
    rt: &R,
    alloc: Global,
    form: Form,
    plan: &Plan,
    me: OfficeId,
    station: &mut Station<S>,
    mail: &mut Mail,
    desk: &Desk,
    pass: &mut Pass<Office>,
    store: &mut T,
    books: &mut Books,
    said: &str,
    text: &mut String,
    watch: &W,
    shared: &Shared,
    out: &mut O,
) -> Result<TimedTurn, ServeFault>
    requires key { desk.now.key ≡ station.old.pump.key }
    requires of { IsOf desk.now pass.old }
    requires idle { pass.old.holds ≡ false }
    requires tag { pass.old.tag ≡ 0 }
    requires usable { T.failed store.old ≡ false }
    requires has { StoreHas (T.stood store.old) desk.now.key pass.old.seen books.old.stood }
    requires within { books.old.stood ≤ length pass.old.seen }
    ensures key { station.new.pump.key ≡ station.old.pump.key }
    ensures stays { Stays desk.now pass.old pass.new }
    ensures grows { IsPrefix pass.old.seen pass.new.seen }
    ensures has { StoreHas (T.stood store.new) desk.now.key pass.new.seen books.new.stood }
    ensures later { books.old.stood ≤ books.new.stood }
    ensures within { books.new.stood ≤ length pass.new.seen }
    ensures lets_out { LetsOut S.tells pass.old.tag (S.account station.old.socket) (S.account station.new.socket) pass.new.seen books.new.stood }
    ensures all { OnOk result (books.new.stood ≡ length pass.new.seen) }
    ensures told { OnOk result (books.new.told ≡ length (finished_of (office_with desk.now.key pass.new.seen))) }
    ensures left { OnOk result (books.new.left ≡ unfinished (office_of (office_with desk.now.key pass.new.seen)).agenda) }
    ensures legal { OnOk result (IsLegal (office_with desk.now.key pass.new.seen)) }
    ensures usable { OnOk result (T.failed store.new ≡ false) }
    ensures turns { IfOk result (λ t. Turns Adaptive S.tells pass.old.tag desk.now.key t
        (standing pass.old (S.account station.old.socket) (last_of station.old.pump.lasts)) (standing pass.new (S.account station.new.socket) (last_of station.new.pump.lasts))) }
    ensures lines { OnOk result (Appends (O.contents out.old) (O.contents out.new) (said.now ++ flat_map (outcome_as form plan.now) (drop books.old.told (finished_of (office_with desk.now.key pass.new.seen))))) }
    ensures fault { IfErr result (λ f. IsEndBy (T.failed store.new) (Some f)) }
    ensures untold { IfErr result (λ f. Unless (Some f) (SaidOrNot (O.contents out.old) (O.contents out.new) said.now (length pass.old.seen) books.new.stood)) }
{
    let turn = match turn_once(
        rt,
        alloc,
        station,
        mail,
        desk,
        pass,
        store,
        &mut books.stood,
        shared,
    ) {
        Ok(turn) => turn,
        Err(fault) => return Err(ServeFault::Run(fault)),
    };
    match write_some(out, said) {
        Ok(()) => {}
        Err(fault) => return Err(ServeFault::Run(fault)),
    }
    match stand_and_tell(rt, alloc, desk, pass, form, plan, store, books, text, out) {
        Ok(()) => {}
        Err(fault) => return Err(ServeFault::Run(fault)),
    }
    station.note_finished(books.told, shared);
    station.tell(plan, me, false, watch, shared);
    Ok(turn)
}

/// Where the office lacks something for the next answer: what was answered before is said once it stands. Why the service ends is told.
pub(crate) fn tell_before_lack<R: Wait, T: Store, O: Write>(
    rt: &R,
    alloc: Global,
    desk: &Desk,
    pass: &mut Pass<Office>,
    store: &mut T,
    books: &mut Books,
    said: &str,
    lack: Lack,
    text: &mut String,
    out: &mut O,
) -> ServeFault
    requires of { IsOf desk.now pass.old }
    requires idle { pass.old.holds ≡ false }
    requires usable { T.failed store.old ≡ false }
    requires has { StoreHas (T.stood store.old) desk.now.key pass.old.seen books.old.stood }
    requires within { books.old.stood ≤ length pass.old.seen }
    ensures stays { Stays desk.now pass.old pass.new }
    ensures looked { Looks desk.now.key pass.old pass.new }
    ensures has { StoreHas (T.stood store.new) desk.now.key pass.new.seen books.new.stood }
    ensures steps { (books.new.stood ≡ books.old.stood) ⊎ (books.new.stood ≡ length pass.new.seen) }
    ensures told { Unless (Some result) (SaidOrNot (O.contents out.old) (O.contents out.new) said.now (length pass.old.seen) books.new.stood) }
    ensures fault { IsEndBy (T.failed store.new) (Some result) }
{
    match stand(rt, alloc, desk, pass, store, books, text) {
        Ok(()) => {}
        Err(fault) => return ServeFault::Run(fault),
    }
    match write_some(out, said) {
        Ok(()) => {}
        Err(fault) => return ServeFault::Run(fault),
    }
    match lack {
        Lack::JournalFull => ServeFault::Run(StoredFault::Run(RunFault::JournalFull)),
        Lack::Memory => ServeFault::Run(StoredFault::Run(RunFault::Memory)),
    }
}

/// What the office has stands from now on, all of it.
fn stand<R: Wait, T: Store>(
    rt: &R,
    alloc: Global,
    desk: &Desk,
    pass: &mut Pass<Office>,
    store: &mut T,
    books: &mut Books,
    text: &mut String,
) -> Result<(), StoredFault>
    requires of { IsOf desk.now pass.old }
    requires idle { pass.old.holds ≡ false }
    requires usable { T.failed store.old ≡ false }
    requires has { StoreHas (T.stood store.old) desk.now.key pass.old.seen books.old.stood }
    requires within { books.old.stood ≤ length pass.old.seen }
    ensures stays { Stays desk.now pass.old pass.new }
    ensures looked { Looks desk.now.key pass.old pass.new }
    ensures has { StoreHas (T.stood store.new) desk.now.key pass.new.seen books.new.stood }
    ensures steps { (books.new.stood ≡ books.old.stood) ⊎ (books.new.stood ≡ length pass.new.seen) }
    ensures all { OnOk result (books.new.stood ≡ length pass.new.seen) }
    ensures usable { OnOk result (T.failed store.new ≡ false) }
    ensures fault { IfErr result (λ fault. IsFaultOf (T.failed store.new) (Some fault)) }
{
    let held = desk.lock().take(rt, pass);
    let stands = stand_office(alloc, held.get(), store, &mut books.stood, text);
    desk.lock().give(pass, held);
    match stands {
        Ok(()) => Ok(()),
        Err(fault) => Err(StoredFault::of_turn(fault)),
    }
}

/// How many sessions haven't finished is told, unless writing failed before; and the fault that is told of the service, which is a new
/// one where this couldn't be told.
pub(crate) fn end<O: Write>(
    alloc: Global,
    form: Form,
    fault: Option<ServeFault>,
    left: usize,
    out: &mut O,
) -> Option<ServeFault>
    ensures { EndsTelling form fault left (O.contents out.old) result (O.contents out.new) }
{
    if let Some(ServeFault::Run(StoredFault::WriteFailed(_))) = fault {
        return fault;
    }
    match tell_left(alloc, form, left, out) {
        Ok(()) => fault,
        Err(StoredFault::WriteFailed(cause)) => {
            Some(ServeFault::Run(StoredFault::WriteFailed(cause)))
        }
        Err(other) => match fault {
            None => Some(ServeFault::Run(other)),
            Some(first) => Some(first),
        },
    }
}
