//! A run of an office that keeps its journal in a store.

ghost use Rattle.std.specs.Prelude.{◌≡◌, ◌<◌, ◌≤◌, ℕ, [], None, Some, false, length, drop, IfOk, IfSome, OnOk, OnErr};
ghost use Rattle.std.specs.Result.{result_err};
ghost use Rattle.std.specs.String.{string_bytes};
ghost use mathlib.Core.List.{IsPrefix};
ghost use Rattle.own_lock.specs.Passes.{IsOf};
ghost use Rattle.locked_office.specs.Calls.{Stays, Looks, office_with};
ghost use Rattle.socket_pump.specs.Last.{last_of};
ghost use Rattle.stored_runs.specs.durable.Letting.{StoreHas, LetsOut};
ghost use Rattle.office_stations.specs.Rounds.{of_office};
ghost use Rattle.office_stations.specs.Sessions.{finished_of};
ghost use Rattle.office_stations.specs.refinement.Standings.{standing};
ghost use Rattle.stored_runs.specs.Keeping.{HasText};
ghost use Rattle.stored_runs.specs.Runs.{finished_by, Goes, GoesOn, HasStanding, IsFaultOf, IsQuiet, IsToldBy, Unless};
ghost use Rattle.stored_runs.specs.refinement.Running.{EndsTelling, TellsAfter, Told};

use crate::beginning::{begin, open_alone};
use crate::books::Books;
use crate::durable::Mail;
use crate::ended::Ended;
use crate::fault::StoredFault;
use crate::keeping::Kept;
use crate::telling::{before_text, stand_and_tell, tell_left, write_whole};
use crate::turning::turn_once;
use journal_stores::Store;
use locked_office::Desk;
use office_map::{OfficeId, Plan};
use office_stations::remarks::{Remarks, Way};
use office_stations::{Gate, OpeningFault, Shared, Socket, Station, Watch, count_of, submit_some};
use own_lock::Pass;
use session_programs::Program;
use session_reports::form::Form;
use site_core::Office;
use std::alloc::{AllocError, Global};
use std::io::Write;
use std::rt::Clock;
use std::sync::Wait;

/// An office at its station goes on from what its store has, and turns so often, as a run without a store does.
/// Frames leave, and finished sessions are told, only once their entries stand. First it is told how many had finished before,
/// with their lines; at the end how many of the list's are left.
///
/// # Errors
/// `Memory`, where nothing was done or told. What ends a run before its turns are over is told in what it answers.
pub fn run_stored<R: Wait + Clock, S: Socket, G: Gate, W: Watch, T: Store, O: Write>(
    rt: &R,
    alloc: Global,
    form: Form,
    plan: &Plan,
    me: OfficeId,
    programs: &[Program],
    turns: u64,
    station: &mut Station<S>,
    kept: Kept,
    store: &mut T,
    gate: &G,
    watch: &W,
    out: &mut O,
) -> Result<Ended, OpeningFault>
    requires office { me < length plan.now.offices }
    requires key { station.old.pump.key ≡ (plan.now, me) }
    requires last { (v n : ℕ) → last_of station.old.pump.lasts v n ≡ None }
    requires site { (kept.site.plan ≡ plan.now) × (kept.site.me ≡ me) }
    requires next { kept.next ≤ length programs.now }
    requires usable { T.failed store.old ≡ false }
    requires text { IfSome (T.stood store.old) (λ text. (length text ≡ kept.bytes) × HasText plan.now me text kept.site.entries) }
    ensures goes_on { IfOk result (λ e. GoesOn (IsToldBy S.account) form S.tells plan.now me programs.now turns kept (T.stood store.new) (S.account station.old.socket) (S.account station.new.socket) e (O.contents out.old) (O.contents out.new)) }
    ensures fault { IfOk result (λ e. IsFaultOf (T.failed store.new) e.fault) }
    ensures quiet { IfOk result IsQuiet }
    ensures unwritten { OnErr result (O.contents out.new ≡ O.contents out.old) }
{
    let Kept {
        office,
        bytes,
        next,
    } = kept;
    let mut books = Books {
        stood: office.journal().len(),
        told: office.outcomes().len(),
        left: office.unfinished(),
    };
    let before = before_text(alloc, form, plan, office.outcomes())?;
    let (desk, mut pass) = open_alone(alloc, office)?;
    let sessions = count_of(programs, me);
    let shared = Shared::new(sessions as u64);
    let fault = start(
        rt, alloc, station, &desk, &mut pass, store, &mut books, form, plan, me, programs, next,
        turns, bytes, &before, gate, watch, &shared, out,
    )
    .err();
    let left = sessions.saturating_sub(books.told);
    let fault = tell_end(alloc, form, fault, left, out);
    let ways = station.ways(alloc);
    let remarks = remarks(
        rt,
        alloc,
        &desk,
        &mut pass,
        sessions,
        ways,
        left,
        fault.is_some(),
    );
    Ok(Ended {
        unfinished: left,
        fault,
        remarks,
    })
}

/// It is told what had finished before, and then the office goes on.
fn start<R: Wait + Clock, S: Socket, G: Gate, W: Watch, T: Store, O: Write>(
    rt: &R,
    alloc: Global,
    station: &mut Station<S>,
    desk: &Desk,
    pass: &mut Pass<Office>,
    store: &mut T,
    books: &mut Books,
    form: Form,
    plan: &Plan,
    me: OfficeId,
    programs: &[Program],
    from: usize,
    turns: u64,
    has_bytes: usize,
    before: &str,
    gate: &G,
    watch: &W,
    shared: &Shared,
    out: &mut O,
) -> Result<(), StoredFault>
    requires key { desk.now.key ≡ station.old.pump.key }
    requires is { desk.now.key ≡ (plan.now, me) }
    requires of { IsOf desk.now pass.old }
    requires idle { pass.old.holds ≡ false }
    requires tag { pass.old.tag ≡ 0 }
    requires usable { T.failed store.old ≡ false }
    requires text { IfSome (T.stood store.old) (λ text. (length text ≡ has_bytes) × HasText plan.now me text pass.old.seen) }
    requires none { has_bytes ≡ 0 → pass.old.seen ≡ [] }
    requires all { books.old.stood ≡ length pass.old.seen }
    requires told { books.old.told ≡ length (finished_of (office_with desk.now.key pass.old.seen)) }
    ensures stays { Stays desk.now pass.old pass.new }
    ensures grows { IsPrefix pass.old.seen pass.new.seen }
    ensures goes { Goes (IsToldBy S.account) (result_err result) S.tells desk.now.key turns (standing pass.old (S.account station.old.socket) (last_of station.old.pump.lasts))
        (standing pass.new (S.account station.new.socket) (last_of station.new.pump.lasts)) (of_office me (drop from programs.now)) }
    ensures has { HasStanding (T.stood store.new) desk.now.key pass.new.seen books.new.stood }
    ensures within { books.new.stood ≤ length pass.new.seen }
    ensures all { OnOk result (books.new.stood ≡ length pass.new.seen) }
    ensures lets_out { LetsOut S.tells pass.old.tag (S.account station.old.socket) (S.account station.new.socket) pass.new.seen books.new.stood }
    ensures all_told { OnOk result (books.new.told ≡ length (finished_by desk.now.key pass.new.seen books.new.stood)) }
    ensures told { Unless (result_err result) (TellsAfter before.now form plan.now desk.now.key pass.new.seen (length pass.old.seen) books.new.stood books.old.told books.new.told (O.contents out.old) (O.contents out.new)) }
    ensures fault { IsFaultOf (T.failed store.new) (result_err result) }
{
    match write_whole(out, before) {
        Ok(()) => {}
        Err(fault) => return Err(fault),
    }
    go_on(
        rt, alloc, station, desk, pass, store, books, form, plan, me, programs, from, turns,
        has_bytes, gate, watch, shared, out,
    )
}

/// The first line stands, and then the turns are taken.
fn go_on<R: Wait + Clock, S: Socket, G: Gate, W: Watch, T: Store, O: Write>(
    rt: &R,
    alloc: Global,
    station: &mut Station<S>,
    desk: &Desk,
    pass: &mut Pass<Office>,
    store: &mut T,
    books: &mut Books,
    form: Form,
    plan: &Plan,
    me: OfficeId,
    programs: &[Program],
    from: usize,
    turns: u64,
    has_bytes: usize,
    gate: &G,
    watch: &W,
    shared: &Shared,
    out: &mut O,
) -> Result<(), StoredFault>
    requires key { desk.now.key ≡ station.old.pump.key }
    requires is { desk.now.key ≡ (plan.now, me) }
    requires of { IsOf desk.now pass.old }
    requires idle { pass.old.holds ≡ false }
    requires tag { pass.old.tag ≡ 0 }
    requires usable { T.failed store.old ≡ false }
    requires text { IfSome (T.stood store.old) (λ text. (length text ≡ has_bytes) × HasText plan.now me text pass.old.seen) }
    requires none { has_bytes ≡ 0 → pass.old.seen ≡ [] }
    requires all { books.old.stood ≡ length pass.old.seen }
    requires told { books.old.told ≡ length (finished_of (office_with desk.now.key pass.old.seen)) }
    ensures stays { Stays desk.now pass.old pass.new }
    ensures grows { IsPrefix pass.old.seen pass.new.seen }
    ensures goes { Goes (IsToldBy S.account) (result_err result) S.tells desk.now.key turns (standing pass.old (S.account station.old.socket) (last_of station.old.pump.lasts))
        (standing pass.new (S.account station.new.socket) (last_of station.new.pump.lasts)) (of_office me (drop from programs.now)) }
    ensures has { HasStanding (T.stood store.new) desk.now.key pass.new.seen books.new.stood }
    ensures within { books.new.stood ≤ length pass.new.seen }
    ensures all { OnOk result (books.new.stood ≡ length pass.new.seen) }
    ensures lets_out { LetsOut S.tells pass.old.tag (S.account station.old.socket) (S.account station.new.socket) pass.new.seen books.new.stood }
    ensures all_told { OnOk result (books.new.told ≡ length (finished_by desk.now.key pass.new.seen books.new.stood)) }
    ensures told { Unless (result_err result) (Told form plan.now desk.now.key pass.new.seen (length pass.old.seen) books.new.stood books.old.told books.new.told (O.contents out.old) (O.contents out.new)) }
    ensures fault { IsFaultOf (T.failed store.new) (result_err result) }
{
    if has_bytes == 0 {
        match begin(alloc, plan, me, store) {
            Ok(()) => {}
            Err(fault) => return Err(fault),
        }
    }
    take_turns(
        rt, alloc, station, desk, pass, store, books, form, plan, me, programs, from, turns, gate,
        watch, shared, out,
    )
}

/// The turns, each after those sessions are submitted that the office takes; and what finished by one is told once it stands.
fn take_turns<R: Wait + Clock, S: Socket, G: Gate, W: Watch, T: Store, O: Write>(
    rt: &R,
    alloc: Global,
    station: &mut Station<S>,
    desk: &Desk,
    pass: &mut Pass<Office>,
    store: &mut T,
    books: &mut Books,
    form: Form,
    plan: &Plan,
    me: OfficeId,
    programs: &[Program],
    from: usize,
    turns: u64,
    gate: &G,
    watch: &W,
    shared: &Shared,
    out: &mut O,
) -> Result<(), StoredFault>
    requires key { desk.now.key ≡ station.old.pump.key }
    requires of { IsOf desk.now pass.old }
    requires idle { pass.old.holds ≡ false }
    requires tag { pass.old.tag ≡ 0 }
    requires usable { T.failed store.old ≡ false }
    requires has { StoreHas (T.stood store.old) desk.now.key pass.old.seen books.old.stood }
    requires all { books.old.stood ≡ length pass.old.seen }
    requires told { books.old.told ≡ length (finished_of (office_with desk.now.key pass.old.seen)) }
    ensures stays { Stays desk.now pass.old pass.new }
    ensures grows { IsPrefix pass.old.seen pass.new.seen }
    ensures goes { Goes (IsToldBy S.account) (result_err result) S.tells desk.now.key turns (standing pass.old (S.account station.old.socket) (last_of station.old.pump.lasts))
        (standing pass.new (S.account station.new.socket) (last_of station.new.pump.lasts)) (of_office me (drop from programs.now)) }
    ensures has { StoreHas (T.stood store.new) desk.now.key pass.new.seen books.new.stood }
    ensures within { books.new.stood ≤ length pass.new.seen }
    ensures all { OnOk result (books.new.stood ≡ length pass.new.seen) }
    ensures lets_out { LetsOut S.tells pass.old.tag (S.account station.old.socket) (S.account station.new.socket) pass.new.seen books.new.stood }
    ensures all_told { OnOk result (books.new.told ≡ length (finished_by desk.now.key pass.new.seen books.new.stood)) }
    ensures told { Unless (result_err result) (Told form plan.now desk.now.key pass.new.seen (length pass.old.seen) books.new.stood books.old.told books.new.told (O.contents out.old) (O.contents out.new)) }
    ensures fault { IsFaultOf (T.failed store.new) (result_err result) }
{
    let mut mail = Mail::new(alloc);
    let mut text = String::new(alloc);
    let mut next = from;
    let mut count = 0;
    for _ in rt.forever() {
        if count >= turns {
            return Ok(());
        }
        match submit_some(rt, desk, pass, me, programs, &mut next) {
            Ok(()) => {}
            Err(fault) => return Err(StoredFault::Run(fault)),
        }
        gate.before(me);
        let turn = match turn_once(
            rt,
            alloc,
            station,
            &mut mail,
            desk,
            pass,
            store,
            &mut books.stood,
            shared,
        ) {
            Ok(turn) => turn,
            Err(fault) => return Err(fault),
        };
        match stand_and_tell(
            rt, alloc, desk, pass, form, plan, store, books, &mut text, out,
        ) {
            Ok(()) => {}
            Err(fault) => return Err(fault),
        }
        station.note_finished(books.told, shared);
        station.tell_alone(plan, me, watch, shared);
        count += turn.counted(turns);
    }
    unreachable!()
}

/// How many sessions are left is told, unless writing failed before; and the fault that is told of the run, which is a new one where
/// this couldn't be told.
fn tell_end<O: Write>(
    alloc: Global,
    form: Form,
    fault: Option<StoredFault>,
    left: usize,
    out: &mut O,
) -> Option<StoredFault>
    ensures { EndsTelling form fault left (O.contents out.old) result (O.contents out.new) }
{
    if let Some(StoredFault::WriteFailed(_)) = fault {
        return fault;
    }
    match tell_left(alloc, form, left, out) {
        Ok(()) => fault,
        Err(StoredFault::WriteFailed(cause)) => Some(StoredFault::WriteFailed(cause)),
        Err(other) => match fault {
            None => Some(other),
            Some(first) => Some(first),
        },
    }
}

/// What is said for people of the sessions that are left; nothing where none is and no fault ended the run, or where memory runs out.
fn remarks<R: Wait>(
    rt: &R,
    alloc: Global,
    desk: &Desk,
    pass: &mut Pass<Office>,
    sessions: usize,
    ways: Result<Vec<Way>, AllocError>,
    left: usize,
    has_fault: bool,
) -> String
    requires of { IsOf desk.now pass.old }
    requires idle { pass.old.holds ≡ false }
    ensures looked { Looks desk.now.key pass.old pass.new }
    ensures quiet { left ≡ 0 → has_fault ≡ false → string_bytes result ≡ [] }
{
    let held = desk.lock().take(rt, pass);
    let said = remarks_of(alloc, held.get(), sessions, ways);
    desk.lock().give(pass, held);
    match said {
        Ok(said) if left > 0 || has_fault => said,
        _ => String::new(alloc),
    }
}

fn remarks_of(
    alloc: Global,
    office: &Office,
    sessions: usize,
    ways: Result<Vec<Way>, AllocError>,
) -> Result<String, AllocError> {
    let ways = ways?;
    let mut remarks = Remarks::new(alloc);
    remarks.add(office, u32::try_from(sessions).unwrap_or(u32::MAX), &ways)?;
    remarks.text()
}
