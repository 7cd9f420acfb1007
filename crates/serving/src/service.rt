//! An office that serves.

ghost use Rattle.std.specs.Prelude.{◌≡◌, ◌<◌, ◌≤◌, ℕ, [], None, Some, false, length, take, IfOk, IfErr, IfSome, IsTrue, OnErr, OnOk};
ghost use Rattle.std.specs.Result.{result_err};
ghost use mathlib.Core.List.{IsPrefix};
ghost use Rattle.own_lock.specs.Passes.{IsOf};
ghost use Rattle.site_core.specs.agendas.Agenda.{unfinished};
ghost use Rattle.site_core.specs.Journals.{office_of};
ghost use Rattle.locked_office.specs.Calls.{Looks, Stays, office_with};
ghost use Rattle.socket_pump.specs.Last.{last_of};
ghost use Rattle.stored_runs.specs.durable.Letting.{StoreHas, LetsOut};
ghost use Rattle.office_stations.specs.Sessions.{finished_of};
ghost use Rattle.office_stations.specs.refinement.Standings.{standing};
ghost use Rattle.session_streams.specs.requests.Bytes.{nothing_taken};
ghost use Rattle.session_streams.specs.requests.refinement.{taking_of};
ghost use Rattle.stored_runs.specs.Keeping.{HasText};
ghost use Rattle.stored_runs.specs.Runs.{HasStanding, IsToldBy};
ghost use Rattle.serving.specs.Serving.{IsEndBy, Serves};
ghost use Rattle.serving.specs.refinement.Rounding.{RoundCut, RoundMade, Went, WentAfter};

use crate::answers::add_ready;
use crate::asking::answer_some;
use crate::fault::ServeFault;
use crate::incoming::Incoming;
use crate::served::Served;
use crate::status::{Monitor, TimedStore, tell_status};
use crate::telling::{end, tell_before_lack, turn_and_tell};
use crate::times::{Course, Times};
use journal_stores::Store;
use locked_office::Desk;
use office_map::{OfficeId, Plan};
use office_stations::{Gate, OpeningFault, Shared, Socket, Station, TimedTurn, Watch};
use own_lock::Pass;
use session_reports::form::Form;
use session_streams::requests::Asked;
use session_streams::requests::laws::parts_are_one;
use site_core::Office;
use std::alloc::Global;
use std::collections::VecDeque;
use std::io::{Read, Write};
use std::rt::Clock;
use std::sync::Wait;
use stored_runs::Kept;
use stored_runs::beginning::{begin, open_alone};
use stored_runs::books::Books;
use stored_runs::durable::Mail;
use stored_runs::telling::write_whole;

/// An office at its station goes on from what its store has, and answers what a client asks, as it comes: sessions, each under the
/// next ticket or under its own, and values of records. A line is said only of what stands, and flushed. First it is said how many
/// tickets were given; at the end how many sessions haven't finished. It goes on for its neighbours until its input has ended, its
/// sessions have finished and no datagram was taken for `linger` seconds; with 0 it goes on.
///
/// # Errors
/// `Memory`, where nothing was done or told. What ends the service before its time is told in what it answers.
pub fn serve<
    R: Wait + Clock,
    S: Socket,
    G: Gate,
    W: Monitor,
    T: Store + Drop,
    I: Read + Drop,
    O: Write,
>(
    rt: &R,
    alloc: Global,
    form: Form,
    plan: &Plan,
    me: OfficeId,
    station: &mut Station<S>,
    kept: Kept,
    store: &mut TimedStore<'_, R, T>,
    input: I,
    times: Times,
    gate: &G,
    watch: &W,
    out: &mut O,
) -> Result<Served, OpeningFault>
    requires office { me < length plan.now.offices }
    requires key { station.old.pump.key ≡ (plan.now, me) }
    requires last { (v n : ℕ) → last_of station.old.pump.lasts v n ≡ None }
    requires site { (kept.site.plan ≡ plan.now) × (kept.site.me ≡ me) }
    requires usable { T.failed store.old.store ≡ false }
    requires text { IfSome (T.stood store.old.store) (λ text. (length text ≡ kept.bytes) × HasText plan.now me text kept.site.entries) }
    ensures serves { IfOk result (λ e. Serves (IsToldBy S.account) form S.tells plan.now me kept (I.remaining input) (T.stood store.new.store) (S.account station.old.socket) (S.account station.new.socket) e (O.contents out.old) (O.contents out.new)) }
    ensures fault { IfOk result (λ e. IsEndBy (T.failed store.new.store) e.fault) }
    ensures unwritten { OnErr result (O.contents out.new ≡ O.contents out.old) }
{
    let bytes = kept.bytes();
    let office = kept.into_office();
    let mut books = Books {
        stood: office.journal().len(),
        told: office.outcomes().len(),
        left: office.unfinished(),
    };
    let mut ready = String::new(alloc);
    add_ready(&mut ready, form, office.tickets())?;
    let (desk, mut pass) = open_alone(alloc, office)?;
    let mut incoming = Incoming::new(alloc, input);
    let fault = start(
        rt,
        alloc,
        form,
        plan,
        me,
        station,
        &desk,
        &mut pass,
        store,
        &mut books,
        bytes,
        &mut incoming,
        &ready,
        times,
        gate,
        watch,
        out,
    )
    .err();
    let unfinished = count_unfinished(rt, &desk, &mut pass);
    let fault = end(alloc, form, fault, unfinished, out);
    Ok(Served { unfinished, fault })
}

/// How many sessions were submitted, and have neither finished nor been withdrawn. Their number is known; no journal is walked for it.
fn count_unfinished<R: Wait>(rt: &R, desk: &Desk, pass: &mut Pass<Office>) -> usize
    requires of { IsOf desk.now pass.old }
    requires idle { pass.old.holds ≡ false }
    ensures stays { Stays desk.now pass.old pass.new }
    ensures looked { Looks desk.now.key pass.old pass.new }
    ensures count { result ≡ unfinished (office_of (office_with desk.now.key pass.new.seen)).agenda }
{
    let held = desk.lock().take(rt, pass);
    let count = held.get().unfinished();
    desk.lock().give(pass, held);
    count
}

/// It is said how many tickets were given, and then the office goes on.
fn start<
    R: Wait + Clock,
    S: Socket,
    G: Gate,
    W: Monitor,
    T: Store + Drop,
    I: Read + Drop,
    O: Write,
>(
    rt: &R,
    alloc: Global,
    form: Form,
    plan: &Plan,
    me: OfficeId,
    station: &mut Station<S>,
    desk: &Desk,
    pass: &mut Pass<Office>,
    store: &mut TimedStore<'_, R, T>,
    books: &mut Books,
    has_bytes: usize,
    incoming: &mut Incoming<I>,
    ready: &str,
    times: Times,
    gate: &G,
    watch: &W,
    out: &mut O,
) -> Result<(), ServeFault>
    requires key { desk.now.key ≡ station.old.pump.key }
    requires is { desk.now.key ≡ (plan.now, me) }
    requires of { IsOf desk.now pass.old }
    requires idle { pass.old.holds ≡ false }
    requires tag { pass.old.tag ≡ 0 }
    requires usable { T.failed store.old.store ≡ false }
    requires text { IfSome (T.stood store.old.store) (λ text. (length text ≡ has_bytes) × HasText plan.now me text pass.old.seen) }
    requires none { has_bytes ≡ 0 → pass.old.seen ≡ [] }
    requires all { books.old.stood ≡ length pass.old.seen }
    requires told { books.old.told ≡ length (finished_of (office_with desk.now.key pass.old.seen)) }
    requires left { books.old.left ≡ unfinished (office_of (office_with desk.now.key pass.old.seen)).agenda }
    requires nothing { taking_of incoming.old.intake ≡ nothing_taken }
    requires going { incoming.old.has_ended ≡ false }
    ensures stays { Stays desk.now pass.old pass.new }
    ensures has { HasStanding (T.stood store.new.store) desk.now.key pass.new.seen books.new.stood }
    ensures within { books.new.stood ≤ length pass.new.seen }
    ensures lets_out { LetsOut S.tells pass.old.tag (S.account station.old.socket) (S.account station.new.socket) pass.new.seen books.new.stood }
    ensures went { WentAfter (IsToldBy S.account) ready.now form S.tells desk.now.key (I.remaining incoming.old.input) (standing pass.old (S.account station.old.socket) (last_of station.old.pump.lasts))
        (take books.new.stood pass.new.seen) (result_err result) (O.contents out.old) (O.contents out.new) }
    ensures fault { IsEndBy (T.failed store.new.store) (result_err result) }
{
    match write_whole(out, ready) {
        Ok(()) => {}
        Err(fault) => return Err(ServeFault::Run(fault)),
    }
    go_on(
        rt, alloc, form, plan, me, station, desk, pass, store, books, has_bytes, incoming, times,
        gate, watch, out,
    )
}

/// The first line stands, and then the rounds are made.
fn go_on<
    R: Wait + Clock,
    S: Socket,
    G: Gate,
    W: Monitor,
    T: Store + Drop,
    I: Read + Drop,
    O: Write,
>(
    rt: &R,
    alloc: Global,
    form: Form,
    plan: &Plan,
    me: OfficeId,
    station: &mut Station<S>,
    desk: &Desk,
    pass: &mut Pass<Office>,
    store: &mut TimedStore<'_, R, T>,
    books: &mut Books,
    has_bytes: usize,
    incoming: &mut Incoming<I>,
    times: Times,
    gate: &G,
    watch: &W,
    out: &mut O,
) -> Result<(), ServeFault>
    requires key { desk.now.key ≡ station.old.pump.key }
    requires is { desk.now.key ≡ (plan.now, me) }
    requires of { IsOf desk.now pass.old }
    requires idle { pass.old.holds ≡ false }
    requires tag { pass.old.tag ≡ 0 }
    requires usable { T.failed store.old.store ≡ false }
    requires text { IfSome (T.stood store.old.store) (λ text. (length text ≡ has_bytes) × HasText plan.now me text pass.old.seen) }
    requires none { has_bytes ≡ 0 → pass.old.seen ≡ [] }
    requires all { books.old.stood ≡ length pass.old.seen }
    requires told { books.old.told ≡ length (finished_of (office_with desk.now.key pass.old.seen)) }
    requires left { books.old.left ≡ unfinished (office_of (office_with desk.now.key pass.old.seen)).agenda }
    requires nothing { taking_of incoming.old.intake ≡ nothing_taken }
    requires going { incoming.old.has_ended ≡ false }
    ensures stays { Stays desk.now pass.old pass.new }
    ensures has { HasStanding (T.stood store.new.store) desk.now.key pass.new.seen books.new.stood }
    ensures within { books.new.stood ≤ length pass.new.seen }
    ensures lets_out { LetsOut S.tells pass.old.tag (S.account station.old.socket) (S.account station.new.socket) pass.new.seen books.new.stood }
    ensures went { Went (IsToldBy S.account) form S.tells desk.now.key (I.remaining incoming.old.input) (standing pass.old (S.account station.old.socket) (last_of station.old.pump.lasts))
        (take books.new.stood pass.new.seen) (result_err result) (O.contents out.old) (O.contents out.new) }
    ensures fault { IsEndBy (T.failed store.new.store) (result_err result) }
{
    if has_bytes == 0 {
        match begin(alloc, plan, me, store) {
            Ok(()) => {}
            Err(fault) => return Err(ServeFault::Run(fault)),
        }
    }
    rounds(
        rt, alloc, form, plan, me, station, desk, pass, store, books, incoming, times, gate, watch,
        out,
    )
}

/// The rounds: what came is heard, what was asked is answered as far as the office takes sessions, and a turn is made.
fn rounds<
    R: Wait + Clock,
    S: Socket,
    G: Gate,
    W: Monitor,
    T: Store + Drop,
    I: Read + Drop,
    O: Write,
>(
    rt: &R,
    alloc: Global,
    form: Form,
    plan: &Plan,
    me: OfficeId,
    station: &mut Station<S>,
    desk: &Desk,
    pass: &mut Pass<Office>,
    store: &mut TimedStore<'_, R, T>,
    books: &mut Books,
    incoming: &mut Incoming<I>,
    times: Times,
    gate: &G,
    watch: &W,
    out: &mut O,
) -> Result<(), ServeFault>
    requires key { desk.now.key ≡ station.old.pump.key }
    requires is { desk.now.key ≡ (plan.now, me) }
    requires of { IsOf desk.now pass.old }
    requires idle { pass.old.holds ≡ false }
    requires tag { pass.old.tag ≡ 0 }
    requires usable { T.failed store.old.store ≡ false }
    requires has { StoreHas (T.stood store.old.store) desk.now.key pass.old.seen books.old.stood }
    requires all { books.old.stood ≡ length pass.old.seen }
    requires told { books.old.told ≡ length (finished_of (office_with desk.now.key pass.old.seen)) }
    requires left { books.old.left ≡ unfinished (office_of (office_with desk.now.key pass.old.seen)).agenda }
    requires nothing { taking_of incoming.old.intake ≡ nothing_taken }
    requires going { incoming.old.has_ended ≡ false }
    ensures stays { Stays desk.now pass.old pass.new }
    ensures has { StoreHas (T.stood store.new.store) desk.now.key pass.new.seen books.new.stood }
    ensures within { books.new.stood ≤ length pass.new.seen }
    ensures lets_out { LetsOut S.tells pass.old.tag (S.account station.old.socket) (S.account station.new.socket) pass.new.seen books.new.stood }
    ensures went { Went (IsToldBy S.account) form S.tells desk.now.key (I.remaining incoming.old.input) (standing pass.old (S.account station.old.socket) (last_of station.old.pump.lasts))
        (take books.new.stood pass.new.seen) (result_err result) (O.contents out.old) (O.contents out.new) }
    ensures fault { IsEndBy (T.failed store.new.store) (result_err result) }
{
    parts_are_one();
    let shared = Shared::new(u64::MAX);
    let mut course = Course::new(times);
    let mut waiting = VecDeque::new(alloc);
    let mut mail = Mail::new(alloc);
    let mut from = 0;
    let mut line = String::new(alloc);
    let mut said = String::new(alloc);
    let mut text = String::new(alloc);
    for _ in rt.forever() {
        if is_over(incoming.is_at_end(), &waiting, books.left, &course) {
            return Ok(());
        }
        match incoming.hear(alloc, plan, me, &mut waiting) {
            Ok(()) => {}
            Err(fault) => return Err(fault),
        }
        let turn = match round(
            rt,
            alloc,
            form,
            plan,
            me,
            station,
            &mut mail,
            desk,
            pass,
            store,
            books,
            &mut waiting,
            &mut from,
            &mut line,
            &mut said,
            &mut text,
            gate,
            watch,
            &shared,
            out,
        ) {
            Ok(turn) => turn,
            Err(fault) => return Err(fault),
        };
        course.note(&turn);
        tell_status(
            alloc,
            plan,
            me,
            station,
            watch,
            &mut course,
            books,
            &shared,
            store,
        );
    }
    unreachable!()
}

/// Whether its input has ended, all is answered and done, and no datagram was taken for long enough.
fn is_over(no_more: bool, waiting: &VecDeque<Asked>, left: usize, course: &Course) -> bool
    ensures no_more { IsTrue result → IsTrue no_more }
    ensures none { IsTrue result → waiting.now.items ≡ [] }
    ensures done { IsTrue result → left ≡ 0 }
{
    if !no_more {
        return false;
    }
    if let Some(_) = waiting.front() {
        return false;
    }
    if left > 0 {
        return false;
    }
    course.is_quiet()
}

/// A round: what was asked is answered as far as the office takes sessions, and a turn is made. What was said goes out once that
/// stands; then what finished is told.
fn round<R: Wait + Clock, S: Socket, G: Gate, W: Watch, T: Store, O: Write>(
    rt: &R,
    alloc: Global,
    form: Form,
    plan: &Plan,
    me: OfficeId,
    station: &mut Station<S>,
    mail: &mut Mail,
    desk: &Desk,
    pass: &mut Pass<Office>,
    store: &mut T,
    books: &mut Books,
    waiting: &mut VecDeque<Asked>,
    from: &mut usize,
    line: &mut String,
    said: &mut String,
    text: &mut String,
    gate: &G,
    watch: &W,
    shared: &Shared,
    out: &mut O,
) -> Result<TimedTurn, ServeFault>
    requires key { desk.now.key ≡ station.old.pump.key }
    requires is { desk.now.key ≡ (plan.now, me) }
    requires of { IsOf desk.now pass.old }
    requires idle { pass.old.holds ≡ false }
    requires tag { pass.old.tag ≡ 0 }
    requires usable { T.failed store.old ≡ false }
    requires has { StoreHas (T.stood store.old) desk.now.key pass.old.seen books.old.stood }
    requires all { books.old.stood ≡ length pass.old.seen }
    requires told { books.old.told ≡ length (finished_of (office_with desk.now.key pass.old.seen)) }
    ensures key { station.new.pump.key ≡ station.old.pump.key }
    ensures stays { Stays desk.now pass.old pass.new }
    ensures grows { IsPrefix pass.old.seen pass.new.seen }
    ensures has { StoreHas (T.stood store.new) desk.now.key pass.new.seen books.new.stood }
    ensures later { books.old.stood ≤ books.new.stood }
    ensures within { books.new.stood ≤ length pass.new.seen }
    ensures lets_out { LetsOut S.tells pass.old.tag (S.account station.old.socket) (S.account station.new.socket) pass.new.seen books.new.stood }
    ensures all { OnOk result (books.new.stood ≡ length pass.new.seen) }
    ensures told { OnOk result (books.new.told ≡ length (finished_of (office_with desk.now.key pass.new.seen))) }
    ensures left { OnOk result (books.new.left ≡ unfinished (office_of (office_with desk.now.key pass.new.seen)).agenda) }
    ensures usable { OnOk result (T.failed store.new ≡ false) }
    ensures made { IfOk result (λ t. RoundMade form S.tells desk.now.key t (standing pass.old (S.account station.old.socket) (last_of station.old.pump.lasts))
        (standing pass.new (S.account station.new.socket) (last_of station.new.pump.lasts)) waiting.old.items waiting.new.items (O.contents out.old) (O.contents out.new)) }
    ensures fault { IfErr result (λ f. IsEndBy (T.failed store.new) (Some f)) }
    ensures cut { IfErr result (λ f. RoundCut form f desk.now.key pass.old waiting.old.items (take books.new.stood pass.new.seen) (O.contents out.old) (O.contents out.new)) }
{
    said.clear();
    match answer_some(rt, alloc, form, desk, pass, waiting, from, line, said) {
        Ok(()) => {}
        Err(lack) => {
            let before = said.as_str();
            return Err(tell_before_lack(
                rt, alloc, desk, pass, store, books, before, lack, text, out,
            ));
        }
    }
    let lines = said.as_str();
    hurry_for(station, lines);
    gate.before(me);
    turn_and_tell(
        rt, alloc, form, plan, me, station, mail, desk, pass, store, books, lines, text, watch,
        shared, out,
    )
}

/// Where something is to be said, the turn comes at once.
fn hurry_for<S: Socket>(station: &mut Station<S>, said: &str)
    ensures pump { station.new.pump ≡ station.old.pump }
    ensures socket { station.new.socket ≡ station.old.socket }
{
    if said.is_empty() {
        return;
    }
    station.hurry();
}
