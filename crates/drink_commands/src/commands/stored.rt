//! The command `run` with a store.

ghost use Rattle.std.specs.Prelude.{◌≡◌, ◌≤◌, ◌<◌, false, true, length, All, IsTrue, IfErr, IfOk, IfSome, OnErr};
ghost use Rattle.session_programs.specs.Program.{fits};
ghost use Rattle.stored_runs.specs.Keeping.{HasText};
ghost use Rattle.command_outputs.specs.Places.{IsAnInput};
ghost use Rattle.drink_commands.specs.Stored.{EndsStored, IsEnd, IsEndedBy, IsJudgedStored, IsKept, IsNotHeld, IsRefusal, IsStoreFault, IsUnbegun, LeavesStored, RefusesStore, RunsStored, WentOn};
ghost use Rattle.std.specs.Option.{option_copied};
ghost use Rattle.drink_commands.specs.Sealed.{IsUnderSeals};
ghost use Rattle.datagram_seals.specs.sockets.Sealed.{IsToldUnder};
ghost use Rattle.drink_commands.specs.refinement.Stores.{IsToldOf};

use crate::commands::run::office_to_run;
use crate::commands::secrets::{lent, secrets_in};
use crate::commands::status_with;
use crate::diagnosed::of_journal;
use command_outputs::Fault;
use command_outputs::fault::StoreRefusal;
use command_outputs::places::refuse_input;
use command_outputs::stores::{Found, Stores};
use datagram_seals::frames::Secret;
use datagram_seals::sockets::{SealedSockets, Secrets};
use host_files::inputs::{Sources, StandardInput, failure_kind};
use journal_stores::{OpenFault, Sync};
use journal_texts::JournalRefusal;
use journal_texts::wording::words::office_name;
use office_map::{OfficeId, Plan};
use office_stations::{Around, Binds, Gate, Watch, at_address};
use serial_command::reading::{read_coded_programs, read_plan};
use session_programs::Program;
use session_reports::form::Form;
use std::alloc::{AllocError, Global};
use std::io::{ErrorKind, Write};
use std::marker::Brand;
use std::rt::Clock;
use std::sync::Wait;
use stored_runs::{Ended, Kept, KeptFault, LineFault, StoredFault, resumed, run_stored};

/// As [`run`](crate::commands::run::run), where the office keeps its journal in the store of that name and goes on from what it has. The
/// store is made, or has to be there. It is no input of the run; it is opened once the office has its socket, and has to have the
/// journal of this office and run, whose sessions begin the office's here. Where it doesn't, it stays as it is. How many sessions had finished
/// before is written first, in that form, and what these did; then what each does that finishes, once that stands; and at the end how many are left.
pub fn run<R, S, B, G, V, K, W>(
    rt: &R,
    alloc: Global,
    form: Form,
    sources: &S,
    plan: &str,
    office: &str,
    sessions: &str,
    turns: u64,
    store: &str,
    sync: Sync,
    is_new: bool,
    secrets: Option<&str>,
    around: &Around<'_, B, G, V>,
    stores: &mut K,
    out: &mut W,
) -> Result<u8, Fault>
where
    R: Wait + Clock,
    S: Sources,
    B: Binds,
    G: Gate,
    V: Watch,
    K: Stores,
    W: Write,
    ensures runs { IfOk result (λ status. RunsStored (IsUnderSeals B.Socket.account (S.file_text sources.now) (option_copied secrets.entry)) form B.Socket.tells (S.file_text sources.now) (S.standard_text sources.now) (K.has stores.old store.now) is_new plan.now office.now sessions.now store.now turns (EndsStored status) (W.contents out.old) (W.contents out.new)) }
    ensures status { IfOk result (λ status. status ≤ 1) }

    ensures judged { IfErr result (IsJudgedStored (S.file_text sources.now) (S.standard_text sources.now) plan.now office.now sessions.now) }
    ensures leaves { IfErr result (LeavesStored (W.contents out.new ≡ W.contents out.old) (stores.new ≡ stores.old) (IsAnInput (S.file_text sources.now) plan.now sessions.now store.now) is_new
        (RefusesStore (S.file_text sources.now) (S.standard_text sources.now) (K.has stores.old store.now) is_new plan.now office.now sessions.now)
        (λ cause. RunsStored (IsUnderSeals B.Socket.account (S.file_text sources.now) (option_copied secrets.entry)) form B.Socket.tells (S.file_text sources.now) (S.standard_text sources.now) (K.has stores.old store.now) is_new plan.now office.now sessions.now store.now turns (IsEndedBy cause) (W.contents out.old) (W.contents out.new))) }
{
    let plan_word = plan;
    let words = [plan, sessions];
    let mut standard = StandardInput::new(alloc, sources.standard(), &words);
    let plan = read_plan(alloc, sources, &mut standard, plan)?;
    let me = office_to_run(alloc, &plan, office)?;
    let programs = read_coded_programs(alloc, sources, &mut standard, sessions, &plan)?;
    let secrets = secrets_in(alloc, sources, secrets, &plan, me)?;
    refuse_input(alloc, sources, plan_word, sessions, store)?;
    let wanted = Wanted {
        name: store,
        sync,
        is_new,
    };
    let ended = go_on::<R, B, G, V, K, W, Brand>(
        rt,
        alloc,
        form,
        &plan,
        me,
        &programs,
        turns,
        &wanted,
        lent(&secrets),
        around,
        stores,
        out,
    )?;
    around.watch.end(&ended.remarks);
    end(&ended)
}

/// Which store an office has, how its bytes are made to stand, and whether it is made.
#[derive(Clone, Copy)]
pub(crate) struct Wanted<'a> {
    pub(crate) name: &'a str,
    pub(crate) sync: Sync,
    pub(crate) is_new: bool,
}

/// The office goes on from its store, at a socket under these secrets, if there are any.
fn go_on<R, B, G, V, K, W, X>(
    rt: &R,
    alloc: Global,
    form: Form,
    plan: &Plan,
    me: OfficeId,
    programs: &[Program],
    turns: u64,
    wanted: &Wanted<'_>,
    secrets: Option<&[Option<Secret>]>,
    around: &Around<'_, B, G, V>,
    stores: &mut K,
    out: &mut W,
) -> Result<Ended, Fault>
where
    R: Wait + Clock,
    B: Binds,
    G: Gate,
    V: Watch,
    K: Stores,
    W: Write,
    X: Secrets,
    requires office { me < length plan.now.offices }
    requires fit { All (λ p. IsTrue (fits plan.now p)) programs.now }
    requires secrets { option_copied secrets ≡ X.secrets }
    ensures went { IfOk result (λ e. WentOn (IsToldUnder B.Socket.account X.secrets) form B.Socket.tells (K.has stores.old wanted.now.name.now) wanted.now.is_new plan.now me programs.now turns e (W.contents out.old) (W.contents out.new)) }
    ensures unwritten { OnErr result (W.contents out.new ≡ W.contents out.old) }
    ensures fault { IfErr result (IsUnbegun (stores.new ≡ stores.old) wanted.now.is_new (IsNotHeld (K.has stores.old wanted.now.name.now) wanted.now.is_new plan.now me programs.now)) }
{
    let binds = SealedSockets::<B, X>::new(around.binds, secrets);
    let mut station = at_address(rt, alloc, plan, me, &binds)?;
    let (kept, mut held) = hold(alloc, stores, wanted, plan, me, programs)?;
    let ended = run_stored(
        rt,
        alloc,
        form,
        plan,
        me,
        programs,
        turns,
        &mut station,
        kept,
        &mut held,
        around.gate,
        around.watch,
        out,
    )?;
    Ok(ended)
}

/// The office as its store has it, and that store, which goes on from there.
fn hold<K: Stores>(
    alloc: Global,
    stores: &mut K,
    wanted: &Wanted<'_>,
    plan: &Plan,
    me: OfficeId,
    programs: &[Program],
) -> Result<(Kept, K::Store), Fault>
    requires office { me < length plan.now.offices }
    requires fit { All (λ p. IsTrue (fits plan.now p)) programs.now }
    ensures kept { IfOk result (λ r. IsKept (K.has stores.old wanted.now.name.now) wanted.now.is_new plan.now me programs.now r.0) }
    ensures usable { IfOk result (λ r. K.Store.failed r.1 ≡ false) }
    ensures text { IfOk result (λ r. IfSome (K.Store.stood r.1) (λ text. (length text ≡ r.0.bytes) × HasText plan.now me text r.0.site.entries)) }
    ensures fault { IfErr result (IsStoreFault (stores.new ≡ stores.old) wanted.now.is_new (IsNotHeld (K.has stores.old wanted.now.name.now) wanted.now.is_new plan.now me programs.now)) }
{
    if wanted.is_new {
        make(alloc, stores, wanted.name, wanted.sync, plan, me, programs)
    } else {
        find(alloc, stores, wanted.name, wanted.sync, plan, me, programs)
    }
}

/// The same of a store that is made.
fn make<K: Stores>(
    alloc: Global,
    stores: &mut K,
    name: &str,
    sync: Sync,
    plan: &Plan,
    me: OfficeId,
    programs: &[Program],
) -> Result<(Kept, K::Store), Fault>
    requires office { me < length plan.now.offices }
    requires fit { All (λ p. IsTrue (fits plan.now p)) programs.now }
    ensures kept { IfOk result (λ r. IsKept (K.has stores.old name.now) true plan.now me programs.now r.0) }
    ensures usable { IfOk result (λ r. K.Store.failed r.1 ≡ false) }
    ensures text { IfOk result (λ r. IfSome (K.Store.stood r.1) (λ text. (length text ≡ r.0.bytes) × HasText plan.now me text r.0.site.entries)) }
    ensures fault { IfErr result (IsStoreFault (stores.new ≡ stores.old) true (IsNotHeld (K.has stores.old name.now) true plan.now me programs.now)) }
{
    let kept = match resumed(alloc, plan, me, programs, &[]) {
        Ok(kept) => kept,
        Err(fault) => return Err(not_kept(alloc, plan, me, &[], fault)),
    };
    match stores.create(name, sync) {
        Ok(store) => Ok((kept, store)),
        Err(fault) => Err(Fault::NoStore(not_made(&fault))),
    }
}

/// The same of one that is there.
fn find<K: Stores>(
    alloc: Global,
    stores: &mut K,
    name: &str,
    sync: Sync,
    plan: &Plan,
    me: OfficeId,
    programs: &[Program],
) -> Result<(Kept, K::Store), Fault>
    requires office { me < length plan.now.offices }
    requires fit { All (λ p. IsTrue (fits plan.now p)) programs.now }
    ensures kept { IfOk result (λ r. IsKept (K.has stores.old name.now) false plan.now me programs.now r.0) }
    ensures usable { IfOk result (λ r. K.Store.failed r.1 ≡ false) }
    ensures text { IfOk result (λ r. IfSome (K.Store.stood r.1) (λ text. (length text ≡ r.0.bytes) × HasText plan.now me text r.0.site.entries)) }
    ensures fault { IfErr result (IsStoreFault (stores.new ≡ stores.old) false (IsNotHeld (K.has stores.old name.now) false plan.now me programs.now)) }
{
    let found = match stores.find(alloc, name) {
        Ok(found) => found,
        Err(fault) => return Err(Fault::NoStore(not_found(&fault))),
    };
    let kept = match resumed(alloc, plan, me, programs, found.had()) {
        Ok(kept) => kept,
        Err(fault) => return Err(not_kept(alloc, plan, me, found.had(), fault)),
    };
    match stores.go_on(found, kept.bytes(), sync) {
        Ok(store) => Ok((kept, store)),
        Err(error) => Err(Fault::NoStore(StoreRefusal::Failed(failure_kind(&error)))),
    }
}

/// Why a store isn't made.
pub(crate) fn not_made(fault: &OpenFault) -> StoreRefusal
    ensures { IsRefusal ⊥ true (λ _. ⊥) result }
{
    match fault {
        OpenFault::InUse => StoreRefusal::InUse,
        OpenFault::Failed(error) => match failure_kind(error) {
            ErrorKind::AlreadyExists => StoreRefusal::There,
            kind => StoreRefusal::Failed(kind),
        },
    }
}

/// Why one that is to be there isn't had.
pub(crate) fn not_found(fault: &OpenFault) -> StoreRefusal
    ensures { IsRefusal (Unit {0}) false (λ _. ⊥) result }
{
    match fault {
        OpenFault::InUse => StoreRefusal::InUse,
        OpenFault::Failed(error) => match failure_kind(error) {
            ErrorKind::NotFound => StoreRefusal::Missing,
            kind => StoreRefusal::Failed(kind),
        },
    }
}

/// Why an office doesn't go on from these bytes of its store.
pub(crate) fn not_kept(
    alloc: Global,
    plan: &Plan,
    me: OfficeId,
    bytes: &[u8],
    fault: KeptFault,
) -> Fault
    requires { me < length plan.now.offices }
    ensures { IsToldOf fault result }
{
    match fault {
        KeptFault::Memory => Fault::Memory,
        KeptFault::OtherSessions(ticket) => Fault::OtherSessions(ticket),
        KeptFault::Faulty(line, why) => match of_line(alloc, plan, me, bytes, line, why) {
            Ok(text) => Fault::NoStore(StoreRefusal::Faulty(line, why, text)),
            Err(_) => Fault::Memory,
        },
    }
}

/// What people are told of a line of a store that is none of the office's journal.
fn of_line(
    alloc: Global,
    plan: &Plan,
    me: OfficeId,
    bytes: &[u8],
    line: u64,
    why: LineFault,
) -> Result<String, AllocError>
    requires { me < length plan.now.offices }
{
    match why {
        LineFault::Refused(rule) => of_journal(alloc, bytes, plan, JournalRefusal { rule, line }),
        LineFault::OtherOffice => {
            let name = office_name(plan, me);
            format!(in alloc; "it is the journal of another office than `{name}`")
        }
        LineFault::NotGiven => String::from_str(
            alloc,
            "the office gives no such entry after those before it, with this reply",
        ),
        LineFault::OtherText => String::from_str(
            alloc,
            "an office doesn't write its journal so: a line is its own, and nothing stands beside it",
        ),
    }
}

/// The fault that ended a run before its time; or its exit status.
fn end(ended: &Ended) -> Result<u8, Fault>
    ensures done { IfOk result (λ status. EndsStored status ended.now) }
    ensures cut { IfErr result (IsEnd ended.now) }
{
    match ended.fault {
        None => Ok(status_with(ended.unfinished)),
        Some(StoredFault::Run(cause)) => Err(Fault::CutShort(cause)),
        Some(StoredFault::StoreFailed) => Err(Fault::StoreFailed),
        Some(StoredFault::WriteFailed(cause)) => Err(Fault::WriteFailed(cause)),
    }
}
