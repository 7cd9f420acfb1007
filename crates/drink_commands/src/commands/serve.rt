//! The command `serve`.

ghost use Rattle.std.specs.Prelude.{◌≡◌, ◌<◌, codes, false, true, length, IfErr, IfOk, IfSome, OnErr};
ghost use Rattle.std.specs.Option.{option_copied};
ghost use Rattle.stored_runs.specs.Keeping.{HasText};
ghost use Rattle.command_outputs.specs.Places.{IsAnInput};
ghost use Rattle.datagram_seals.specs.sockets.Sealed.{IsToldUnder};
ghost use Rattle.drink_commands.specs.Sealed.{IsUnderSeals};
ghost use Rattle.drink_commands.specs.Served.{HasServed, IsCutOff, IsFoundIn, IsJudgedServed, IsNotFoundIn, IsServeEnd, IsServed, LeavesServed, RefusesFound, ServesOffice};
ghost use Rattle.drink_commands.specs.Stored.{IsStoreFault, IsUnbegun};

use crate::commands::run::office_to_run;
use crate::commands::secrets::{lent, secrets_in};
use crate::commands::stored::{Wanted, not_found, not_kept, not_made};
use command_outputs::Fault;
use command_outputs::clients::Clients;
use command_outputs::fault::StoreRefusal;
use command_outputs::places::refuse_input;
use command_outputs::stores::{Found, Stores};
use datagram_seals::frames::Secret;
use datagram_seals::sockets::{SealedSockets, Secrets};
use host_files::inputs::{Sources, StandardInput, failure_kind};
use journal_stores::Sync;
use office_map::{OfficeId, Plan};
use office_stations::{Around, Binds, Gate, at_address};
use serial_command::reading::{Input, TextFault, read_plan};
use serving::{Monitor, ServeFault, Served, TimedStore, Times, serve};
use session_reports::form::Form;
use std::alloc::Global;
use std::io::Write;
use std::marker::Brand;
use std::rt::Clock;
use std::sync::Wait;
use stored_runs::{Kept, StoredFault, found_in};

/// Serves as an office of a plan at its address: what a client asks is answered as it comes, and each line is written in that form once it stands. The
/// plan is read and judged first; then an office of it has to have that name, and it and its neighbours an address; then its secrets are
/// read, where a file is named for them, and all datagrams are frames under seals. The office keeps
/// its journal in the store of that name, which is no input, and goes on from what it has: the store is made, or has to be there; it is
/// opened once the office has its socket. Nothing is written before. Where the service ends before its time, what was said stands, and is
/// written. The answer is the exit status: 0, since at its time no session is left.
pub fn run<R, S, B, G, V, K, C, W>(
    rt: &R,
    alloc: Global,
    form: Form,
    sources: &S,
    plan: &str,
    office: &str,
    store: &str,
    sync: Sync,
    is_new: bool,
    secrets: Option<&str>,
    times: Times,
    around: &Around<'_, B, G, V>,
    stores: &mut K,
    clients: &C,
    out: &mut W,
) -> Result<u8, Fault>
where
    R: Wait + Clock,
    S: Sources,
    B: Binds,
    G: Gate,
    V: Monitor,
    K: Stores,
    C: Clients,
    W: Write,
    ensures serves { IfOk result (λ status. ServesOffice (IsUnderSeals B.Socket.account (S.file_text sources.now) (option_copied secrets.entry)) form B.Socket.tells (S.file_text sources.now) (S.standard_text sources.now) (K.has stores.old store.now) is_new plan.now office.now store.now (C.asks clients.now) IsServed (W.contents out.old) (W.contents out.new)) }
    ensures status { IfOk result (λ status. status ≡ 0) }

    ensures judged { IfErr result (IsJudgedServed (S.file_text sources.now) (S.standard_text sources.now) plan.now office.now) }
    ensures leaves { IfErr result (LeavesServed (W.contents out.new ≡ W.contents out.old) (stores.new ≡ stores.old) (IsAnInput (S.file_text sources.now) plan.now (codes "-") store.now) is_new
        (RefusesFound (S.file_text sources.now) (S.standard_text sources.now) (K.has stores.old store.now) is_new plan.now office.now)
        (λ cause. ServesOffice (IsUnderSeals B.Socket.account (S.file_text sources.now) (option_copied secrets.entry)) form B.Socket.tells (S.file_text sources.now) (S.standard_text sources.now) (K.has stores.old store.now) is_new plan.now office.now store.now (C.asks clients.now) (IsCutOff cause) (W.contents out.old) (W.contents out.new))) }
{
    let plan_word = plan;
    let words = [plan];
    let mut standard = StandardInput::new(alloc, sources.standard(), &words);
    let plan = read_plan(alloc, sources, &mut standard, plan)?;
    let me = office_to_run(alloc, &plan, office)?;
    let secrets = secrets_in(alloc, sources, secrets, &plan, me)?;
    refuse_input(alloc, sources, plan_word, "-", store)?;
    let wanted = Wanted {
        name: store,
        sync,
        is_new,
    };
    let served = go_on::<R, B, G, V, K, C, W, Brand>(
        rt,
        alloc,
        form,
        &plan,
        me,
        &wanted,
        lent(&secrets),
        times,
        around,
        stores,
        clients,
        out,
    )?;
    end(&served)
}

/// The office goes on from its store and serves, at a socket under these secrets, if there are any.
fn go_on<R, B, G, V, K, C, W, X>(
    rt: &R,
    alloc: Global,
    form: Form,
    plan: &Plan,
    me: OfficeId,
    wanted: &Wanted<'_>,
    secrets: Option<&[Option<Secret>]>,
    times: Times,
    around: &Around<'_, B, G, V>,
    stores: &mut K,
    clients: &C,
    out: &mut W,
) -> Result<Served, Fault>
where
    R: Wait + Clock,
    B: Binds,
    G: Gate,
    V: Monitor,
    K: Stores,
    C: Clients,
    W: Write,
    X: Secrets,
    requires office { me < length plan.now.offices }
    requires secrets { option_copied secrets ≡ X.secrets }
    ensures served { IfOk result (λ e. HasServed (IsToldUnder B.Socket.account X.secrets) form B.Socket.tells (K.has stores.old wanted.now.name.now) wanted.now.is_new plan.now me (C.asks clients.now) e (W.contents out.old) (W.contents out.new)) }
    ensures unwritten { OnErr result (W.contents out.new ≡ W.contents out.old) }
    ensures fault { IfErr result (IsUnbegun (stores.new ≡ stores.old) wanted.now.is_new (IsNotFoundIn (K.has stores.old wanted.now.name.now) wanted.now.is_new plan.now me)) }
{
    let binds = SealedSockets::<B, X>::new(around.binds, secrets);
    let mut station = at_address(rt, alloc, plan, me, &binds)?;
    let (kept, held) = hold(alloc, stores, wanted, plan, me)?;
    let served = serve(
        rt,
        alloc,
        form,
        plan,
        me,
        &mut station,
        kept,
        &mut TimedStore::new(rt, held),
        clients.stream(),
        times,
        around.gate,
        around.watch,
        out,
    )?;
    Ok(served)
}

/// The office as its store has it, and that store, which goes on from there.
fn hold<K: Stores>(
    alloc: Global,
    stores: &mut K,
    wanted: &Wanted<'_>,
    plan: &Plan,
    me: OfficeId,
) -> Result<(Kept, K::Store), Fault>
    requires office { me < length plan.now.offices }
    ensures found { IfOk result (λ r. IsFoundIn (K.has stores.old wanted.now.name.now) wanted.now.is_new plan.now me r.0) }
    ensures usable { IfOk result (λ r. K.Store.failed r.1 ≡ false) }
    ensures text { IfOk result (λ r. IfSome (K.Store.stood r.1) (λ text. (length text ≡ r.0.bytes) × HasText plan.now me text r.0.site.entries)) }
    ensures fault { IfErr result (IsStoreFault (stores.new ≡ stores.old) wanted.now.is_new (IsNotFoundIn (K.has stores.old wanted.now.name.now) wanted.now.is_new plan.now me)) }
{
    if wanted.is_new {
        make(alloc, stores, wanted.name, wanted.sync, plan, me)
    } else {
        find(alloc, stores, wanted.name, wanted.sync, plan, me)
    }
}

/// The same of a store that is made.
fn make<K: Stores>(
    alloc: Global,
    stores: &mut K,
    name: &str,
    sync: Sync,
    plan: &Plan,
    me: OfficeId,
) -> Result<(Kept, K::Store), Fault>
    requires office { me < length plan.now.offices }
    ensures found { IfOk result (λ r. IsFoundIn (K.has stores.old name.now) true plan.now me r.0) }
    ensures usable { IfOk result (λ r. K.Store.failed r.1 ≡ false) }
    ensures text { IfOk result (λ r. IfSome (K.Store.stood r.1) (λ text. (length text ≡ r.0.bytes) × HasText plan.now me text r.0.site.entries)) }
    ensures fault { IfErr result (IsStoreFault (stores.new ≡ stores.old) true (IsNotFoundIn (K.has stores.old name.now) true plan.now me)) }
{
    let kept = match found_in(alloc, plan, me, &[]) {
        Ok(kept) => kept,
        Err(fault) => return Err(not_kept(alloc, plan, me, &[], fault)),
    };
    match stores.create(name, sync) {
        Ok(store) => Ok((kept, store)),
        Err(fault) => Err(Fault::NoStore(not_made(&fault))),
    }
}

/// The same of one that is there.
fn find<K: Stores>(
    alloc: Global,
    stores: &mut K,
    name: &str,
    sync: Sync,
    plan: &Plan,
    me: OfficeId,
) -> Result<(Kept, K::Store), Fault>
    requires office { me < length plan.now.offices }
    ensures found { IfOk result (λ r. IsFoundIn (K.has stores.old name.now) false plan.now me r.0) }
    ensures usable { IfOk result (λ r. K.Store.failed r.1 ≡ false) }
    ensures text { IfOk result (λ r. IfSome (K.Store.stood r.1) (λ text. (length text ≡ r.0.bytes) × HasText plan.now me text r.0.site.entries)) }
    ensures fault { IfErr result (IsStoreFault (stores.new ≡ stores.old) false (IsNotFoundIn (K.has stores.old name.now) false plan.now me)) }
{
    let found = match stores.find(alloc, name) {
        Ok(found) => found,
        Err(fault) => return Err(Fault::NoStore(not_found(&fault))),
    };
    let kept = match found_in(alloc, plan, me, found.had()) {
        Ok(kept) => kept,
        Err(fault) => return Err(not_kept(alloc, plan, me, found.had(), fault)),
    };
    match stores.go_on(found, kept.bytes(), sync) {
        Ok(store) => Ok((kept, store)),
        Err(error) => Err(Fault::NoStore(StoreRefusal::Failed(failure_kind(&error)))),
    }
}

/// The fault that ended a service before its time; or its exit status.
fn end(served: &Served) -> Result<u8, Fault>
    ensures done { IfOk result (λ status. (status ≡ 0) × IsServed served.now) }
    ensures cut { IfErr result (IsServeEnd served.now) }
{
    match served.fault {
        None => Ok(0),
        Some(ServeFault::InputFailed(cause)) => {
            Err(Fault::Text(TextFault::ReadFailed(Input::Sessions, cause)))
        }
        Some(ServeFault::Run(StoredFault::Run(cause))) => Err(Fault::CutShort(cause)),
        Some(ServeFault::Run(StoredFault::StoreFailed)) => Err(Fault::StoreFailed),
        Some(ServeFault::Run(StoredFault::WriteFailed(cause))) => Err(Fault::WriteFailed(cause)),
    }
}
