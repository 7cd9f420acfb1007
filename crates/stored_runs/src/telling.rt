//! What stands is told.

ghost use Rattle.std.specs.Prelude.{◌≡◌, ◌⊎◌, ◌≤◌, ◌++◌, Some, false, length, drop, IfOk, IfErr, OnOk, OnErr};
ghost use Rattle.std.specs.List.{flat_map};
ghost use Rattle.std.specs.String.{string_bytes};
ghost use Rattle.std.specs.Io.KnownBytes.{Appends};
ghost use Rattle.own_lock.specs.Passes.{IsOf};
ghost use Rattle.site_core.specs.agendas.Agenda.{unfinished};
ghost use Rattle.site_core.specs.Journals.{office_of};
ghost use Rattle.locked_office.specs.Calls.{Stays, Looks, office_with};
ghost use Rattle.session_reports.specs.form.Forms.{outcome_as, unfinished_as};
ghost use Rattle.stored_runs.specs.durable.Letting.{StoreHas, key_of};
ghost use Rattle.office_stations.specs.Sessions.{finished_of};
ghost use Rattle.stored_runs.specs.Runs.{IsFaultOf, IsOfStanding, IsUntold, Unless, told_text};
ghost use Rattle.stored_runs.specs.refinement.Telling.{IsOfTelling};

use crate::books::Books;
use crate::durable::stand_office;
use crate::fault::StoredFault;
use host_files::inputs::failure_kind;
use journal_stores::Store;
use locked_office::Desk;
use office_map::Plan;
use office_stations::RunFault;
use own_lock::Pass;
use session_meaning::Outcome;
use session_reports::form::Form;
use session_reports::form::report::{add_outcomes, add_unfinished};
use session_reports::form::words::add_count;
use site_core::Office;
use std::alloc::{AllocError, Global};
use std::io::Write;
use std::sync::Wait;

/// The text goes out, and is flushed.
pub fn write_whole<W: Write>(out: &mut W, text: &str) -> Result<(), StoredFault>
    ensures written { OnOk result (Appends (W.contents out.old) (W.contents out.new) text.now) }
    ensures fault { IfErr result IsUntold }
{
    if let Err(error) = out.write_all(text.as_bytes()) {
        return Err(StoredFault::WriteFailed(failure_kind(&error)));
    }
    if let Err(error) = out.flush() {
        return Err(StoredFault::WriteFailed(failure_kind(&error)));
    }
    Ok(())
}

/// The text goes out, if there is any.
pub fn write_some<W: Write>(out: &mut W, text: &str) -> Result<(), StoredFault>
    ensures written { OnOk result (Appends (W.contents out.old) (W.contents out.new) text.now) }
    ensures fault { IfErr result IsUntold }
{
    if text.is_empty() {
        return Ok(());
    }
    write_whole(out, text)
}

/// How many sessions had finished before, and their lines.
///
/// There is no other memory of what was told than the journal: a reader who lost its lines has them again, and one who
/// didn't knows how many to pass over.
pub(crate) fn before_text(
    alloc: Global,
    form: Form,
    plan: &Plan,
    outcomes: &[Outcome],
) -> Result<String, AllocError>
    ensures { IfOk result (λ text. string_bytes text ≡ told_text form plan.now (length outcomes.now) outcomes.now) }
{
    let count = outcomes.len();
    let mut text = String::new(alloc);
    add_count(&mut text, form, "before", count as u64)?;
    add_outcomes(&mut text, form, plan, outcomes)?;
    Ok(text)
}

/// What the office has stands from now on, all of it; its sessions that finished since so many were told are told, and how many
/// haven't finished is noted. The text is written anew for both, in the room that it has; what it had is forgotten.
///
/// The entries are appended and the finished sessions read off in one holding of the office. So nothing hangs on who
/// else might have written between.
pub fn stand_and_tell<R: Wait, S: Store, W: Write>(
    rt: &R,
    alloc: Global,
    desk: &Desk,
    pass: &mut Pass<Office>,
    form: Form,
    plan: &Plan,
    store: &mut S,
    books: &mut Books,
    text: &mut String,
    out: &mut W,
) -> Result<(), StoredFault>
    requires of { IsOf desk.now pass.old }
    requires idle { pass.old.holds ≡ false }
    requires usable { S.failed store.old ≡ false }
    requires has { StoreHas (S.stood store.old) desk.now.key pass.old.seen books.old.stood }
    requires within { books.old.stood ≤ length pass.old.seen }
    ensures stays { Stays desk.now pass.old pass.new }
    ensures looked { Looks desk.now.key pass.old pass.new }
    ensures has { StoreHas (S.stood store.new) desk.now.key pass.new.seen books.new.stood }
    ensures steps { (books.new.stood ≡ books.old.stood) ⊎ (books.new.stood ≡ length pass.new.seen) }
    ensures all { OnOk result (books.new.stood ≡ length pass.new.seen) }
    ensures told { OnOk result (books.new.told ≡ length (finished_of (office_with desk.now.key pass.new.seen))) }
    ensures left { OnOk result (books.new.left ≡ unfinished (office_of (office_with desk.now.key pass.new.seen)).agenda) }
    ensures lines { OnOk result (Appends (W.contents out.old) (W.contents out.new) (flat_map (outcome_as form plan.now) (drop books.old.told (finished_of (office_with desk.now.key pass.new.seen))))) }
    ensures same { OnErr result (books.new.told ≡ books.old.told) }
    ensures untold { IfErr result (λ fault. Unless (Some fault) (W.contents out.new ≡ W.contents out.old)) }
    ensures usable { OnOk result (S.failed store.new ≡ false) }
    ensures fault { IfErr result (λ fault. IsFaultOf (S.failed store.new) (Some fault)) }
    ensures cause { IfErr result IsOfStanding }
{
    let held = desk.lock().take(rt, pass);
    let added = stand_and_add(alloc, text, held.get(), form, plan, store, books);
    desk.lock().give(pass, held);
    let count = match added {
        Ok(count) => count,
        Err(fault) => return Err(fault),
    };
    match write_some(out, text) {
        Ok(()) => {}
        Err(fault) => return Err(fault),
    }
    books.told = count;
    Ok(())
}

/// What an office has stands from now on; and the text is the lines of its sessions that finished since so many were told, and how
/// many have is told. What the text had is forgotten.
fn stand_and_add<S: Store>(
    alloc: Global,
    text: &mut String,
    office: &Office,
    form: Form,
    plan: &Plan,
    store: &mut S,
    books: &mut Books,
) -> Result<usize, StoredFault>
    requires usable { S.failed store.old ≡ false }
    requires has { StoreHas (S.stood store.old) (key_of office.now) office.now.entries books.old.stood }
    ensures has { StoreHas (S.stood store.new) (key_of office.now) office.now.entries books.new.stood }
    ensures steps { (books.new.stood ≡ books.old.stood) ⊎ (books.new.stood ≡ length office.now.entries) }
    ensures all { OnOk result (books.new.stood ≡ length office.now.entries) }
    ensures count { IfOk result (λ n. n ≡ length (finished_of office.now)) }
    ensures lines { OnOk result (string_bytes text.new ≡ flat_map (outcome_as form plan.now) (drop books.old.told (finished_of office.now))) }
    ensures told { books.new.told ≡ books.old.told }
    ensures left { OnOk result (books.new.left ≡ unfinished (office_of office.now).agenda) }
    ensures usable { OnOk result (S.failed store.new ≡ false) }
    ensures fault { IfErr result (λ fault. IsFaultOf (S.failed store.new) (Some fault)) }
    ensures cause { IfErr result IsOfStanding }
{
    match stand_office(alloc, office, store, &mut books.stood, text) {
        Ok(()) => {}
        Err(fault) => return Err(StoredFault::of_turn(fault)),
    }
    books.left = office.unfinished();
    text.clear();
    match add_since(text, form, plan, office.outcomes(), books.told) {
        Ok(count) => Ok(count),
        Err(_) => Err(StoredFault::Run(RunFault::Memory)),
    }
}

/// The lines of these sessions from that place on are added, and how many they are in all is told.
fn add_since(
    text: &mut String,
    form: Form,
    plan: &Plan,
    outcomes: &[Outcome],
    from: usize,
) -> Result<usize, AllocError>
    ensures lines { OnOk result (string_bytes text.new ≡ string_bytes text.old ++ flat_map (outcome_as form plan.now) (drop from outcomes.now)) }
    ensures count { IfOk result (λ n. n ≡ length outcomes.now) }
{
    if from < outcomes.len() {
        add_outcomes(text, form, plan, &outcomes[from..])?;
    }
    Ok(outcomes.len())
}

/// How many sessions are left is told at the end.
pub fn tell_left<W: Write>(
    alloc: Global,
    form: Form,
    left: usize,
    out: &mut W,
) -> Result<(), StoredFault>
    ensures told { OnOk result (Appends (W.contents out.old) (W.contents out.new) (unfinished_as form left)) }
    ensures untold { IfErr result (λ fault. Unless (Some fault) (W.contents out.new ≡ W.contents out.old)) }
    ensures fault { IfErr result IsOfTelling }
{
    let mut text = String::new(alloc);
    let Ok(()) = add_unfinished(&mut text, form, left) else {
        return Err(StoredFault::Run(RunFault::Memory));
    };
    write_whole(out, &text)
}
