//! Entries are made to stand.

ghost use Rattle.std.specs.Prelude.{◌≡◌, ◌≤◌, false, length, drop, OnOk, OnErr, IfErr, IfOk};
ghost use Rattle.std.specs.String.{string_bytes};
ghost use Rattle.own_lock.specs.Passes.{IsOf};
ghost use Rattle.locked_office.specs.Calls.{Stays, Looks};
ghost use Rattle.journal_stores.specs.Stores.{IsFound};
ghost use Rattle.journal_texts.specs.Written.{lines_of};
ghost use Rattle.stored_runs.specs.durable.Letting.{StoreHas, FindsText, key_of};
ghost use Rattle.stored_runs.specs.durable.refinement.Faults.{BreaksStanding};

use crate::durable::fault::TurnFault;
use journal_stores::{Store, StoreFailed};
use journal_texts::add_lines;
use locked_office::Desk;
use own_lock::Pass;
use site_core::Office;
use std::alloc::{AllocError, Global};
use std::sync::Wait;

/// All entries that the office has now stand from now on. Where none is new, nothing is appended. What the text had is forgotten.
pub(crate) fn stand<R: Wait, S: Store>(
    rt: &R,
    alloc: Global,
    desk: &Desk,
    pass: &mut Pass<Office>,
    store: &mut S,
    stood: &mut usize,
    text: &mut String,
) -> Result<(), TurnFault>
    requires of { IsOf desk.now pass.old }
    requires idle { pass.old.holds ≡ false }
    requires usable { S.failed store.old ≡ false }
    requires has { StoreHas (S.stood store.old) desk.now.key pass.old.seen stood.old }
    requires within { stood.old ≤ length pass.old.seen }
    ensures stays { Stays desk.now pass.old pass.new }
    ensures looked { Looks desk.now.key pass.old pass.new }
    ensures has { StoreHas (S.stood store.new) desk.now.key pass.new.seen stood.new }
    ensures all { OnOk result (stood.new ≡ length pass.new.seen) }
    ensures same { OnErr result (stood.new ≡ stood.old) }
    ensures usable { OnOk result (S.failed store.new ≡ false) }
    ensures fault { IfErr result (BreaksStanding (S.failed store.new)) }
    ensures whole { OnOk result (IsFound (S.stood store.old) (S.found store.old) → IsFound (S.stood store.new) (S.found store.new)) }
    ensures found { OnErr result (IsFound (S.stood store.old) (S.found store.old) → FindsText (S.stood store.new) (S.found store.new) desk.now.key pass.new.seen) }
{
    let held = desk.lock().take(rt, pass);
    let stands = stand_office(alloc, held.get(), store, stood, text);
    desk.lock().give(pass, held);
    stands
}

/// All entries of an office stand from now on. Where none is new, nothing is appended. Their lines are written into the text, whose
/// room later calls find; what it had is forgotten.
pub fn stand_office<S: Store>(
    alloc: Global,
    office: &Office,
    store: &mut S,
    stood: &mut usize,
    text: &mut String,
) -> Result<(), TurnFault>
    requires usable { S.failed store.old ≡ false }
    requires has { StoreHas (S.stood store.old) (key_of office.now) office.now.entries stood.old }
    ensures has { StoreHas (S.stood store.new) (key_of office.now) office.now.entries stood.new }
    ensures all { OnOk result (stood.new ≡ length office.now.entries) }
    ensures same { OnErr result (stood.new ≡ stood.old) }
    ensures usable { OnOk result (S.failed store.new ≡ false) }
    ensures fault { IfErr result (BreaksStanding (S.failed store.new)) }
    ensures whole { OnOk result (IsFound (S.stood store.old) (S.found store.old) → IsFound (S.stood store.new) (S.found store.new)) }
    ensures found { OnErr result (IsFound (S.stood store.old) (S.found store.old) → FindsText (S.stood store.new) (S.found store.new) (key_of office.now) office.now.entries) }
{
    let count = match lines_since(alloc, text, office, *stood) {
        Ok(count) => count,
        Err(_) => return Err(TurnFault::Memory),
    };
    if count == *stood {
        return Ok(());
    }
    match store.append(text.as_bytes()) {
        Ok(()) => {}
        Err(StoreFailed) => return Err(TurnFault::StoreFailed),
    }
    *stood = count;
    Ok(())
}

/// The text is the lines of the office's entries from that place on, and how many entries it has in all is told. What the text had is
/// forgotten.
fn lines_since(
    alloc: Global,
    text: &mut String,
    office: &Office,
    from: usize,
) -> Result<usize, AllocError>
    ensures lines { OnOk result (string_bytes text.new ≡ lines_of office.now.plan (drop from office.now.entries)) }
    ensures count { IfOk result (λ n. n ≡ length office.now.entries) }
{
    text.clear();
    let journal = office.journal();
    add_lines(alloc, text, journal, office.plan(), office.number(), from)?;
    Ok(journal.len())
}
