//! How a run with a store begins.

ghost use Rattle.std.specs.Prelude.{◌≡◌, Some, false, IfErr, IfOk, OnErr, OnOk};
ghost use Rattle.own_lock.specs.Passes.{fresh_pass};
ghost use Rattle.locked_office.specs.Calls.{tag_of};
ghost use Rattle.journal_stores.specs.Stores.{Stands};
ghost use Rattle.journal_texts.specs.Written.{header_line};
ghost use Rattle.stored_runs.specs.Runs.{IsFaultOf, IsOfStanding};

use crate::fault::StoredFault;
use journal_stores::{Store, StoreFailed};
use journal_texts::add_header;
use locked_office::Desk;
use office_map::{OfficeId, Plan};
use office_stations::RunFault;
use own_lock::Pass;
use site_core::Office;
use std::alloc::{AllocError, Global};

/// The office at a desk of its own, and the only pass.
pub fn open_alone(alloc: Global, office: Office) -> Result<(Desk, Pass<Office>), AllocError>
    ensures key { IfOk result (λ r. r.0.key ≡ (office.plan, office.me)) }
    ensures pass { IfOk result (λ r. r.1 ≡ fresh_pass r.0 tag_of office.entries 0) }
{
    let (desk, mut passes) = Desk::open(alloc, office, 1)?;
    match passes.pop() {
        Some(pass) => Ok((desk, pass)),
        None => Err(AllocError),
    }
}

/// The first line of the journal stands from now on.
///
/// The run appends it, and not what makes the store. So a store that was lost before its first line stood is one that
/// has done nothing, and no case of its own.
pub fn begin<T: Store>(
    alloc: Global,
    plan: &Plan,
    me: OfficeId,
    store: &mut T,
) -> Result<(), StoredFault>
    requires usable { T.failed store.old ≡ false }
    ensures stands { OnOk result (Stands (T.stood store.old) (header_line plan.now me) (T.stood store.new)) }
    ensures keeps { OnErr result (T.stood store.new ≡ T.stood store.old) }
    ensures usable { OnOk result (T.failed store.new ≡ false) }
    ensures fault { IfErr result (λ fault. IsFaultOf (T.failed store.new) (Some fault)) }
    ensures cause { IfErr result IsOfStanding }
{
    let mut text = String::new(alloc);
    let Ok(()) = add_header(&mut text, plan, me) else {
        return Err(StoredFault::Run(RunFault::Memory));
    };
    match store.append(text.as_bytes()) {
        Ok(()) => Ok(()),
        Err(StoreFailed) => Err(StoredFault::StoreFailed),
    }
}
