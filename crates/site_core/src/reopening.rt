//! An office that is opened again from its journal, entry by entry.

ghost use Rattle.std.specs.Prelude.{◌≡◌, ◌<◌, ◌++◌, [], List, true, false, length, IfOk, IfErr};
ghost use Rattle.office_journal.specs.declared.event.Entry.{Entry};
ghost use Rattle.site_core.specs.Journals.{IsLegal, noted};
ghost use Rattle.site_core.specs.Reopening.{site_with, GivesAs, IsNoJournal};
ghost use Rattle.site_core.specs.refinement.Giving.{Gives};

use crate::fault::ReopenFault;
use crate::office::Office;
use office_journal::{Entry, Refusal};
use office_map::{OfficeId, Plan};
use std::alloc::{AllocError, Global};

/// The office of which these entries are the journal. It is the one that had accepted them, and goes on where they end.
///
/// It is opened by its own events, and not from a copy of its state: an office is its journal's end, so there is
/// nothing else that could be wrong, and the reply of each entry is a check. A million entries take about a second.
///
/// # Errors
/// `NotGiven` where no office has that journal, with how many of the entries one gives; `Memory`.
pub fn reopened(
    alloc: Global,
    plan: &Plan,
    me: OfficeId,
    entries: &[Entry],
) -> Result<Office, ReopenFault>
    requires { me < length plan.now.offices }
    ensures office { IfOk result (λ o. o ≡ site_with plan.now me entries.now) }
    ensures legal { IfOk result IsLegal }
    ensures fault { IfErr result (IsNoJournal plan.now me entries.now) }
{
    let mut office = Office::open(alloc, plan, me)?;
    let mut given = 0;
    for entry in entries {
        if !gives_next(&mut office, entry)? {
            return Err(ReopenFault::NotGiven(given));
        }
        given += 1;
    }
    // Its journal is legal.
    let _ = office.journal();
    Ok(office)
}

/// Whether an office accepts an entry's event under the entry's tag, with its reply. If so it has that entry more.
fn gives_next(office: &mut Office, entry: &Entry) -> Result<bool, AllocError>
    ensures given { IfOk result (λ b. b ≡ true → office.new ≡ noted office.old entry.now.tag entry.now.event entry.now.reply) }
    ensures other { IfOk result (λ b. b ≡ false → Gives office.old entry.now → ⊥) }
    ensures legal { IsLegal office.old }
{
    // Its journal is legal.
    let _ = office.journal();
    if entry.tag >= 16 {
        return Ok(false);
    }
    gives(office, entry.tag, entry)
}

/// Whether an office accepts an entry's event under this tag, with the entry's reply. If so it has taken that step.
pub fn gives(office: &mut Office, tag: u8, entry: &Entry) -> Result<bool, AllocError>
    requires { tag < 16 }
    ensures given { IfOk result (λ b. b ≡ true → GivesAs tag office.old entry.now × (office.new ≡ noted office.old tag entry.now.event entry.now.reply)) }
    ensures other { IfOk result (λ b. b ≡ false → GivesAs tag office.old entry.now → ⊥) }
    ensures kept { IfOk result (λ _. (more : List Entry) × (office.new ≡ record { plan = office.old.plan; me = office.old.me; entries = office.old.entries ++ more })) }
{
    match office.step(tag, &entry.event) {
        Ok(reply) => Ok(reply.equals(&entry.reply)),
        Err(Refusal::Memory) => Err(AllocError),
        Err(_) => Ok(false),
    }
}
