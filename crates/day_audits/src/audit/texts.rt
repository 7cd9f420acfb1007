//! The world whose record texts are.

ghost use Rattle.std.specs.Prelude.{All, IfNone, IfOk, IfSome, IsSome, map};
ghost use Rattle.std.specs.String.{string_bytes};
ghost use Rattle.day_audits.specs.audit.Findings.{AreNoRecord, AreNotGathered, IsRecordedBy};
ghost use Rattle.day_audits.specs.audit.Following.{Gathers};

use crate::audit::auditing::audit;
use crate::audit::fault::GatherFault;
use crate::audit::journals::Journals;
use journal_texts::JournalFault;
use office_map::Plan;
use session_reports::form::Form;
use std::alloc::{AllocError, Global};
use world_schedule::World;

/// The world to which a schedule leads whose record these texts are, the journals of a plan's offices, one of each in any order; none
/// where they are the record of no schedule, or not such journals.
pub fn recorded(alloc: Global, plan: &Plan, texts: &[String]) -> Result<Option<World>, AllocError>
    ensures found { IfOk result (λ found. IfSome found (IsRecordedBy plan.now (map string_bytes texts.now))) }
    ensures none { IfOk result (λ found. IfNone found (AreNoRecord plan.now (map string_bytes texts.now))) }
{
    match gathered(alloc, plan, texts)? {
        Some(journals) => {
            let found = audit(alloc, Form::Plain, journals)?;
            Ok(found.world)
        }
        None => Ok(None),
    }
}

/// The journals that these texts are, where each office has one.
fn gathered(alloc: Global, plan: &Plan, texts: &[String]) -> Result<Option<Journals>, AllocError>
    ensures whole { IfOk result (λ found. IfSome found (λ j. All (λ slot. IsSome slot) j.slots)) }
    ensures gathers { IfOk result (λ found. IfSome found (Gathers plan.now (map string_bytes texts.now))) }
    ensures none { IfOk result (λ found. IfNone found (AreNotGathered plan.now (map string_bytes texts.now))) }
{
    let mut journals = Journals::new(alloc, plan)?;
    for text in texts {
        match journals.read(alloc, text.as_bytes()) {
            Ok(()) => {}
            Err(GatherFault::Unread(JournalFault::Memory)) => return Err(AllocError),
            Err(_) => return Ok(None),
        }
    }
    match journals.missing() {
        Some(_) => Ok(None),
        None => Ok(Some(journals)),
    }
}
