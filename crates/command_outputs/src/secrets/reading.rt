//! The secrets of an office, from a file.

ghost use Rattle.std.specs.Prelude.{◌≡◌, ◌<◌, ◌+◌, ℕ, List, IfErr, IfOk, None, Ok, Some, get_or, is_some, length, take};
ghost use Rattle.office_map.specs.PlanValue.{are_neighbours};
ghost use Rattle.datagram_seals.specs.texts.SecretText.{secrets_of};
ghost use Rattle.command_outputs.specs.secrets.Files.{RefusesSecrets};
ghost use Rattle.command_outputs.specs.secrets.refinement.Unread.{IsUnread};

use crate::secrets::fault::SecretsFault;
use crate::secrets::said::of_secrets;
use datagram_seals::frames::Secret;
use datagram_seals::texts::SecretFault;
use host_files::inputs::{InputFault, Sources, beginning, failure_kind};
use office_map::{OfficeId, Plan};
use std::alloc::Global;
use std::io::ErrorKind;

/// The longest text, in bytes.
const TEXT_LIMIT: usize = 262_144;

/// What this office shares with each office of the plan, by the file of that name.
pub fn read_secrets<S: Sources>(
    alloc: Global,
    sources: &S,
    name: &str,
    plan: &Plan,
    office: OfficeId,
) -> Result<Vec<Option<Secret>>, SecretsFault>
    requires { office < length plan.now.offices }
    ensures meaning { IfOk result (λ v. (text : List ℕ) → S.file_text sources.now name.now ≡ Some text → secrets_of plan.now office text ≡ Ok v.items) }
    ensures neighbours { IfOk result (λ v. (other : ℕ) → is_some (get_or v.items other None) ≡ are_neighbours plan.now office other) }
    ensures fault { IfErr result (RefusesSecrets (S.file_text sources.now name.now) plan.now office) }
{
    refuse_open(sources, name)?;
    let text = text(alloc, sources, name)?;
    match datagram_seals::texts::read(alloc, plan, office, &text) {
        Ok(secrets) => Ok(secrets),
        Err(SecretFault::Refused(refusal)) => {
            let said = of_secrets(alloc, &text, plan, &refusal)?;
            Err(SecretsFault::Refused(refusal, said))
        }
        Err(SecretFault::Memory) => Err(SecretsFault::Memory),
    }
}

/// A file that others than its owner may read or write is refused.
fn refuse_open<S: Sources>(sources: &S, name: &str) -> Result<(), SecretsFault>
    ensures { IfErr result IsUnread }
{
    match sources.is_open_to_others(name) {
        Ok(false) => Ok(()),
        Ok(true) => Err(SecretsFault::OpenToOthers),
        Err(error) => Err(SecretsFault::Failed(failure_kind(&error))),
    }
}

/// The text of the file of that name.
fn text<S: Sources>(alloc: Global, sources: &S, name: &str) -> Result<Vec<u8>, SecretsFault>
    ensures text { IfOk result (λ v. (text : List ℕ) → S.file_text sources.now name.now ≡ Some text → v.items ≡ text) }
    ensures fault { IfErr result IsUnread }
{
    match beginning(alloc, sources, name, TEXT_LIMIT + 1) {
        Ok(Some(bytes)) => whole(bytes),
        Ok(None) => Err(SecretsFault::Failed(ErrorKind::NotFound)),
        Err(InputFault::Memory) => Err(SecretsFault::Memory),
        Err(InputFault::Failed(kind)) => Err(SecretsFault::Failed(kind)),
    }
}

/// The text that begins with these bytes, as many as were asked for, where they are all of it.
fn whole(bytes: Vec<u8>) -> Result<Vec<u8>, SecretsFault>
    ensures text { IfOk result (λ v. (text : List ℕ) → bytes.items ≡ take (TEXT_LIMIT + 1) text → v.items ≡ text) }
    ensures fault { IfErr result IsUnread }
{
    if bytes.len() > TEXT_LIMIT {
        Err(SecretsFault::Failed(ErrorKind::FileTooLarge))
    } else {
        Ok(bytes)
    }
}
