//! The secrets of an office that runs.

ghost use Rattle.std.specs.Prelude.{◌≡◌, ◌<◌, IfErr, IfOk, IfSome, length, option_map};
ghost use Rattle.std.specs.Option.{option_copied};
ghost use Rattle.drink_commands.specs.Sealed.{AreSecrets, IsSecretsFault};
ghost use Rattle.command_outputs.specs.secrets.Files.{RefusesSecrets};

use command_outputs::Fault;
use command_outputs::secrets::read_secrets;
use datagram_seals::frames::Secret;
use host_files::inputs::Sources;
use office_map::{OfficeId, Plan};
use std::alloc::Global;

/// What an office shares with each office of the plan, where a file is named for it.
pub(crate) fn secrets_in<S: Sources>(
    alloc: Global,
    sources: &S,
    file: Option<&str>,
    plan: &Plan,
    me: OfficeId,
) -> Result<Option<Vec<Option<Secret>>>, Fault>
    requires { me < length plan.now.offices }
    ensures are { IfOk result (λ secrets. AreSecrets (S.file_text sources.now) plan.now me (option_copied file.entry) (option_map (λ v. v.items) secrets)) }
    ensures fault { IfErr result (IsSecretsFault (λ why. IfSome (option_copied file.entry) (λ name. RefusesSecrets (S.file_text sources.now name) plan.now me why))) }
{
    let Some(name) = file else {
        return Ok(None);
    };
    match read_secrets(alloc, sources, name, plan, me) {
        Ok(secrets) => Ok(Some(secrets)),
        Err(fault) => Err(Fault::NoSecrets(fault)),
    }
}

/// The same, lent.
pub(crate) fn lent(secrets: &Option<Vec<Option<Secret>>>) -> Option<&[Option<Secret>]>
    ensures { option_copied result ≡ option_map (λ v. v.items) secrets.now }
{
    match secrets {
        Some(secrets) => Some(secrets.as_slice()),
        None => None,
    }
}
