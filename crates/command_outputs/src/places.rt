//! Where the journals of a run go, which is looked at before it begins.

ghost use Rattle.std.specs.Prelude.{◌≡◌, ◌⊎◌, ◌<◌, Some, None, IfErr, IfNone, IfOk, IfSome, List, ℕ, length, false, true, if◌then◌else◌};
ghost use Rattle.std.specs.Option.{option_copied};
ghost use Rattle.std.specs.Str.{bytes_eq};
ghost use Rattle.command_outputs.specs.Fault.{IsPlaceFault};
ghost use Rattle.command_outputs.specs.Journals.{file_name};
ghost use Rattle.command_outputs.specs.Places.{AreFree, HasTextOf, IsAnInput, IsFailed, IsFree, IsIn, IsObstacle, IsOther, IsUnheld};
ghost use Rattle.command_outputs.specs.declared.fault.Obstacle.TheVariants as obstacles;

use crate::fault::{Fault, Obstacle};
use crate::journal_files::file_name;
use host_files::inputs::{InputFault, Sources, beginning, failure_kind};
use host_files::outputs::Targets;
use journal_texts::add_header;
use office_map::{OfficeId, Plan};
use std::alloc::{AllocError, Global};

/// Where a file is named for the journal of this office, it may take that.
pub fn look_at_file<S: Sources, T: Targets>(
    alloc: Global,
    sources: &S,
    targets: &T,
    one: &str,
    other: &str,
    plan: &Plan,
    office: OfficeId,
    file: Option<&str>,
) -> Result<(), Fault>
    ensures free { IfOk result (λ _. IfSome (option_copied file.entry) (IsFree (S.file_text sources.now) one.now other.now plan.now office)) }
    ensures fault { IfErr result (IsPlaceFault (λ name why. (option_copied file.entry ≡ Some name) × IsObstacle (S.file_text sources.now) one.now other.now plan.now why office name)) }
{
    let Some(name) = file else {
        return Ok(());
    };
    look_at(
        alloc, sources, targets, one, other, plan, office, name, true,
    )
}

/// Where a folder is named for the journals of a plan's offices, it may take them.
pub fn look_at_folder<S: Sources, T: Targets>(
    alloc: Global,
    sources: &S,
    targets: &T,
    one: &str,
    other: &str,
    plan: &Plan,
    folder: Option<&str>,
) -> Result<(), Fault>
    ensures free { IfOk result (λ _. IfSome (option_copied folder.entry) (AreFree (S.file_text sources.now) one.now other.now plan.now (length plan.now.offices))) }
    ensures fault { IfErr result (IsPlaceFault (λ name why. IfSome (option_copied folder.entry) (λ place. IsIn (S.file_text sources.now) one.now other.now plan.now place name why))) }
{
    let Some(folder) = folder else {
        return Ok(());
    };
    let is_there = has_folder(alloc, targets, folder)?;
    for a in 0..plan.offices() {
        let office = OfficeId::new(a as u8);
        look_at_one(
            alloc, sources, targets, one, other, plan, office, folder, is_there,
        )?;
    }
    Ok(())
}

/// The file of an office in a folder may take its journal.
fn look_at_one<S: Sources, T: Targets>(
    alloc: Global,
    sources: &S,
    targets: &T,
    one: &str,
    other: &str,
    plan: &Plan,
    office: OfficeId,
    folder: &str,
    is_there: bool,
) -> Result<(), Fault>
    ensures free { IfOk result (λ _. IsFree (S.file_text sources.now) one.now other.now plan.now office (file_name folder.now plan.now office)) }
    ensures fault { IfErr result (IsPlaceFault (λ name why. (name ≡ file_name folder.now plan.now office) × IsObstacle (S.file_text sources.now) one.now other.now plan.now why office name)) }
{
    let name = file_name(alloc, folder, plan, office)?;
    look_at(
        alloc, sources, targets, one, other, plan, office, &name, is_there,
    )
}

/// The file of this name is no input, could be written, if its folder is there, and has no journal of this office and run.
fn look_at<S: Sources, T: Targets>(
    alloc: Global,
    sources: &S,
    targets: &T,
    one: &str,
    other: &str,
    plan: &Plan,
    office: OfficeId,
    name: &str,
    has_folder: bool,
) -> Result<(), Fault>
    ensures free { IfOk result (λ _. IsFree (S.file_text sources.now) one.now other.now plan.now office name.now) }
    ensures fault { IfErr result (IsPlaceFault (λ said why. (said ≡ name.now) × IsObstacle (S.file_text sources.now) one.now other.now plan.now why office name.now)) }
{
    if is_input(sources, one, other, name) {
        return Err(no_place(alloc, name, Obstacle::AnInput));
    }
    if has_folder {
        try_file(alloc, targets, name)?;
    }
    match held(alloc, sources, plan, office, name)? {
        Some(why) => Err(no_place(alloc, name, why)),
        None => Ok(()),
    }
}

/// The file of this name is no input.
pub fn refuse_input<S: Sources>(
    alloc: Global,
    sources: &S,
    one: &str,
    other: &str,
    name: &str,
) -> Result<(), Fault>
    ensures no_plan { IfOk result (λ _. IsOther one.now name.now) }
    ensures no_sessions { IfOk result (λ _. IsOther other.now name.now) }
    ensures fault { IfErr result (IsPlaceFault (IsAnInput (S.file_text sources.now) one.now other.now name.now)) }
{
    if is_input(sources, one, other, name) {
        return Err(no_place(alloc, name, Obstacle::AnInput));
    }
    Ok(())
}

/// Whether an input is read from the file of this name.
///
/// The system is asked: it knows a file by all its names, and the one that is the standard input. The promise speaks of
/// words and of texts alone.
fn is_input<S: Sources>(sources: &S, one: &str, other: &str, name: &str) -> bool
    ensures no_plan { result ≡ false → IsOther one.now name.now }
    ensures no_sessions { result ≡ false → IsOther other.now name.now }
    ensures text { result ≡ true → HasTextOf (S.file_text sources.now) one.now name.now ⊎ HasTextOf (S.file_text sources.now) other.now name.now }
{
    if sources.is_read_from(one, name) {
        return true;
    }
    sources.is_read_from(other, name)
}

/// Why the file of this name can't take a journal of this office and run, as far as what it has shows.
fn held<S: Sources>(
    alloc: Global,
    sources: &S,
    plan: &Plan,
    office: OfficeId,
    name: &str,
) -> Result<Option<Obstacle>, AllocError>
    ensures free { IfOk result (λ found. IfNone found (IsUnheld (S.file_text sources.now) plan.now office name.now)) }
    ensures found { IfOk result (λ found. IfSome found (λ why. (a b : List ℕ) → IsObstacle (S.file_text sources.now) a b plan.now why office name.now)) }
{
    let mut header = String::new(alloc);
    add_header(&mut header, plan, office)?;
    match beginning(alloc, sources, name, header.len()) {
        Ok(Some(bytes)) => Ok(journal_in(&bytes, header.as_bytes())),
        Ok(None) => Ok(None),
        Err(InputFault::Failed(kind)) => Ok(Some(Obstacle::Unread(kind))),
        Err(InputFault::Memory) => Err(AllocError),
    }
}

/// That there is a journal, where the first bytes of a file are its header.
///
/// By its first line, to the byte as this program writes it: so a text that was torn later is known too, and no more of
/// a file is read than that line is long. Who writes a journal by hand in another spelling is believed to know.
fn journal_in(bytes: &[u8], header: &[u8]) -> Option<Obstacle>
    ensures { result ≡ (if bytes_eq bytes.now header.now then Some obstacles.AJournal else None) }
{
    if bytes == header {
        Some(Obstacle::AJournal)
    } else {
        None
    }
}

/// The file of this name could be written.
fn try_file<T: Targets>(alloc: Global, targets: &T, name: &str) -> Result<(), Fault>
    ensures { IfErr result (IsPlaceFault (λ said why. (said ≡ name.now) × IsFailed why)) }
{
    match targets.try_file(name) {
        Ok(()) => Ok(()),
        Err(error) => Err(no_place(alloc, name, Obstacle::Failed(failure_kind(&error)))),
    }
}

/// Whether the folder of this name is there, where it is or could be made.
fn has_folder<T: Targets>(alloc: Global, targets: &T, name: &str) -> Result<bool, Fault>
    ensures { IfErr result (IsPlaceFault (λ said why. (said ≡ name.now) × IsFailed why)) }
{
    match targets.has_folder(name) {
        Ok(is_there) => Ok(is_there),
        Err(error) => Err(no_place(alloc, name, Obstacle::Failed(failure_kind(&error)))),
    }
}

/// That the file or folder of this name can't take journals, and why.
fn no_place(alloc: Global, name: &str, why: Obstacle) -> Fault
    ensures { IsPlaceFault (λ said found. (said ≡ name.now) × (found ≡ why)) result }
{
    match String::from_str(alloc, name) {
        Ok(name) => Fault::NoPlace(name, why),
        Err(_) => Fault::Memory,
    }
}
