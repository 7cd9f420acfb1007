//! The journals of offices, as they are written to files.

ghost use Rattle.std.specs.Prelude.{◌≡◌, ◌<◌, ◌≤◌, ◌∷◌, [], get_or, length, map, IfErr, IfOk, Ok, OnOk};
ghost use Rattle.std.specs.Option.{option_copied};
ghost use Rattle.std.specs.String.{string_bytes};
ghost use Rattle.host_files.specs.outputs.Written.{AddsFiles, KeepsFiles};
ghost use Rattle.command_outputs.specs.Fault.{IsWriteFault};
ghost use Rattle.command_outputs.specs.Journals.{WritesFiles, file_name, files_of, files_of_world, text_at};

use crate::fault::Fault;
use host_files::inputs::failure_kind;
use host_files::outputs::Targets;
use journal_texts::text;
use journal_texts::wording::words::office_name;
use office_map::{OfficeId, Plan};
use std::alloc::{AllocError, Global};
use std::io::ErrorKind;
use world_schedule::World;

/// The journal of each office of a world goes to a file of its own, where a folder is named for them.
pub fn write_world<T: Targets>(
    alloc: Global,
    targets: &mut T,
    folder: Option<&str>,
    world: &World,
) -> Result<(), Fault>
    ensures written { OnOk result (WritesFiles (option_copied folder.entry) (λ place. files_of_world place world.now) (T.written targets.old) (T.written targets.new)) }
    ensures fault { IfErr result IsWriteFault }
{
    let Some(folder) = folder else {
        return Ok(());
    };
    make_folder(alloc, targets, folder)?;
    for a in 0..world.plan().offices() {
        write_office(alloc, targets, folder, world, OfficeId::new(a as u8))?;
    }
    Ok(())
}

/// The journal of an office of a world goes to its file.
fn write_office<T: Targets>(
    alloc: Global,
    targets: &mut T,
    folder: &str,
    world: &World,
    office: OfficeId,
) -> Result<(), Fault>
    requires { office < length world.now.plan.offices }
    ensures written { OnOk result (AddsFiles (T.written targets.old) (T.written targets.new) ((file_name folder.now world.now.plan office, text_at world.now office) ∷ [])) }
    ensures fault { IfErr result IsWriteFault }
{
    let name = named(file_name(alloc, folder, world.plan(), office))?;
    let office = world.office(office);
    match text(alloc, office.journal(), office.plan(), office.number()) {
        Ok(text) => write_file(targets, name, &text),
        Err(_) => Err(Fault::FileFailed(name, ErrorKind::OutOfMemory)),
    }
}

/// These texts of the journals of a plan's offices, in order of number, go to a file each, where a folder is named for them.
pub fn write_texts<T: Targets>(
    alloc: Global,
    targets: &mut T,
    folder: Option<&str>,
    plan: &Plan,
    texts: &[String],
) -> Result<(), Fault>
    requires { length texts.now ≤ length plan.now.offices }
    ensures written { OnOk result (WritesFiles (option_copied folder.entry) (λ place. files_of place plan.now (λ a. get_or (map string_bytes texts.now) a []) (length texts.now)) (T.written targets.old) (T.written targets.new)) }
    ensures fault { IfErr result IsWriteFault }
{
    let Some(folder) = folder else {
        return Ok(());
    };
    // The plan is consistent, and its offices are few.
    let _ = plan.offices();
    make_folder(alloc, targets, folder)?;
    for a in 0..texts.len() {
        write_one(
            alloc,
            targets,
            folder,
            plan,
            OfficeId::new(a as u8),
            &texts[a],
        )?;
    }
    Ok(())
}

/// A text goes to the file of an office.
fn write_one<T: Targets>(
    alloc: Global,
    targets: &mut T,
    folder: &str,
    plan: &Plan,
    office: OfficeId,
    text: &str,
) -> Result<(), Fault>
    ensures written { OnOk result (AddsFiles (T.written targets.old) (T.written targets.new) ((file_name folder.now plan.now office, text.now) ∷ [])) }
    ensures fault { IfErr result IsWriteFault }
{
    let name = named(file_name(alloc, folder, plan, office))?;
    write_file(targets, name, text)
}

/// Each of these texts goes to the file of this name, where there is a name.
pub fn write_each<T: Targets>(
    alloc: Global,
    targets: &mut T,
    name: Option<&str>,
    texts: &[String],
) -> Result<(), Fault>
    ensures written { OnOk result (WritesFiles (option_copied name.entry) (λ place. map (λ text. (place, string_bytes text)) texts.now) (T.written targets.old) (T.written targets.new)) }
    ensures fault { IfErr result IsWriteFault }
{
    let Some(name) = name else {
        return Ok(());
    };
    for text in texts {
        write_file(targets, named(String::from_str(alloc, name))?, text)?;
    }
    Ok(())
}

fn make_folder<T: Targets>(alloc: Global, targets: &mut T, folder: &str) -> Result<(), Fault>
    ensures kept { KeepsFiles (T.written targets.old) (T.written targets.new) }
    ensures fault { IfErr result IsWriteFault }
{
    match targets.make_folder(folder) {
        Ok(()) => Ok(()),
        Err(error) => {
            let kind = failure_kind(&error);
            let name = named(String::from_str(alloc, folder))?;
            Err(Fault::FileFailed(name, kind))
        }
    }
}

/// A file of this name gets this text.
pub(crate) fn write_file<T: Targets>(targets: &mut T, name: String, text: &str) -> Result<(), Fault>
    ensures written { OnOk result (AddsFiles (T.written targets.old) (T.written targets.new) ((string_bytes name, text.now) ∷ [])) }
    ensures fault { IfErr result IsWriteFault }
{
    match targets.write_file(&name, text.as_bytes()) {
        Ok(()) => Ok(()),
        Err(error) => Err(Fault::FileFailed(name, failure_kind(&error))),
    }
}

/// FOLDER/NAME.journal
pub(crate) fn file_name(
    alloc: Global,
    folder: &str,
    plan: &Plan,
    office: OfficeId,
) -> Result<String, AllocError>
    ensures { IfOk result (λ name. string_bytes name ≡ file_name folder.now plan.now office) }
{
    let mut name = String::from_str(alloc, folder)?;
    name.push_str("/")?;
    name.push_str(office_name(plan, office))?;
    name.push_str(".journal")?;
    Ok(name)
}

/// A file's name; or that there was no memory for it.
pub(crate) fn named(name: Result<String, AllocError>) -> Result<String, Fault>
    ensures name { IfOk result (λ n. name ≡ Ok n) }
    ensures fault { IfErr result IsWriteFault }
{
    match name {
        Ok(name) => Ok(name),
        Err(_) => Err(Fault::WriteFailed(ErrorKind::OutOfMemory)),
    }
}
