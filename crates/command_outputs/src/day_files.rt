//! What a day leaves, as it is written to files.

ghost use Rattle.std.specs.Prelude.{◌≡◌, ◌≤◌, ◌∷◌, [], ℕ, All, IfErr, IsOkAnd, IsTrue, OnOk, is_some, length, map, true};
ghost use Rattle.std.specs.Option.{option_copied};
ghost use Rattle.std.specs.String.{string_bytes};
ghost use Rattle.bottle_values.specs.declared.Value as bottle;
ghost use Rattle.serial_replay.specs.Serial.{ListsValues};
ghost use Rattle.session_language.specs.Limits.{most_sessions};
ghost use Rattle.session_programs.specs.Program.{fits};
ghost use Rattle.day_audits.specs.ends.DayEnds.{end_map, IsLeftText};
ghost use Rattle.day_audits.specs.ends.FileEnds.{IsLeftOfFile};
ghost use Rattle.host_files.specs.outputs.Written.{AddsFiles};
ghost use Rattle.command_outputs.specs.Days.{WritesDay, WritesEnd, WritesEndOf, WritesNextPlan, WritesText, is_day_named};
ghost use Rattle.command_outputs.specs.Fault.{IsWriteFault};

use crate::fault::Fault;
use crate::journal_files::{named, write_file};
use bottle_values::Value;
use day_audits::audit::recorded;
use day_audits::ends::{left_of, left_of_file, next_plan_of, next_plan_with};
use host_files::outputs::Targets;
use office_map::Plan;
use session_programs::Program;
use std::alloc::{AllocError, Global};
use std::io::ErrorKind;
use world_schedule::World;

/// The plan of the next day, which starts with these values, goes to the file of this name, where there is a name.
pub fn write_next_plan<T: Targets>(
    alloc: Global,
    targets: &mut T,
    name: Option<&str>,
    plan: &Plan,
    values: &[Value],
) -> Result<(), Fault>
    requires { length values.now ≡ length plan.now.records }
    ensures written { OnOk result ((m : ℕ → bottle.Value) → ListsValues values.now (length plan.now.records) m → WritesNextPlan (option_copied name.entry) plan.now m (T.written targets.old) (T.written targets.new)) }
    ensures fault { IfErr result IsWriteFault }
{
    match name {
        Some(name) => write_made(alloc, targets, name, next_plan_with(alloc, plan, values)),
        None => Ok(()),
    }
}

/// The plan of the day after a world's goes to the file of the first name, and then the sessions that are left in it to that of the
/// second, each where there is a name.
pub fn write_end<T: Targets>(
    alloc: Global,
    targets: &mut T,
    world: &World,
    next: Option<&str>,
    left: Option<&str>,
) -> Result<(), Fault>
    ensures written { OnOk result (WritesEnd (option_copied next.entry) (option_copied left.entry) world.now (T.written targets.old) (T.written targets.new)) }
    ensures fault { IfErr result IsWriteFault }
{
    write_plan(alloc, targets, world, next)?;
    write_left(alloc, targets, world, left)
}

/// The plan of the day after a world's goes to the file of the first name, and then the sessions of a file that haven't finished in it to
/// that of the second, each where there is a name.
pub fn write_end_of<T: Targets>(
    alloc: Global,
    targets: &mut T,
    world: &World,
    programs: &[Program],
    next: Option<&str>,
    left: Option<&str>,
) -> Result<(), Fault>
    requires fit { All (λ p. IsTrue (fits world.now.plan p)) programs.now }
    requires few { length programs.now ≤ most_sessions }
    ensures written { OnOk result (WritesEndOf programs.now (option_copied next.entry) (option_copied left.entry) world.now (T.written targets.old) (T.written targets.new)) }
    ensures fault { IfErr result IsWriteFault }
{
    write_plan(alloc, targets, world, next)?;
    write_left_of(alloc, targets, world, programs, left)
}

/// What the next day begins with goes to the files that are named for it, where one is: the plan of the day after that of the world whose
/// record the journals of these texts are, and the sessions of a file that haven't finished in it. Where they are the record of none, the
/// file can't be written.
pub fn write_day<T: Targets>(
    alloc: Global,
    targets: &mut T,
    plan: &Plan,
    programs: &[Program],
    journals: &[String],
    next: Option<&str>,
    left: Option<&str>,
) -> Result<(), Fault>
    requires fit { All (λ p. IsTrue (fits plan.now p)) programs.now }
    requires few { length programs.now ≤ most_sessions }
    ensures written { OnOk result (WritesDay (is_day_named (option_copied next.entry) (option_copied left.entry)) plan.now programs.now (map string_bytes journals.now)
        (option_copied next.entry) (option_copied left.entry) (T.written targets.old) (T.written targets.new)) }
    ensures fault { IfErr result IsWriteFault }
{
    match first_of(next, left) {
        Some(name) => write_recorded(alloc, targets, name, plan, programs, journals, next, left),
        None => Ok(()),
    }
}

/// The same where a file of this name is among those that are named.
fn write_recorded<T: Targets>(
    alloc: Global,
    targets: &mut T,
    name: &str,
    plan: &Plan,
    programs: &[Program],
    journals: &[String],
    next: Option<&str>,
    left: Option<&str>,
) -> Result<(), Fault>
    requires fit { All (λ p. IsTrue (fits plan.now p)) programs.now }
    requires few { length programs.now ≤ most_sessions }
    ensures written { OnOk result (WritesDay true plan.now programs.now (map string_bytes journals.now) (option_copied next.entry) (option_copied left.entry) (T.written targets.old) (T.written targets.new)) }
    ensures fault { IfErr result IsWriteFault }
{
    match recorded(alloc, plan, journals) {
        Ok(Some(world)) => write_end_of(alloc, targets, &world, programs, next, left),
        Ok(None) => Err(unwritten(alloc, name, ErrorKind::InvalidData)),
        Err(_) => Err(unwritten(alloc, name, ErrorKind::OutOfMemory)),
    }
}

/// The first of two names that is there.
fn first_of<'a>(next: Option<&'a str>, left: Option<&'a str>) -> Option<&'a str>
    ensures { is_some result ≡ is_day_named (option_copied next.entry) (option_copied left.entry) }
{
    match next {
        Some(name) => Some(name),
        None => left,
    }
}

/// That the file of this name wasn't written.
fn unwritten(alloc: Global, name: &str, kind: ErrorKind) -> Fault
    ensures { IsWriteFault result }
{
    match named(String::from_str(alloc, name)) {
        Ok(name) => Fault::FileFailed(name, kind),
        Err(fault) => fault,
    }
}

/// The sessions of a file that haven't finished in a world go to the file of this name, where there is a name.
fn write_left_of<T: Targets>(
    alloc: Global,
    targets: &mut T,
    world: &World,
    programs: &[Program],
    name: Option<&str>,
) -> Result<(), Fault>
    requires fit { All (λ p. IsTrue (fits world.now.plan p)) programs.now }
    requires few { length programs.now ≤ most_sessions }
    ensures written { OnOk result (WritesText (option_copied name.entry) (IsLeftOfFile world.now programs.now) (T.written targets.old) (T.written targets.new)) }
    ensures fault { IfErr result IsWriteFault }
{
    match name {
        Some(name) => write_made(alloc, targets, name, left_of_file(alloc, world, programs)),
        None => Ok(()),
    }
}

/// The plan of the day after a world's goes to the file of this name, where there is a name.
fn write_plan<T: Targets>(
    alloc: Global,
    targets: &mut T,
    world: &World,
    name: Option<&str>,
) -> Result<(), Fault>
    ensures written { OnOk result (WritesNextPlan (option_copied name.entry) world.now.plan (end_map world.now) (T.written targets.old) (T.written targets.new)) }
    ensures fault { IfErr result IsWriteFault }
{
    match name {
        Some(name) => write_made(alloc, targets, name, next_plan_of(alloc, world)),
        None => Ok(()),
    }
}

/// The sessions that are left in a world go to the file of this name, where there is a name.
fn write_left<T: Targets>(
    alloc: Global,
    targets: &mut T,
    world: &World,
    name: Option<&str>,
) -> Result<(), Fault>
    ensures written { OnOk result (WritesText (option_copied name.entry) (IsLeftText world.now) (T.written targets.old) (T.written targets.new)) }
    ensures fault { IfErr result IsWriteFault }
{
    match name {
        Some(name) => write_made(alloc, targets, name, left_of(alloc, world)),
        None => Ok(()),
    }
}

/// A text goes to the file of this name, where there was memory for it.
fn write_made<T: Targets>(
    alloc: Global,
    targets: &mut T,
    name: &str,
    text: Result<String, AllocError>,
) -> Result<(), Fault>
    ensures written { OnOk result (IsOkAnd text (λ t. AddsFiles (T.written targets.old) (T.written targets.new) ((name.now, string_bytes t) ∷ []))) }
    ensures fault { IfErr result IsWriteFault }
{
    let name = named(String::from_str(alloc, name))?;
    match text {
        Ok(text) => write_file(targets, name, &text),
        Err(_) => Err(Fault::FileFailed(name, ErrorKind::OutOfMemory)),
    }
}
