//! The command `sim`.

ghost use Rattle.std.specs.Prelude.{◌≡◌, ◌⊎◌, [], ◌∷◌, IfErr, IfOk, List, OnOk, ℕ};
ghost use Rattle.std.specs.Option.{option_copied};
ghost use Rattle.std.specs.Io.KnownBytes.{Appends};
ghost use Rattle.host_files.specs.inputs.Words.{StandFor};
ghost use Rattle.frame_world.specs.Worlds.{opening};
ghost use Rattle.simulation.specs.scripts.Runs.{run_of};
ghost use Rattle.simulation.specs.scripts.Script.{acts_with};
ghost use Rattle.simulation.specs.scripts.Transcript.{transcript, IsSerialRun};
ghost use Rattle.command_outputs.specs.Fault.{IsAmong, IsWriteFault};
ghost use Rattle.drink_commands.specs.Simulation.{LeavesFiles, Simulates};
ghost use Rattle.drink_commands.specs.Texts.{IsJudged};

use crate::commands::DONE;
use crate::scripts::read_events;
use command_outputs::Fault;
use command_outputs::day_files::write_end;
use command_outputs::journal_files::write_world;
use host_files::inputs::{Sources, StandardInput};
use host_files::outputs::Targets;
use office_map::Plan;
use serial_command::reading::{Input, read_coded_programs, read_plan};
use session_programs::Program;
use session_reports::form::Form;
use simulation::scripts::ScriptEvent;
use simulation::scripts::transcript::simulate;
use std::alloc::Global;
use std::io::Write;
use world_schedule::World;
use world_schedule::reports::TellingFault;

/// Runs a script on the world of a plan, and writes in that form a line for each event and then what the finished sessions did, how many
/// submitted ones haven't finished, and the values. Each input is read and judged before the next one is read, and nothing is
/// run or written before all are judged. A refused event is told in its line, and is no fault. The lines go out while it runs, in
/// parts; memory that runs out after one did is a fault of the writing. Where a folder is named for them, the
/// offices' journals are written then, each to its file, and then the plan of the next day and the sessions that are left, where files
/// are named for those. The answer is the exit status.
pub fn run<S: Sources, T: Targets, W: Write>(
    alloc: Global,
    form: Form,
    sources: &S,
    plan: &str,
    sessions: &str,
    script: &str,
    journals: Option<&str>,
    next: Option<&str>,
    left: Option<&str>,
    targets: &mut T,
    out: &mut W,
) -> Result<u8, Fault>
    ensures simulates { OnOk result ((plan_text sessions_text script_text : List ℕ)
        → StandFor (S.file_text sources.now) (S.standard_text sources.now) (plan.now ∷ sessions.now ∷ script.now ∷ [])
        (plan_text ∷ sessions_text ∷ script_text ∷ [])
        → Simulates form plan_text sessions_text script_text (option_copied journals.entry) (option_copied next.entry) (option_copied left.entry) (W.contents out.old) (W.contents out.new) (T.written targets.old) (T.written targets.new)) }
    ensures status { IfOk result (λ status. status ≡ 0) }

    ensures judged { IfErr result (IsJudged (S.file_text sources.now) (S.standard_text sources.now) (plan.now ∷ sessions.now ∷ script.now ∷ []) (Input.Plan ∷ Input.Sessions ∷ Input.Script ∷ [])) }
    ensures unwritten { IfErr result (λ f. IsWriteFault f ⊎ ((out.new ≡ out.old) × (targets.new ≡ targets.old))) }
{
    let words = [plan, sessions, script];
    let mut standard = StandardInput::new(alloc, sources.standard(), &words);
    let plan = read_plan(alloc, sources, &mut standard, plan)?;
    let programs = read_coded_programs(alloc, sources, &mut standard, sessions, &plan)?;
    let events = read_events(alloc, sources, &mut standard, script, &plan, &programs)?;
    tell(
        alloc, form, &plan, &programs, &events, journals, next, left, targets, out,
    )
}

/// What is told of a script's run is written as it runs, and then what the world that it leads to leaves in files. The answer is the
/// exit status.
fn tell<T: Targets, W: Write>(
    alloc: Global,
    form: Form,
    plan: &Plan,
    programs: &[Program],
    events: &[ScriptEvent],
    journals: Option<&str>,
    next: Option<&str>,
    left: Option<&str>,
    targets: &mut T,
    out: &mut W,
) -> Result<u8, Fault>
    ensures written { OnOk result (Appends (W.contents out.old) (W.contents out.new) (transcript form plan.now (acts_with programs.now events.now))) }
    ensures serial { OnOk result (IsSerialRun (run_of (opening plan.now) (acts_with programs.now events.now))) }
    ensures files { OnOk result (LeavesFiles (option_copied journals.entry) (option_copied next.entry) (option_copied left.entry) (run_of (opening plan.now) (acts_with programs.now events.now)) (T.written targets.old) (T.written targets.new)) }
    ensures status { IfOk result (λ status. status ≡ 0) }
    ensures fault { IfErr result (IsAmong []) }
    ensures unwritten { IfErr result (λ f. IsWriteFault f ⊎ ((out.new ≡ out.old) × (targets.new ≡ targets.old))) }
{
    match simulate(alloc, form, plan, programs, events, out) {
        Ok(world) => write_files(alloc, targets, journals, next, left, &world),
        Err(TellingFault::Memory) => Err(Fault::Memory),
        Err(TellingFault::WriteFailed(kind)) => Err(Fault::WriteFailed(kind)),
    }
}

/// The journals of a world are written, where a folder is named for them, and then the plan of the next day and the sessions that are
/// left, where files are named for those. The answer is the exit status.
fn write_files<T: Targets>(
    alloc: Global,
    targets: &mut T,
    journals: Option<&str>,
    next: Option<&str>,
    left: Option<&str>,
    world: &World,
) -> Result<u8, Fault>
    ensures files { OnOk result (LeavesFiles (option_copied journals.entry) (option_copied next.entry) (option_copied left.entry) world.now (T.written targets.old) (T.written targets.new)) }
    ensures status { IfOk result (λ status. status ≡ 0) }
    ensures fault { IfErr result IsWriteFault }
{
    write_world(alloc, targets, journals, world)?;
    write_end(alloc, targets, world, next, left)?;
    Ok(DONE)
}
