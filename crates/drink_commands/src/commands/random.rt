//! The command `random`.

ghost use Rattle.std.specs.Prelude.{◌≡◌, ◌⊎◌, [], ◌∷◌, IfErr, IfOk, List, OnOk, ℕ};
ghost use Rattle.std.specs.Option.{option_copied};
ghost use Rattle.host_files.specs.inputs.Words.{StandFor};
ghost use Rattle.command_outputs.specs.Fault.{IsWriteFault};
ghost use Rattle.drink_commands.specs.Random.{TellsRun};
ghost use Rattle.drink_commands.specs.Texts.{IsJudged};

use crate::commands::DONE;
use command_outputs::Fault;
use command_outputs::day_files::write_end_of;
use command_outputs::output::write_whole;
use host_files::inputs::{Sources, StandardInput};
use host_files::outputs::Targets;
use serial_command::reading::{Input, read_coded_programs, read_plan};
use session_reports::form::Form;
use simulation::random::Schedule;
use simulation::random::run::report;
use std::alloc::Global;
use std::io::Write;

/// Runs the sessions on the world of a plan, as it is drawn, and writes in that form what the finished sessions did, how many of the file's
/// haven't finished, and the values. Each input is read and judged before the next one is read, and nothing is run or written
/// before both are judged. The plan of the next day and the sessions that haven't finished are written then, where files are named for
/// them. The answer is the exit status.
pub fn run<S: Sources, T: Targets, W: Write>(
    alloc: Global,
    form: Form,
    sources: &S,
    plan: &str,
    sessions: &str,
    schedule: Schedule,
    next: Option<&str>,
    left: Option<&str>,
    targets: &mut T,
    out: &mut W,
) -> Result<u8, Fault>
    ensures tells { OnOk result ((plan_text sessions_text : List ℕ)
        → StandFor (S.file_text sources.now) (S.standard_text sources.now) (plan.now ∷ sessions.now ∷ []) (plan_text ∷ sessions_text ∷ [])
        → TellsRun form plan_text sessions_text schedule.loss schedule.steps (option_copied next.entry) (option_copied left.entry) (W.contents out.old) (W.contents out.new) (T.written targets.old) (T.written targets.new)) }
    ensures status { IfOk result (λ status. status ≡ 0) }

    ensures judged { IfErr result (IsJudged (S.file_text sources.now) (S.standard_text sources.now) (plan.now ∷ sessions.now ∷ []) (Input.Plan ∷ Input.Sessions ∷ [])) }
    ensures unwritten { IfErr result (λ f. IsWriteFault f ⊎ ((out.new ≡ out.old) × (targets.new ≡ targets.old))) }
{
    let words = [plan, sessions];
    let mut standard = StandardInput::new(alloc, sources.standard(), &words);
    let plan = read_plan(alloc, sources, &mut standard, plan)?;
    let programs = read_coded_programs(alloc, sources, &mut standard, sessions, &plan)?;
    let told = report(alloc, form, &plan, &programs, schedule)?;
    write_whole(out, &told.text)?;
    write_end_of(alloc, targets, &told.world, &programs, next, left)?;
    Ok(DONE)
}
