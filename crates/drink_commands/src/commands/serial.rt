//! The command `serial`.

ghost use Rattle.std.specs.Prelude.{◌≡◌, ◌⊎◌, [], ◌∷◌, IfErr, IfOk, List, OnOk, ℕ};
ghost use Rattle.std.specs.Option.{option_copied};
ghost use Rattle.host_files.specs.inputs.Words.{StandFor};
ghost use Rattle.command_outputs.specs.Fault.{IsAmong, IsWriteFault};
ghost use Rattle.drink_commands.specs.Texts.{IsJudged};
ghost use Rattle.drink_commands.specs.Serial.{ReportsDay};

use crate::commands::DONE;
use command_outputs::Fault;
use command_outputs::day_files::write_next_plan;
use command_outputs::output::write_whole;
use host_files::inputs::Sources;
use host_files::outputs::Targets;
use serial_command::reading::Input;
use session_reports::form::Form;
use std::alloc::Global;
use std::io::Write;

/// Runs the sessions alone, one after another, and writes in that form what each did and the values that they leave. The plan is read
/// and judged before the sessions are read, and nothing is written before both are judged. Where a file is named for the plan of the
/// next day, that is written to it then. The answer is the exit status.
pub fn run<S: Sources, T: Targets, W: Write>(
    alloc: Global,
    form: Form,
    sources: &S,
    plan: &str,
    sessions: &str,
    next: Option<&str>,
    targets: &mut T,
    out: &mut W,
) -> Result<u8, Fault>
    ensures reports { OnOk result ((plan_text sessions_text : List ℕ)
        → StandFor (S.file_text sources.now) (S.standard_text sources.now) (plan.now ∷ sessions.now ∷ []) (plan_text ∷ sessions_text ∷ [])
        → ReportsDay form plan_text sessions_text (option_copied next.entry) (W.contents out.old) (W.contents out.new) (T.written targets.old) (T.written targets.new)) }
    ensures status { IfOk result (λ status. status ≡ 0) }

    ensures judged { IfErr result (IsJudged (S.file_text sources.now) (S.standard_text sources.now) (plan.now ∷ sessions.now ∷ []) (Input.Plan ∷ Input.Sessions ∷ [])) }
    ensures input { IfErr result (IsAmong (Input.Plan ∷ Input.Sessions ∷ [])) }
    ensures unwritten { IfErr result (λ f. IsWriteFault f ⊎ ((out.new ≡ out.old) × (targets.new ≡ targets.old))) }
{
    let ended = serial_command::serial::run(alloc, form, sources, plan, sessions)?;
    write_whole(out, &ended.text)?;
    write_next_plan(alloc, targets, next, &ended.plan, &ended.values)?;
    Ok(DONE)
}
