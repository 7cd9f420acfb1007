//! The run of sessions one after another, and its report.

ghost use Rattle.std.specs.Prelude.{◌≡◌, ◌≤◌, [], ◌∷◌, All, IfErr, IfOk, IsTrue, List, length, true, ℕ};
ghost use Rattle.std.specs.String.{string_bytes};
ghost use Rattle.host_files.specs.inputs.Words.{StandFor};
ghost use Rattle.session_language.specs.Limits.{most_sessions};
ghost use Rattle.session_programs.specs.Program.{fits};
ghost use Rattle.serial_command.specs.reading.Fault.{IsOneOf};
ghost use Rattle.serial_replay.specs.Serial.{ListsValues, map_of, start_map};
ghost use Rattle.serial_command.specs.Serial.{IsEndOf, serial_report};
ghost use Rattle.serial_command.specs.Texts.{HaveAcceptedTexts, IsJudged};

use crate::inputs::{Inputs, read_inputs};
use crate::reading::{Input, TextFault};
use bottle_values::Value;
use host_files::inputs::Sources;
use office_map::Plan;
use serial_replay::replay;
use serial_replay::replay::Replay;
use session_reports::form::Form;
use session_reports::form::report::report;
use std::alloc::{AllocError, Global};

/// The end of a serial run.
#[derive(Drop)]
pub struct Ended {
    pub plan: Plan,
    /// What is told of it: what each session did, and the values.
    pub text: String,
    /// The value of each record, in order of number.
    pub values: Vec<Value>,
}

/// Runs the sessions alone, one after another, and answers the text that tells in that form what each did and the values that they leave,
/// and those.
/// The plan is read and judged before the sessions are read.
pub fn run<S: Sources>(
    alloc: Global,
    form: Form,
    sources: &S,
    plan: &str,
    sessions: &str,
) -> Result<Ended, TextFault>
    ensures report { IfOk result (λ it. (plan_text sessions_text : List ℕ)
        → StandFor (S.file_text sources.now) (S.standard_text sources.now) (plan.now ∷ sessions.now ∷ []) (plan_text ∷ sessions_text ∷ [])
        → IsEndOf form plan_text sessions_text it.plan it.values.items (string_bytes it.text)) }
    ensures size { IfOk result (λ it. length it.values.items ≡ length it.plan.records) }
    ensures accepted { IfOk result (λ _. HaveAcceptedTexts (S.file_text sources.now) (S.standard_text sources.now) (plan.now ∷ sessions.now ∷ []) (Input.Plan ∷ Input.Sessions ∷ [])) }
    ensures judged { IfErr result (IsJudged (S.file_text sources.now) (S.standard_text sources.now) (plan.now ∷ sessions.now ∷ []) (Input.Plan ∷ Input.Sessions ∷ [])) }
    ensures input { IfErr result (IsOneOf (Input.Plan ∷ Input.Sessions ∷ [])) }
{
    let found = read_inputs(alloc, sources, plan, sessions)?;
    let ended = end_of(alloc, form, found)?;
    Ok(ended)
}

/// The end of the serial run of sessions that fit a plan.
fn end_of(alloc: Global, form: Form, found: Inputs) -> Result<Ended, AllocError>
    requires fit { All (λ p. IsTrue (fits found.plan p)) found.programs.items }
    requires few { length found.programs.items ≤ most_sessions }
    ensures plan { IfOk result (λ it. it.plan ≡ found.plan) }
    ensures report { IfOk result (λ it. string_bytes it.text ≡ serial_report form found.plan found.programs.items) }
    ensures values { IfOk result (λ it. ListsValues it.values.items (length found.plan.records) (map_of (start_map found.plan) found.programs.items)) }
{
    let Inputs { plan, programs } = found;
    let replay = replay::serial(alloc, &plan, &programs)?;
    // The report may be longer than the programs, whose memory it can take.
    drop(programs);
    let text = report(alloc, form, &plan, &replay.outcomes, &replay.values)?;
    let Replay { outcomes, values } = replay;
    drop(outcomes);
    Ok(Ended { plan, text, values })
}
