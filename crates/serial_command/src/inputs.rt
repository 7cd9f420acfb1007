//! A plan, and sessions under it.

ghost use Rattle.std.specs.Prelude.{◌≡◌, ◌≤◌, ◌∷◌, [], All, IfErr, IfOk, IsTrue, List, Ok, length, true, ℕ};
ghost use Rattle.host_files.specs.inputs.Words.{StandFor};
ghost use Rattle.session_language.specs.Limits.{most_sessions};
ghost use Rattle.session_programs.specs.Program.{fits};
ghost use Rattle.session_language.specs.Reading.{sessions_of};
ghost use Rattle.serial_command.specs.reading.Fault.{IsOneOf};
ghost use Rattle.serial_command.specs.reading.Plans.{IsAcceptedAs};
ghost use Rattle.serial_command.specs.Texts.{HaveAcceptedTexts, IsJudged};

use crate::reading::{Input, TextFault, read_plan, read_programs};
use host_files::inputs::{Sources, StandardInput};
use office_map::Plan;
use session_programs::Program;
use std::alloc::Global;

/// What two words of a command line stand for.
#[derive(Drop)]
pub struct Inputs {
    pub plan: Plan,
    /// The sessions' programs, which fit the plan.
    pub programs: Vec<Program>,
}

/// The plan and the sessions under it that two words stand for. The plan is judged before the sessions are read.
pub fn read_inputs<S: Sources>(
    alloc: Global,
    sources: &S,
    plan: &str,
    sessions: &str,
) -> Result<Inputs, TextFault>
    ensures meaning { IfOk result (λ i. (plan_text sessions_text : List ℕ)
        → StandFor (S.file_text sources.now) (S.standard_text sources.now) (plan.now ∷ sessions.now ∷ []) (plan_text ∷ sessions_text ∷ [])
        → IsAcceptedAs plan_text i.plan × (sessions_of i.plan sessions_text ≡ Ok i.programs.items)) }
    ensures fit { IfOk result (λ i. All (λ p. IsTrue (fits i.plan p)) i.programs.items) }
    ensures few { IfOk result (λ i. length i.programs.items ≤ most_sessions) }
    ensures accepted { IfOk result (λ _. HaveAcceptedTexts (S.file_text sources.now) (S.standard_text sources.now) (plan.now ∷ sessions.now ∷ []) (Input.Plan ∷ Input.Sessions ∷ [])) }
    ensures judged { IfErr result (IsJudged (S.file_text sources.now) (S.standard_text sources.now) (plan.now ∷ sessions.now ∷ []) (Input.Plan ∷ Input.Sessions ∷ [])) }
    ensures input { IfErr result (IsOneOf (Input.Plan ∷ Input.Sessions ∷ [])) }
{
    let words = [plan, sessions];
    let mut standard = StandardInput::new(alloc, sources.standard(), &words);
    let plan = read_plan(alloc, sources, &mut standard, plan)?;
    let programs = read_programs(alloc, sources, &mut standard, sessions, &plan)?;
    Ok(Inputs { plan, programs })
}
