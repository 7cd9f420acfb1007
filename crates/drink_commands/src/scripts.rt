//! The script that an input means, as its text is read and judged.

ghost use Rattle.std.specs.Prelude.{◌≡◌, IfErr, IfOk, List, Some, ℕ};
ghost use Rattle.host_files.specs.inputs.Words.{HasText, Unread};
ghost use Rattle.simulation.specs.scripts.Script.{IsScript, acts_with};
ghost use Rattle.command_outputs.specs.Fault.{IsFaultAt};
ghost use Rattle.drink_commands.specs.Texts.{Refuses, nothing};

use crate::limits::limit;
use command_outputs::Fault;
use command_outputs::fault::Why;
use diagnostics::{ScriptLimits, of_script};
use host_files::inputs::{Sources, StandardInput};
use office_map::Plan;
use serial_command::reading::{Input, at_line, lines_above, text};
use session_programs::Program;
use simulation::scripts::{
    MAX_BYTES, MAX_RULES, MAX_STEPS, ScriptEvent, ScriptFault, ScriptRefusal, script,
};
use site_core::LONGEST_PIECE;
use std::alloc::{AllocError, Global};

// No limit but that of 16 MiB follows from a script's form. Lines and numbers of lines then fit with room to spare, and
// reading holds the text and an event of a few words for each line.
const SCRIPT_LIMITS: ScriptLimits = ScriptLimits {
    bytes: MAX_BYTES,
    rules: MAX_RULES,
    steps: MAX_STEPS,
    instructions: LONGEST_PIECE,
};

/// The events of the script that an input means under a plan, where these are the programs of the file of sessions.
pub fn read_events<S: Sources>(
    alloc: Global,
    sources: &S,
    standard: &mut StandardInput<S::Standard>,
    word: &str,
    plan: &Plan,
    programs: &[Program],
) -> Result<Vec<ScriptEvent>, Fault>
    ensures meaning { IfOk result (λ v. (text : List ℕ) (after : Unread) → HasText (S.file_text sources.now) standard.old word.now text after
        → IsScript plan.now programs.now text (acts_with programs.now v.items) × (standard.new ≡ after)) }
    ensures fault { IfErr result (IsFaultAt Input.Script (λ why. (text : List ℕ) (after : Unread)
        → HasText (S.file_text sources.now) standard.old word.now text after
        → Refuses (record nothing { plan = Some plan.now; programs = Some programs.now }) text why)) }
{
    let most = limit(Input::Script);
    let text = text(alloc, sources, standard, word, Input::Script, most)?;
    match script::events(alloc, &text, plan, programs) {
        Ok(events) => Ok(events),
        Err(ScriptFault::Refused(refusal)) => {
            let above = lines_above(standard, word);
            let said = sentence(alloc, &text, plan, programs.len(), above, refusal)?;
            Err(Fault::Refused(Why::Script(refusal), said))
        }
        Err(ScriptFault::Memory) => Err(Fault::Memory),
    }
}

/// What people are told of a refused script, of so many programs, below so many lines of the standard input.
fn sentence(
    alloc: Global,
    text: &[u8],
    plan: &Plan,
    programs: usize,
    lines_above: u64,
    refusal: ScriptRefusal,
) -> Result<String, AllocError> {
    let line = refusal.line;
    let place = at_line(alloc, line, lines_above)?;
    let found = of_script(alloc, text, plan, programs, SCRIPT_LIMITS, line)?;
    format!(in alloc; "{place}X1 Script: {found}")
}
