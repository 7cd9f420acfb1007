//! The texts of the inputs, read and judged.

ghost use Rattle.std.specs.Prelude.{◌≡◌, ◌<◌, ◌≤◌, ◌^◌, All, Err, IfErr, IfOk, IsTrue, List, None, Ok, Some, length, true, ℕ};
ghost use Rattle.host_files.specs.inputs.Words.{HasText, Unread};
ghost use Rattle.office_map.specs.PlanText.{plan_of, HasRing};
ghost use Rattle.session_language.specs.Limits.{most_sessions};
ghost use Rattle.session_programs.specs.Program.{fits};
ghost use Rattle.session_language.specs.Reading.{sessions_of};
ghost use Rattle.serial_command.specs.reading.Fault.{IsAtInput};
ghost use Rattle.serial_command.specs.reading.Plans.{IsAcceptedAs};
ghost use Rattle.serial_command.specs.reading.Texts.{RefusesText, WasRead};

use crate::reading::fault::TextFault;
use crate::reading::input::Input;
use diagnostics::sessions::of_sessions;
use diagnostics::{of_plan, of_ring};
use host_files::inputs::{InputFault, Sources, StandardInput};
use office_map::{Plan, PlanFault, PlanRefusal, RING_RULE, Ring};
use session_language::{LangFault, SessionRefusal, read_sessions};
use session_programs::{Program, with_codes};
use std::alloc::{AllocError, Global};
use std::io::Read;

/// The text of an input, or where it is longer than the limit, what is longer too.
pub fn text<S: Sources>(
    alloc: Global,
    sources: &S,
    standard: &mut StandardInput<S::Standard>,
    word: &str,
    input: Input,
    limit: usize,
) -> Result<Vec<u8>, TextFault>
    requires { limit < 2 ^ 32 }
    ensures text { IfOk result (λ v. WasRead (S.file_text sources.now) standard.old word.now standard.new limit v.items) }
    ensures fault { IfErr result (IsAtInput input (λ _. ⊥)) }
{
    match host_files::inputs::text(alloc, sources, standard, word, limit) {
        Ok(text) => Ok(text),
        Err(InputFault::Memory) => Err(TextFault::Memory),
        Err(InputFault::Failed(kind)) => Err(TextFault::ReadFailed(input, kind)),
    }
}

/// How many lines of the standard input stand above the text of this word, which was read last.
pub fn lines_above<R: Read + Drop>(standard: &StandardInput<R>, word: &str) -> u64 {
    if word == "-" {
        standard.lines_above()
    } else {
        0
    }
}

/// Which line is refused, where one is (not 0): in its text, and in the standard input where that begins further up.
pub fn at_line(alloc: Global, line: u64, lines_above: u64) -> Result<String, AllocError> {
    if line == 0 {
        return Ok(String::new(alloc));
    }
    if lines_above == 0 {
        return format!(in alloc; "line {line}: ");
    }
    let whole = line.saturating_add(lines_above);
    format!(in alloc; "line {line} (line {whole} of the standard input): ")
}

/// The plan that an input means.
pub fn read_plan<S: Sources>(
    alloc: Global,
    sources: &S,
    standard: &mut StandardInput<S::Standard>,
    word: &str,
) -> Result<Plan, TextFault>
    ensures meaning { IfOk result (λ p. (text : List ℕ) (after : Unread) → HasText (S.file_text sources.now) standard.old word.now text after
        → IsAcceptedAs text p × (standard.new ≡ after)) }
    ensures fault { IfErr result (IsAtInput Input.Plan (λ why. (text : List ℕ) (after : Unread)
        → HasText (S.file_text sources.now) standard.old word.now text after → RefusesText None text why)) }
{
    let text = text(
        alloc,
        sources,
        standard,
        word,
        Input::Plan,
        office_map::limits::TEXT_LIMIT,
    )?;
    match Plan::read(alloc, &text) {
        Ok(plan) => Ok(plan),
        Err(PlanFault::Refused(refusal)) => Err(refused(
            alloc,
            &text,
            lines_above(standard, word),
            refusal,
        )),
        Err(PlanFault::Ring(ring)) => Err(in_a_ring(alloc, &text, ring)),
        Err(PlanFault::Memory) => Err(TextFault::Memory),
    }
}

/// That the text of a plan is refused so, below so many lines of the standard input.
fn refused(alloc: Global, text: &[u8], lines_above: u64, refusal: PlanRefusal) -> TextFault
    ensures { IsAtInput Input.Plan (λ why. (t : List ℕ) → plan_of t ≡ Err refusal → RefusesText None t why) result }
{
    match plan_sentence(alloc, text, lines_above, refusal) {
        Ok(said) => TextFault::Plan(refusal, said),
        Err(_) => TextFault::Memory,
    }
}

fn plan_sentence(
    alloc: Global,
    text: &[u8],
    lines_above: u64,
    refusal: PlanRefusal,
) -> Result<String, AllocError> {
    let place = at_line(alloc, refusal.line, lines_above)?;
    let rule = refusal.rule;
    let found = of_plan(alloc, text, refusal)?;
    format!(in alloc; "{place}{rule}: {found}")
}

/// That offices of a plan precede one another in this ring.
fn in_a_ring(alloc: Global, text: &[u8], ring: Ring) -> TextFault
    ensures { IsAtInput Input.Plan (λ why. (t : List ℕ) → HasRing ring (plan_of t) → RefusesText None t why) result }
{
    match ring_sentence(alloc, text, &ring) {
        Ok(said) => TextFault::Ring(ring, said),
        Err(_) => TextFault::Memory,
    }
}

fn ring_sentence(alloc: Global, text: &[u8], ring: &Ring) -> Result<String, AllocError> {
    let found = of_ring(alloc, text, ring)?;
    let rule = RING_RULE;
    format!(in alloc; "{rule}: {found}")
}

/// The programs of the sessions that an input means under a plan. Each fits the plan.
pub fn read_programs<S: Sources>(
    alloc: Global,
    sources: &S,
    standard: &mut StandardInput<S::Standard>,
    word: &str,
    plan: &Plan,
) -> Result<Vec<Program>, TextFault>
    ensures meaning { IfOk result (λ v. (text : List ℕ) (after : Unread) → HasText (S.file_text sources.now) standard.old word.now text after
        → (sessions_of plan.now text ≡ Ok v.items) × (standard.new ≡ after)) }
    ensures fit { IfOk result (λ v. All (λ p. IsTrue (fits plan.now p)) v.items) }
    ensures few { IfOk result (λ v. length v.items ≤ most_sessions) }
    ensures fault { IfErr result (IsAtInput Input.Sessions (λ why. (text : List ℕ) (after : Unread)
        → HasText (S.file_text sources.now) standard.old word.now text after → RefusesText (Some plan.now) text why)) }
{
    let text = text(
        alloc,
        sources,
        standard,
        word,
        Input::Sessions,
        session_language::limits::TEXT_LIMIT,
    )?;
    match read_sessions(alloc, &text, plan) {
        Ok(programs) => Ok(programs),
        Err(LangFault::Refused(refusal)) => {
            let above = lines_above(standard, word);
            let said = sessions_sentence(alloc, &text, plan, above, refusal)?;
            Err(TextFault::Sessions(refusal, said))
        }
        Err(LangFault::Memory) => Err(TextFault::Memory),
    }
}

/// The same programs, each with its code beside it: for a command that submits them to offices, some maybe again and again.
pub fn read_coded_programs<S: Sources>(
    alloc: Global,
    sources: &S,
    standard: &mut StandardInput<S::Standard>,
    word: &str,
    plan: &Plan,
) -> Result<Vec<Program>, TextFault>
    ensures meaning { IfOk result (λ v. (text : List ℕ) (after : Unread) → HasText (S.file_text sources.now) standard.old word.now text after
        → (sessions_of plan.now text ≡ Ok v.items) × (standard.new ≡ after)) }
    ensures fit { IfOk result (λ v. All (λ p. IsTrue (fits plan.now p)) v.items) }
    ensures few { IfOk result (λ v. length v.items ≤ most_sessions) }
    ensures fault { IfErr result (IsAtInput Input.Sessions (λ why. (text : List ℕ) (after : Unread)
        → HasText (S.file_text sources.now) standard.old word.now text after → RefusesText (Some plan.now) text why)) }
{
    let programs = read_programs(alloc, sources, standard, word, plan)?;
    let coded = with_codes(alloc, &programs)?;
    Ok(coded)
}

fn sessions_sentence(
    alloc: Global,
    text: &[u8],
    plan: &Plan,
    lines_above: u64,
    refusal: SessionRefusal,
) -> Result<String, AllocError> {
    let place = at_line(alloc, refusal.line, lines_above)?;
    let rule = refusal.rule;
    let found = of_sessions(alloc, text, plan, refusal)?;
    format!(in alloc; "{place}{rule}: {found}")
}
