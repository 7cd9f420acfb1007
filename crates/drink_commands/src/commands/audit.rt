//! The command `audit`.

ghost use Rattle.std.specs.Prelude.{◌≡◌, ◌≤◌, ◌⊎◌, ◌∷◌, [], IfErr, IfOk, List, OnOk, ℕ, if◌then◌else◌, map};
ghost use Rattle.std.specs.Option.{option_copied};
ghost use Rattle.std.specs.String.{string_bytes};
ghost use Rattle.host_files.specs.inputs.Words.{StandFor};
ghost use Rattle.drink_commands.specs.Audit.{Audits, IsJudgedAudit};
ghost use Rattle.command_outputs.specs.Fault.{IsAmong, IsWriteFault};
ghost use Rattle.drink_commands.specs.refinement.Journals.{SaysAudit, TellsAudit, WritesFound};

use crate::commands::DONE;
use crate::journals::read_journals;
use command_outputs::Fault;
use command_outputs::day_files::write_end;
use command_outputs::output::write_whole;
use day_audits::audit::{Finding, audit};
use host_files::inputs::{Sources, StandardInput};
use host_files::outputs::Targets;
use serial_command::reading::read_plan;
use session_reports::form::Form;
use std::alloc::{AllocError, Global};
use std::io::Write;
use world_schedule::World;

/// The exit status of an audit of journals that are the record of no schedule.
const UNWOVEN: u8 = 1;

/// Weaves the journals that the offices of a plan left, one of each in any order, and writes in that form what the sessions did of which
/// they tell, how many of these haven't finished, and the values; or which entry no schedule has. Each input is read and judged
/// before the next one is read, and nothing is written before all are. Where a schedule is woven, the plan of the next day and the
/// sessions that are left are written then, where files are named for those. The answer is the exit status: 1 where none is woven.
pub fn run<S: Sources, T: Targets, W: Write>(
    alloc: Global,
    form: Form,
    sources: &S,
    plan: &str,
    journals: &[&str],
    next: Option<&str>,
    left: Option<&str>,
    targets: &mut T,
    out: &mut W,
) -> Result<u8, Fault>
    ensures audits { IfOk result (λ status. (plan_text : List ℕ) (texts : List (List ℕ))
        → StandFor (S.file_text sources.now) (S.standard_text sources.now) (plan.now ∷ map (λ w. w.now) journals.now) (plan_text ∷ texts)
        → Audits form plan_text texts (option_copied next.entry) (option_copied left.entry) status (W.contents out.old) (W.contents out.new) (T.written targets.old) (T.written targets.new)) }
    ensures status { IfOk result (λ status. status ≤ 1) }

    ensures judged { IfErr result (IsJudgedAudit (S.file_text sources.now) (S.standard_text sources.now) plan.now (map (λ w. w.now) journals.now)) }
    ensures unwritten { IfErr result (λ f. IsWriteFault f ⊎ ((out.new ≡ out.old) × (targets.new ≡ targets.old))) }
{
    let words = all_words(alloc, plan, journals)?;
    let mut standard = StandardInput::new(alloc, sources.standard(), &words);
    let found = found(alloc, form, sources, &mut standard, plan, journals)?;
    write_whole(out, &found.text)?;
    write_found(alloc, targets, &found.world, next, left)?;
    Ok(status(found.world.is_some()))
}

/// What a world leaves for the next day is written, where there is one.
fn write_found<T: Targets>(
    alloc: Global,
    targets: &mut T,
    world: &Option<World>,
    next: Option<&str>,
    left: Option<&str>,
) -> Result<(), Fault>
    ensures written { OnOk result (WritesFound (option_copied next.entry) (option_copied left.entry) world.now (T.written targets.old) (T.written targets.new)) }
    ensures fault { IfErr result IsWriteFault }
{
    match world {
        Some(world) => write_end(alloc, targets, world, next, left),
        None => Ok(()),
    }
}

/// What the journals tell together that these words stand for, under the plan of the first word.
fn found<S: Sources>(
    alloc: Global,
    form: Form,
    sources: &S,
    standard: &mut StandardInput<S::Standard>,
    plan: &str,
    journals: &[&str],
) -> Result<Finding, Fault>
    ensures told { IfOk result (λ a. TellsAudit (S.file_text sources.now) form standard.old plan.now (map (λ w. w.now) journals.now) a.world (string_bytes a.text)) }
    ensures later { IfOk result (λ _. (f : Fault) → IsAmong [] f → SaysAudit (S.file_text sources.now) standard.old plan.now (map (λ w. w.now) journals.now) f) }
    ensures fault { IfErr result (SaysAudit (S.file_text sources.now) standard.old plan.now (map (λ w. w.now) journals.now)) }
{
    let plan = read_plan(alloc, sources, standard, plan)?;
    let journals = read_journals(alloc, sources, standard, journals, &plan)?;
    Ok(audit(alloc, form, journals)?)
}

/// The words of the command's inputs, in their order.
fn all_words<'a>(
    alloc: Global,
    plan: &'a str,
    journals: &[&'a str],
) -> Result<Vec<&'a str>, AllocError>
    ensures { IfOk result (λ v. map (λ w. w.now) v.items ≡ plan.entry.now ∷ map (λ w. w.now) journals.now) }
{
    let mut words = Vec::new(alloc);
    words.push(plan)?;
    words.extend_from_slice(journals)?;
    Ok(words)
}

fn status(woven: bool) -> u8
    ensures { result ≡ (if woven then 0 else 1) }
{
    if woven { DONE } else { UNWOVEN }
}
