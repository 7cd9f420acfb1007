//! The command `live`.

ghost use Rattle.std.specs.Prelude.{◌≡◌, ◌≤◌, [], ◌∷◌, All, IfErr, IfOk, IsTrue, length};
ghost use Rattle.std.specs.Option.{option_copied};
ghost use Rattle.command_outputs.specs.Fault.{IsOfRun};
ghost use Rattle.session_language.specs.Limits.{most_sessions};
ghost use Rattle.session_programs.specs.Program.{fits};
ghost use Rattle.drink_commands.specs.Run.{EndsWith, IsCutBy, Leaves, NoObstacle, RefusesFolder, RunsOffices, WritesRan, are_wanted};
ghost use Rattle.drink_commands.specs.Texts.{IsJudgedOr};

use crate::commands::ended;
use command_outputs::Fault;
use command_outputs::day_files::write_day;
use command_outputs::journal_files::write_texts;
use command_outputs::output::write_whole;
use command_outputs::places::look_at_folder;
use host_files::inputs::{Sources, StandardInput};
use host_files::outputs::Targets;
use office_map::Plan;
use office_runs::Ran;
use office_runs::live::live::live;
use office_stations::{Around, Binds, Gate, Watch};
use serial_command::reading::{Input, read_coded_programs, read_plan};
use session_programs::Program;
use session_reports::form::Form;
use std::alloc::Global;
use std::io::Write;
use std::rt::Clock;
use std::sync::Wait;
use std::thread::Threads;

/// Runs the sessions on all offices of a plan, each on threads and at a socket of this machine's own, and writes in that form what
/// those that finished did, by office and ticket, and how many haven't. Each input is read and judged before the next one is read, and
/// nothing is run or written before both are judged. Where a folder is named for the offices' journals, it has to be there or such that
/// it can be made, and their files in it such that they can be written, none of them an input or with a journal of its office and this
/// run. The journals are written to them after the run; then the plan of the next day and the sessions that haven't finished, where files
/// are named for those; and the watch is told what was left. Where the run is cut short, what stands is written. The answer is the exit
/// status: 1 where sessions are left.
pub fn run<R, S, B, G, V, T, W>(
    rt: &R,
    alloc: Global,
    form: Form,
    sources: &S,
    plan: &str,
    sessions: &str,
    journals: Option<&str>,
    next: Option<&str>,
    left: Option<&str>,
    around: &Around<'_, B, G, V>,
    targets: &mut T,
    out: &mut W,
) -> Result<u8, Fault>
where
    R: Threads + Wait + Clock + Sync,
    S: Sources,
    B: Binds,
    B::Socket: Send,
    B::Alarm: Send,
    G: Gate + Sync,
    V: Watch + Sync,
    T: Targets,
    W: Write,
    ensures runs { IfOk result (λ status. RunsOffices form B.Socket.tells (S.file_text sources.now) (S.standard_text sources.now) plan.now sessions.now (option_copied journals.entry) (option_copied next.entry) (option_copied left.entry)
        (EndsWith status) (W.contents out.old) (W.contents out.new) (T.written targets.old) (T.written targets.new)) }
    ensures status { IfOk result (λ status. status ≤ 1) }

    ensures judged { IfErr result (IsJudgedOr IsOfRun (S.file_text sources.now) (S.standard_text sources.now) (plan.now ∷ sessions.now ∷ []) (Input.Plan ∷ Input.Sessions ∷ [])) }
    ensures leaves { IfErr result (Leaves ((out.new ≡ out.old) × (targets.new ≡ targets.old)) (RefusesFolder (S.file_text sources.now) (S.standard_text sources.now) plan.now sessions.now (option_copied journals.entry)) (λ cause. RunsOffices form B.Socket.tells (S.file_text sources.now) (S.standard_text sources.now) plan.now sessions.now (option_copied journals.entry) (option_copied next.entry) (option_copied left.entry)
        (IsCutBy cause) (W.contents out.old) (W.contents out.new) (T.written targets.old) (T.written targets.new))) }
{
    let plan_word = plan;
    let words = [plan, sessions];
    let mut standard = StandardInput::new(alloc, sources.standard(), &words);
    let plan = read_plan(alloc, sources, &mut standard, plan)?;
    let programs = read_coded_programs(alloc, sources, &mut standard, sessions, &plan)?;
    look_at_folder(
        alloc, sources, targets, plan_word, sessions, &plan, journals,
    )?;
    let wanted = are_wanted(journals, next, left);
    let ran = live(rt, alloc, form, &plan, &programs, wanted, around)?;
    write_ran(
        alloc,
        out,
        targets,
        journals,
        next,
        left,
        around.watch,
        &plan,
        &programs,
        &ran,
    )
}

/// Whether the journals of a run are needed: for files of their own, or for what the next day begins with.
fn are_wanted(journals: Option<&str>, next: Option<&str>, left: Option<&str>) -> bool
    ensures { result ≡ are_wanted (option_copied journals.entry) (option_copied next.entry) (option_copied left.entry) }
{
    match journals {
        Some(_) => true,
        None => match next {
            Some(_) => true,
            None => left.is_some(),
        },
    }
}

/// What came of a run is written, and the journals that it leaves, and what the next day begins with, and the watch is told what was left;
/// then, where it was cut short, why is the answer. Otherwise it is the exit status.
fn write_ran<T: Targets, W: Write, V: Watch>(
    alloc: Global,
    out: &mut W,
    targets: &mut T,
    journals: Option<&str>,
    next: Option<&str>,
    left: Option<&str>,
    watch: &V,
    plan: &Plan,
    programs: &[Program],
    ran: &Ran,
) -> Result<u8, Fault>
    requires journals { length ran.now.journals.items ≤ length plan.now.offices }
    requires fit { All (λ p. IsTrue (fits plan.now p)) programs.now }
    requires few { length programs.now ≤ most_sessions }
    ensures done { IfOk result (λ status. EndsWith status ran.now
        × WritesRan plan.now programs.now (option_copied journals.entry) (option_copied next.entry) (option_copied left.entry) ran.now (W.contents out.old) (W.contents out.new) (T.written targets.old) (T.written targets.new)) }
    ensures leaves { IfErr result (Leaves ⊥ NoObstacle (λ cause. IsCutBy cause ran.now
        × WritesRan plan.now programs.now (option_copied journals.entry) (option_copied next.entry) (option_copied left.entry) ran.now (W.contents out.old) (W.contents out.new) (T.written targets.old) (T.written targets.new))) }
{
    write_whole(out, &ran.text)?;
    write_texts(alloc, targets, journals, plan, &ran.journals)?;
    write_day(alloc, targets, plan, programs, &ran.journals, next, left)?;
    watch.end(&ran.remarks);
    ended(ran)
}
