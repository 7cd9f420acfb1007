//! The command `run`.

ghost use Rattle.std.specs.Prelude.{◌≡◌, ◌<◌, ◌≤◌, ◌∷◌, [], IfErr, IfOk, Some, length, map};
ghost use Rattle.std.specs.Option.{option_copied};
ghost use Rattle.std.specs.String.{string_bytes};
ghost use Rattle.std.specs.Io.KnownBytes.{Appends};
ghost use Rattle.office_map.specs.PlanValue.{office_named};
ghost use Rattle.office_stations.specs.Sessions.{count_of};
ghost use Rattle.office_runs.specs.Runs.{IsQuiet, TellsCourse, TellsJournals};
ghost use Rattle.datagram_seals.specs.sockets.Sealed.{IsToldUnder};
ghost use Rattle.command_outputs.specs.Journals.{WritesFiles};
ghost use Rattle.drink_commands.specs.Run.{EndsWith, IsCutBy, IsJudgedRun, IsReached, Leaves, NoObstacle, RefusesFile, RunsOffice, SaysOf};
ghost use Rattle.drink_commands.specs.Sealed.{IsUnderSeals};
ghost use Rattle.drink_commands.specs.Texts.{NoOther};

use crate::commands::ended;
use crate::commands::secrets::{lent, secrets_in};
use command_outputs::Fault;
use command_outputs::journal_files::write_each;
use command_outputs::output::write_whole;
use command_outputs::places::look_at_file;
use datagram_seals::frames::Secret;
use datagram_seals::sockets::{SealedSockets, Secrets};
use host_files::inputs::{Sources, StandardInput};
use host_files::outputs::Targets;
use office_map::{OfficeId, Plan};
use office_runs::Ran;
use office_runs::run::run_office;
use office_stations::{Around, Binds, Gate, OpeningFault, Watch, without_address};
use serial_command::reading::{read_coded_programs, read_plan};
use session_programs::Program;
use session_reports::form::Form;
use std::alloc::{AllocError, Global};
use std::io::Write;
use std::marker::Brand;
use std::rt::Clock;
use std::sync::Wait;

/// Runs an office of a plan at its address for so many turns, with those of the sessions that are its own, and writes in that form
/// what those that finished did, and how many haven't. The plan is read and judged first; then an office of it has to have that name, and
/// it and its neighbours an address; then the sessions are read and judged. Where a file is named for the office's secrets, it has to have
/// them, and the office is under seals. Where one is named for its journal, it has to be one that can be written, no input, and without a
/// journal of this office and run. Nothing is run or written before. Then that journal is written to it, and the watch is told what was
/// left. Where the run is cut short, what stands is written. The answer is the exit status: 1 where sessions are left.
pub fn run<R, S, B, G, V, T, W>(
    rt: &R,
    alloc: Global,
    form: Form,
    sources: &S,
    plan: &str,
    office: &str,
    sessions: &str,
    turns: u64,
    journal: Option<&str>,
    secrets: Option<&str>,
    around: &Around<'_, B, G, V>,
    targets: &mut T,
    out: &mut W,
) -> Result<u8, Fault>
where
    R: Wait + Clock,
    S: Sources,
    B: Binds,
    G: Gate,
    V: Watch,
    T: Targets,
    W: Write,
    ensures runs { IfOk result (λ status. RunsOffice (IsUnderSeals B.Socket.account (S.file_text sources.now) (option_copied secrets.entry)) form B.Socket.tells (S.file_text sources.now) (S.standard_text sources.now) plan.now office.now sessions.now turns (option_copied journal.entry)
        (EndsWith status) (W.contents out.old) (W.contents out.new) (T.written targets.old) (T.written targets.new)) }
    ensures status { IfOk result (λ status. status ≤ 1) }

    ensures judged { IfErr result (IsJudgedRun (S.file_text sources.now) (S.standard_text sources.now) plan.now office.now sessions.now) }
    ensures leaves { IfErr result (Leaves ((out.new ≡ out.old) × (targets.new ≡ targets.old)) (RefusesFile (S.file_text sources.now) (S.standard_text sources.now) plan.now office.now sessions.now (option_copied journal.entry)) (λ cause. RunsOffice (IsUnderSeals B.Socket.account (S.file_text sources.now) (option_copied secrets.entry)) form B.Socket.tells (S.file_text sources.now) (S.standard_text sources.now) plan.now office.now sessions.now turns (option_copied journal.entry)
        (IsCutBy cause) (W.contents out.old) (W.contents out.new) (T.written targets.old) (T.written targets.new))) }
{
    let plan_word = plan;
    let words = [plan, sessions];
    let mut standard = StandardInput::new(alloc, sources.standard(), &words);
    let plan = read_plan(alloc, sources, &mut standard, plan)?;
    let me = office_to_run(alloc, &plan, office)?;
    let programs = read_coded_programs(alloc, sources, &mut standard, sessions, &plan)?;
    let secrets = secrets_in(alloc, sources, secrets, &plan, me)?;
    look_at_file(
        alloc, sources, targets, plan_word, sessions, &plan, me, journal,
    )?;
    let ran = run_at::<R, B, G, V, Brand>(
        rt,
        alloc,
        form,
        &plan,
        me,
        &programs,
        turns,
        journal.is_some(),
        lent(&secrets),
        around,
    )?;
    write_ran(alloc, out, targets, journal, around.watch, &ran)
}

/// A run of an office at a socket under these secrets, if there are any.
fn run_at<R, B, G, V, K>(
    rt: &R,
    alloc: Global,
    form: Form,
    plan: &Plan,
    me: OfficeId,
    programs: &[Program],
    turns: u64,
    journals: bool,
    secrets: Option<&[Option<Secret>]>,
    around: &Around<'_, B, G, V>,
) -> Result<Ran, OpeningFault>
where
    R: Wait + Clock,
    B: Binds,
    G: Gate,
    V: Watch,
    K: Secrets,
    requires office { me < length plan.now.offices }
    requires secrets { option_copied secrets ≡ K.secrets }
    ensures tells { IfOk result (TellsJournals form plan.now (me ∷ []) (count_of programs.now me) journals) }
    ensures ran { IfOk result (TellsCourse (IsToldUnder B.Socket.account K.secrets) form B.Socket.tells plan.now me programs.now turns journals) }
    ensures quiet { IfOk result IsQuiet }
{
    let binds = SealedSockets::<B, K>::new(around.binds, secrets);
    let around = Around {
        binds: &binds,
        gate: around.gate,
        watch: around.watch,
    };
    run_office(
        rt, alloc, form, plan, me, programs, turns, journals, &around,
    )
}

/// What came of a run is written, and the journal that it leaves, and the watch is told what was left; then, where it was cut short,
/// why is the answer. Otherwise it is the exit status.
fn write_ran<T: Targets, W: Write, V: Watch>(
    alloc: Global,
    out: &mut W,
    targets: &mut T,
    journal: Option<&str>,
    watch: &V,
    ran: &Ran,
) -> Result<u8, Fault>
    ensures done { IfOk result (λ status. EndsWith status ran.now × Appends (W.contents out.old) (W.contents out.new) (string_bytes ran.now.text)
        × WritesFiles (option_copied journal.entry) (λ place. map (λ text. (place, string_bytes text)) ran.now.journals.items) (T.written targets.old) (T.written targets.new)) }
    ensures leaves { IfErr result (Leaves ⊥ NoObstacle (λ cause. IsCutBy cause ran.now × Appends (W.contents out.old) (W.contents out.new) (string_bytes ran.now.text)
        × WritesFiles (option_copied journal.entry) (λ place. map (λ text. (place, string_bytes text)) ran.now.journals.items) (T.written targets.old) (T.written targets.new))) }
{
    write_whole(out, &ran.text)?;
    write_each(alloc, targets, journal, &ran.journals)?;
    watch.end(&ran.remarks);
    ended(ran)
}

/// The office that a word names. It and its neighbours have addresses.
pub(crate) fn office_to_run(alloc: Global, plan: &Plan, word: &str) -> Result<OfficeId, Fault>
    ensures office { IfOk result (λ me. office_named plan.now word.now ≡ Some me) }
    ensures reached { IfOk result (IsReached plan.now) }
    ensures fault { IfErr result (SaysOf plan.now NoOther (office_named plan.now word.now)) }
{
    let Some(me) = plan.office_named(word) else {
        return Err(Fault::NoSuchOffice(offices_of(alloc, plan)?));
    };
    if let Some(v) = without_address(plan, me) {
        return Err(Fault::NoAddress(String::from_str(alloc, plan.office_name(v))?));
    }
    Ok(me)
}

/// The names of a plan's offices, for people.
fn offices_of(alloc: Global, plan: &Plan) -> Result<String, AllocError> {
    let mut names = String::new(alloc);
    for i in 0..plan.offices() {
        if i > 0 {
            names.push_str(if i + 1 < plan.offices() {
                ", "
            } else {
                " and "
            })?;
        }
        names.push_str(plan.office_name(OfficeId::new(i as u8)))?;
    }
    Ok(names)
}
