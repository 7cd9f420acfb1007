//! Simulations, and what is printed of them.

ghost use Rattle.std.specs.Prelude.{◌≡◌, ◌≢◌, ◌++◌, ◌∷◌, [], codes, false, Err, IfOk, IfErr, OnOk, List};
ghost use Rattle.std.specs.Fmt.{decimal};
ghost use Rattle.std.specs.List.{flat_map};
ghost use Rattle.std.specs.String.{string_bytes};
ghost use Rattle.std.specs.Io.KnownBytes.{Appends, append_known};
ghost use Rattle.frame_world.specs.declared.event.WorldEvent.TheVariants as events;
ghost use Rattle.office_journal.specs.declared.reply.Refusal.TheVariants as refused;
ghost use Rattle.frame_world.specs.declared.refusal.WorldRefusal.TheVariants as refusals;
ghost use Rattle.frame_world.specs.RefusalText.{refusal_text};
ghost use Rattle.frame_world.specs.Worlds.{opening, happens};
ghost use Rattle.frame_world.specs.Standstill.{place_of, IsStep, IsNextMessage};
ghost use Rattle.simulation.specs.scripts.Script.{Act, acts_with};
ghost use Rattle.simulation.specs.scripts.Runs.{as_said, run_of, all_told, at_most, does, delivered, stepped};
ghost use Rattle.simulation.specs.scripts.Script as scripts;
ghost use Rattle.world_schedule.specs.reports.Telling.{Unwritten};
ghost use Rattle.simulation.specs.scripts.Termination.{EachSettleEnds};
ghost use Rattle.simulation.specs.scripts.Transcript.{told_line, told_report, said_line, transcript, IsSerialRun};
ghost use Rattle.simulation.specs.scripts.refinement.Steps.{Says, Answered, AnswersStep};

use crate::scripts::event::ScriptEvent;
use crate::scripts::laws::scripts_settle_to_their_ends;
use crate::scripts::limits::STEPS_TO_THE_END;
use crate::scripts::said::Said;
use crate::scripts::script::nth;
use frame_world::{NextStep, WorldRefusal};
use host_files::outputs::Outgoing;
use journal_texts::wording::replies::add_reply;
use journal_texts::wording::words::add_number;
use office_map::{OfficeId, Plan};
use session_programs::Program;
use session_reports::form::Form;
use session_reports::form::words::{add_closing, add_opening};
use site_core::{Reply, Rule};
use std::alloc::{AllocError, Global};
use std::io::Write;
use world_schedule::reports::TellingFault;
use world_schedule::reports::telling::{out_of_memory, tell_world, write_on};
use world_schedule::{Resting, World};

/// Runs events, one after the other, from the plan's opening, and writes what is printed of it in that form, as it comes: a line for each event,
/// and then the report of the world, which has the finished sessions in finishing order, how many submitted ones haven't finished,
/// and the records' values. The sessions that they submit are those of these programs. One that isn't there is no event. The answer
/// is the world to which they led.
pub fn simulate<W: Write>(
    alloc: Global,
    form: Form,
    plan: &Plan,
    programs: &[Program],
    events: &[ScriptEvent],
    out: &mut W,
) -> Result<World, TellingFault>
    ensures written { OnOk result (Appends (W.contents out.old) (W.contents out.new) (transcript form plan.now (acts_with programs.now events.now))) }
    ensures world { IfOk result (λ world. world ≡ run_of (opening plan.now) (acts_with programs.now events.now)) }
    ensures plan { IfOk result (λ world. world.plan ≡ plan.now) }
    ensures serial { IfOk result (λ _. IsSerialRun (run_of (opening plan.now) (acts_with programs.now events.now))) }
    ensures ends { IfOk result (λ _. EachSettleEnds (opening plan.now) (acts_with programs.now events.now)) }
    ensures unwritten { IfErr result (Unwritten (out.new ≡ out.old)) }
{
    let mut world = opened(alloc, plan)?;
    tell_run(alloc, form, &mut world, programs, events, out)?;
    headline(&world);
    settling(plan);
    Ok(world)
}

/// The world as a plan starts it.
fn opened(alloc: Global, plan: &Plan) -> Result<World, AllocError>
    ensures { IfOk result (λ world. world ≡ opening plan.now) }
{
    World::open(alloc, plan.copy(alloc)?)
}

/// What the report tells is a serial run.
fn headline(world: &World)
    ensures { IsSerialRun world.now }
{
    world.headline();
}

/// Where acts leave the world to itself by enough steps, it comes to its end.
fn settling(plan: &Plan)
    ensures { (acts : List Act) → EachSettleEnds (opening plan.now) acts }
{
    plan.offices();
    scripts_settle_to_their_ends();
}

/// Events happen in the world, one after the other, and their lines go out, and then its report.
fn tell_run<W: Write>(
    alloc: Global,
    form: Form,
    world: &mut World,
    programs: &[Program],
    events: &[ScriptEvent],
    out: &mut W,
) -> Result<(), TellingFault>
    ensures written { OnOk result (Appends (W.contents out.old) (W.contents out.new) (flat_map (told_line form) (all_told world.old (acts_with programs.now events.now)) ++ told_report form (run_of world.old (acts_with programs.now events.now)))) }
    ensures world { OnOk result (world.new ≡ run_of world.old (acts_with programs.now events.now)) }
    ensures unwritten { IfErr result (Unwritten (out.new ≡ out.old)) }
{
    let mut told = Outgoing::new(alloc);
    for event in events {
        tell_event(&mut told, form, world, programs, *event, out)?;
    }
    tell_report(form, world, told, out)
}

/// The report of the world, with how many submitted sessions haven't finished.
fn tell_report<W: Write>(
    form: Form,
    world: &World,
    told: Outgoing,
    out: &mut W,
) -> Result<(), TellingFault>
    ensures written { OnOk result (Appends (append_known (W.contents out.old) (string_bytes told.text)) (W.contents out.new) (told_report form world.now)) }
    ensures unwritten { IfErr result (Unwritten ((told.went ≡ false) × (out.new ≡ out.old))) }
{
    tell_world(form, world, world.unfinished(), told, out)
}

/// An event happens in the world, and its line is on its way.
fn tell_event<W: Write>(
    told: &mut Outgoing,
    form: Form,
    world: &mut World,
    programs: &[Program],
    event: ScriptEvent,
    out: &mut W,
) -> Result<(), TellingFault>
    ensures line { OnOk result (Appends (append_known (W.contents out.old) (string_bytes told.old.text)) (append_known (W.contents out.new) (string_bytes told.new.text)) (flat_map (told_line form) (all_told world.old (acts_with programs.now (event ∷ []))))) }
    ensures world { OnOk result (world.new ≡ run_of world.old (acts_with programs.now (event ∷ []))) }
    ensures before { told.new.went ≡ false → told.old.went ≡ false }
    ensures still { told.new.went ≡ false → out.new ≡ out.old }
    ensures fault { IfErr result (Unwritten (told.new.went ≡ false)) }
{
    match add_event(&mut told.text, form, world, programs, event) {
        Ok(()) => write_on(told, out),
        Err(_) => Err(out_of_memory(told.went)),
    }
}

/// An event happens in the world, where its session is there, and its line is added. An answer isn't handed on: its words are
/// written where it is given.
///
/// Each kind of event has a function of its own. An answer has room for the longest frame, and where several kinds stand in one
/// function, that makes the rooms of all their answers ready before each event.
fn add_event(
    text: &mut String,
    form: Form,
    world: &mut World,
    programs: &[Program],
    event: ScriptEvent,
) -> Result<(), AllocError>
    ensures line { OnOk result (string_bytes text.new ≡ string_bytes text.old ++ flat_map (told_line form) (all_told world.old (acts_with programs.now (event ∷ [])))) }
    ensures world { OnOk result (world.new ≡ run_of world.old (acts_with programs.now (event ∷ []))) }
{
    match event {
        ScriptEvent::Submit(n) => {
            let Some(program) = nth(programs, n) else {
                return Ok(());
            };
            add_submit(text, form, world, program)
        }
        ScriptEvent::Withdraw(office, ticket) => add_withdraw(text, form, world, office, ticket),
        ScriptEvent::Do(office, rule) => add_do(text, form, world, office, rule),
        ScriptEvent::Send(office, neighbour, i) => add_send(
            text, form, world, office, neighbour, i,
        ),
        ScriptEvent::Deliver(k) => add_deliver(text, form, world, k),
        ScriptEvent::Advance(office, n) => add_advance(text, form, world, office, n),
        ScriptEvent::Settle(n) => add_settle(text, form, world, n),
        ScriptEvent::SettleToTheEnd => add_settle(text, form, world, STEPS_TO_THE_END),
    }
}

/// A session is submitted.
#[inline(never)]
fn add_submit(
    text: &mut String,
    form: Form,
    world: &mut World,
    program: &Program,
) -> Result<(), AllocError>
    ensures line { OnOk result (string_bytes text.new ≡ string_bytes text.old ++ flat_map (told_line form) (all_told world.old (scripts.Happens (events.Submit program.now.office program.now) ∷ []))) }
    ensures world { OnOk result (world.new ≡ run_of world.old (scripts.Happens (events.Submit program.now.office program.now) ∷ [])) }
{
    let answer = world.submit(program.office(), program);
    add_answer(text, form, world.frames(), &answer)
}

/// A session is withdrawn.
#[inline(never)]
fn add_withdraw(
    text: &mut String,
    form: Form,
    world: &mut World,
    office: OfficeId,
    ticket: u32,
) -> Result<(), AllocError>
    ensures line { OnOk result (string_bytes text.new ≡ string_bytes text.old ++ flat_map (told_line form) (all_told world.old (scripts.Happens (events.Withdraw office ticket) ∷ []))) }
    ensures world { OnOk result (world.new ≡ run_of world.old (scripts.Happens (events.Withdraw office ticket) ∷ [])) }
{
    let answer = world.withdraw(office, ticket);
    add_answer(text, form, world.frames(), &answer)
}

/// An office does a rule.
#[inline(never)]
fn add_do(
    text: &mut String,
    form: Form,
    world: &mut World,
    office: OfficeId,
    rule: Rule,
) -> Result<(), AllocError>
    ensures line { OnOk result (string_bytes text.new ≡ string_bytes text.old ++ flat_map (told_line form) (all_told world.old (scripts.Happens (events.Do office rule) ∷ []))) }
    ensures world { OnOk result (world.new ≡ run_of world.old (scripts.Happens (events.Do office rule) ∷ [])) }
{
    let answer = world.act(office, &rule);
    add_answer(text, form, world.frames(), &answer)
}

/// An office makes a frame.
#[inline(never)]
fn add_send(
    text: &mut String,
    form: Form,
    world: &mut World,
    office: OfficeId,
    neighbour: OfficeId,
    i: usize,
) -> Result<(), AllocError>
    ensures line { OnOk result (string_bytes text.new ≡ string_bytes text.old ++ flat_map (told_line form) (all_told world.old (scripts.Happens (events.Send office neighbour i) ∷ []))) }
    ensures world { OnOk result (world.new ≡ run_of world.old (scripts.Happens (events.Send office neighbour i) ∷ [])) }
{
    let answer = world.send(office, neighbour, i);
    add_answer(text, form, world.frames(), &answer)
}

/// A frame comes.
#[inline(never)]
fn add_deliver(text: &mut String, form: Form, world: &mut World, k: usize) -> Result<(), AllocError>
    ensures line { OnOk result (string_bytes text.new ≡ string_bytes text.old ++ flat_map (told_line form) (all_told world.old (scripts.Happens (events.Deliver k) ∷ []))) }
    ensures world { OnOk result (world.new ≡ run_of world.old (scripts.Happens (events.Deliver k) ∷ [])) }
{
    let answer = world.deliver(k);
    add_answer(text, form, world.frames(), &answer)
}

/// An office goes on, left to itself.
#[inline(never)]
fn add_advance(
    text: &mut String,
    form: Form,
    world: &mut World,
    office: OfficeId,
    n: u16,
) -> Result<(), AllocError>
    ensures line { OnOk result (string_bytes text.new ≡ string_bytes text.old ++ flat_map (told_line form) (all_told world.old (scripts.Advances office n ∷ []))) }
    ensures world { OnOk result (world.new ≡ run_of world.old (scripts.Advances office n ∷ [])) }
{
    let said = advance(world, office, n);
    add_said(text, form, world.frames(), &said)
}

/// The world goes on, left to itself.
#[inline(never)]
fn add_settle(text: &mut String, form: Form, world: &mut World, n: u32) -> Result<(), AllocError>
    ensures line { OnOk result (string_bytes text.new ≡ string_bytes text.old ++ flat_map (told_line form) (all_told world.old (scripts.Settles n ∷ []))) }
    ensures world { OnOk result (world.new ≡ run_of world.old (scripts.Settles n ∷ [])) }
{
    let said = settle(world, n);
    add_said(text, form, world.frames(), &said)
}

/// An office does so many rules at most, left to itself.
fn advance(world: &mut World, office: OfficeId, n: u16) -> Result<Said, WorldRefusal>
    ensures { Says (does world.old (scripts.Advances office n)) result world.new }
{
    if office.index() >= world.plan().offices() {
        return Err(WorldRefusal::NoOffice);
    }
    let mut done = 0;
    while done < n {
        let Some(rule) = world.office(office).next_rule() else {
            return Ok(Said::Rules(done));
        };
        if let Err(refusal) = world.act(office, &rule) {
            return Err(refusal);
        }
        done += 1;
    }
    Ok(Said::Rules(done))
}

/// The world does so many steps at most, left to itself.
///
/// At its last step it asks once more what comes next, so it tells `finished` wherever no session is left. That no
/// session is left is no step: it tells how many were done while one was, and goes no further.
fn settle(world: &mut World, most: u32) -> Result<Said, WorldRefusal>
    ensures { Says (does world.old (scripts.Settles most)) result world.new }
{
    let mut resting = Resting::new();
    let mut done = 0;
    while done < most {
        let step = world.next_step_asking(&mut resting);
        match take_step(world, step) {
            None => return Ok(Said::Settled(done)),
            Some(Err(refusal)) => return Err(refusal),
            Some(Ok(_)) => done += 1,
        }
    }
    Ok(at_most(done, world.next_step_asking(&mut resting)))
}

/// What is said where so many steps were done, all that were asked for, and this one is next.
fn at_most(done: u32, next: NextStep) -> Said
    ensures { result ≡ at_most done next }
{
    match next {
        NextStep::Rule(_, _) => Said::Open(done),
        NextStep::Message(_, _, _) => Said::Open(done),
        NextStep::AllFinished => Said::Settled(done),
    }
}

/// A step of the world, where one is left.
fn take_step(world: &mut World, step: NextStep) -> Option<Result<Reply, WorldRefusal>>
    requires { IsStep world.now step }
    ensures { AnswersStep world.old (stepped world.old step) result world.new }
{
    match step {
        NextStep::Rule(office, rule) => Some(world.act(office, &rule)),
        NextStep::Message(from, to, number) => Some(send_and_deliver(world, from, to, number)),
        NextStep::AllFinished => None,
    }
}

/// The frame of the message with that number is made, and comes.
fn send_and_deliver(
    world: &mut World,
    from: OfficeId,
    to: OfficeId,
    number: u64,
) -> Result<Reply, WorldRefusal>
    requires { IsNextMessage world.now from to number }
    ensures { Answered (delivered (happens world.old (events.Send from to (place_of world.old from to number)))) result world.new }
{
    let i = world.place_of(from, to, number);
    if let Err(refusal) = world.send(from, to, i) {
        return Err(refusal);
    }
    world.deliver(world.frames())
}

/// The line of an answer, where so many frames were sent: so a frame is named by the number by which it can be delivered. Memory
/// that ran out has none.
fn add_answer(
    text: &mut String,
    form: Form,
    frames: usize,
    answer: &Result<Reply, WorldRefusal>,
) -> Result<(), AllocError>
    ensures line { OnOk result (string_bytes text.new ≡ string_bytes text.old ++ said_line form frames (as_said answer.now)) }
    ensures memory { OnOk result (answer.now ≢ Err (refusals.Office refused.Memory)) }
{
    add_opening(text, form)?;
    match answer {
        Ok(reply) => add_reply(text, Some(frames), reply)?,
        Err(refusal) => add_refusal(text, *refusal)?,
    }
    add_closing(text, form)
}

/// The line of what is said, likewise.
fn add_said(
    text: &mut String,
    form: Form,
    frames: usize,
    said: &Result<Said, WorldRefusal>,
) -> Result<(), AllocError>
    ensures line { OnOk result (string_bytes text.new ≡ string_bytes text.old ++ said_line form frames said.now) }
    ensures memory { OnOk result (said.now ≢ Err (refusals.Office refused.Memory)) }
{
    add_opening(text, form)?;
    match said {
        Ok(Said::Replied(reply)) => add_reply(text, Some(frames), reply)?,
        Ok(Said::Rules(n)) => add_rules(text, *n)?,
        Ok(Said::Settled(n)) => add_settled(text, *n, " finished")?,
        Ok(Said::Open(n)) => add_settled(text, *n, " open")?,
        Err(why) => add_refusal(text, *why)?,
    }
    add_closing(text, form)
}

/// Why an event is refused. That memory ran out isn't told so, but ends the run.
fn add_refusal(text: &mut String, refusal: WorldRefusal) -> Result<(), AllocError>
    ensures words { OnOk result (string_bytes text.new ≡ string_bytes text.old ++ (codes "refused " ++ refusal_text refusal)) }
    ensures memory { OnOk result (refusal ≢ refusals.Office refused.Memory) }
{
    match refusal {
        WorldRefusal::Office(site_core::Refusal::Memory) => Err(AllocError),
        told => {
            text.push_str("refused ")?;
            text.push_str(told.text())
        }
    }
}

/// How many rules an office did.
fn add_rules(text: &mut String, n: u16) -> Result<(), AllocError>
    ensures { OnOk result (string_bytes text.new ≡ string_bytes text.old ++ (codes "rules " ++ decimal n)) }
{
    text.push_str("rules ")?;
    add_number(text, u64::from(n))
}

/// How many steps a world did, and how it ended.
fn add_settled(text: &mut String, n: u32, end: &str) -> Result<(), AllocError>
    ensures { OnOk result (string_bytes text.new ≡ string_bytes text.old ++ (codes "settled " ++ (decimal n ++ end.now))) }
{
    text.push_str("settled ")?;
    add_number(text, u64::from(n))?;
    text.push_str(end)
}
