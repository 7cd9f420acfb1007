//! What journals tell together.

ghost use Rattle.std.specs.Prelude.{◌≡◌, ◌++◌, List, length, map, All, IsSome, IfNone, IfOk, IfSome, OnOk};
ghost use Rattle.std.specs.String.{string_bytes};
ghost use Rattle.frame_world.specs.declared.event.WorldEvent.{WorldEvent};
ghost use Rattle.frame_world.specs.Worlds.{opening, run_of};
ghost use Rattle.world_schedule.specs.Records.{IsLeftBy};
ghost use Rattle.journal_weave.specs.declared.given.GivenJournal.{GivenJournal};
ghost use Rattle.journal_weave.specs.Replays.{AreReplays};
ghost use Rattle.day_audits.specs.audit.Following.{FollowSome, TellsOf};
ghost use Rattle.day_audits.specs.audit.Findings.{unwoven_as, unwoven_line, IsToldOf, TellsWoven, TellsUnwoven};
ghost use Rattle.day_audits.specs.audit.refinement.Naming.{Names};

use crate::audit::journals::Journals;
use journal_texts::wording::words::office_name;
use journal_weave::{Record, Replay, WeaveFault, woven};
use office_map::{OfficeId, Plan};
use session_reports::form::Form;
use session_reports::json::report::add_unwoven;
use site_core::Office;
use std::alloc::{AllocError, Global};
use world_schedule::World;
use world_schedule::reports::world::add_world;

/// What journals tell together.
#[derive(Drop)]
pub struct Finding {
    /// The report of the world whose record they are; or the line that names an entry.
    pub text: String,
    /// That world, where they are the record of one.
    pub world: Option<World>,
}

/// What the journals of a plan's offices tell together in that form, one of each: the report of the world to which a schedule of theirs leads; or,
/// where none is, the line of an entry that no schedule has.
pub fn audit(alloc: Global, form: Form, journals: Journals) -> Result<Finding, AllocError>
    requires { All (λ slot. IsSome slot) journals.slots }
    ensures woven { IfOk result (λ a. IfSome a.world (λ w. TellsOf (TellsWoven form w) journals (string_bytes a.text))) }
    ensures unwoven { IfOk result (λ a. IfNone a.world (TellsOf (TellsUnwoven form) journals (string_bytes a.text))) }
{
    let plan = journals.plan().copy(alloc)?;
    let replays = journals.into_replays(alloc)?;
    told(alloc, form, &plan, replays)
}

/// The same of the offices that follow the journals, in order of number.
fn told(alloc: Global, form: Form, plan: &Plan, replays: Vec<Replay>) -> Result<Finding, AllocError>
    requires one_each { length replays.items ≡ length plan.now.offices }
    requires follow { FollowSome plan.now replays.items }
    ensures woven { IfOk result (λ a. IfSome a.world (λ w. (journals : List GivenJournal) → AreReplays plan.now journals replays.items → TellsWoven form w plan.now journals (string_bytes a.text))) }
    ensures unwoven { IfOk result (λ a. IfNone a.world ((journals : List GivenJournal) → AreReplays plan.now journals replays.items → TellsUnwoven form plan.now journals (string_bytes a.text))) }
{
    match woven(alloc, plan, &replays) {
        Ok(left) => {
            let world = world_of(alloc, plan, replays, left)?;
            let text = tell(alloc, form, &world)?;
            Ok(Finding {
                text,
                world: Some(world),
            })
        }
        Err(fault) => {
            let text = line(alloc, form, plan, fault)?;
            Ok(Finding { text, world: None })
        }
    }
}

/// The line that names the entry which no schedule has.
fn line(alloc: Global, form: Form, plan: &Plan, fault: WeaveFault) -> Result<String, AllocError>
    ensures { IfOk result (λ text. Names form plan.now fault (string_bytes text)) }
{
    match fault {
        WeaveFault::Unwoven { office, entry } => named(alloc, form, plan, office, entry),
        WeaveFault::Memory => Err(AllocError),
    }
}

/// The line that names an entry, from 1.
fn named(
    alloc: Global,
    form: Form,
    plan: &Plan,
    office: OfficeId,
    entry: usize,
) -> Result<String, AllocError>
    ensures { IfOk result (λ text. string_bytes text ≡ unwoven_as form plan.now office entry) }
{
    let mut text = String::new(alloc);
    add_line(&mut text, form, plan, office, entry)?;
    Ok(text)
}

fn add_line(
    text: &mut String,
    form: Form,
    plan: &Plan,
    office: OfficeId,
    entry: usize,
) -> Result<(), AllocError>
    ensures { OnOk result (string_bytes text.new ≡ string_bytes text.old ++ unwoven_as form plan.now office entry) }
{
    match form {
        Form::Plain => add_plain_line(text, plan, office, entry),
        Form::Json => add_unwoven(text, plan, office, entry),
    }
}

fn add_plain_line(
    text: &mut String,
    plan: &Plan,
    office: OfficeId,
    entry: usize,
) -> Result<(), AllocError>
    ensures { OnOk result (string_bytes text.new ≡ string_bytes text.old ++ unwoven_line plan.now office entry) }
{
    let name = office_name(plan, office);
    writeln!(text, "unwoven {name} {entry}")
}

/// The world to which a schedule leads.
///
/// Its offices are those that followed their journals to the ends: so nothing is done a second time. Which entries tell its frames,
/// and where sessions finished, are the schedule's.
fn world_of(
    alloc: Global,
    plan: &Plan,
    replays: Vec<Replay>,
    left: Record,
) -> Result<World, AllocError>
    requires { (events : List WorldEvent) × IsLeftBy plan.now events (map (λ r. r.site) replays.items) left.sent.items left.finished.items }
    ensures { IfOk result (λ w. (events : List WorldEvent) → IsLeftBy plan.now events (map (λ r. r.site) replays.items) left.sent.items left.finished.items → w ≡ run_of (opening plan.now) events) }
{
    let offices = offices_of(alloc, replays)?;
    let plan = plan.copy(alloc)?;
    World::of_record(alloc, plan, offices, left.sent, &left.finished)
}

/// The offices themselves.
fn offices_of(alloc: Global, replays: Vec<Replay>) -> Result<Vec<Office>, AllocError>
    ensures { IfOk result (λ v. v.items ≡ map (λ r. r.site) replays.items) }
{
    let mut offices = Vec::with_capacity(alloc, replays.len())?;
    for replay in replays {
        offices.push(replay.into_office())?;
    }
    Ok(offices)
}

/// The report of a world, with how many submitted sessions haven't finished.
fn tell(alloc: Global, form: Form, world: &World) -> Result<String, AllocError>
    ensures { IfOk result (λ text. IsToldOf form world.now (string_bytes text)) }
{
    world.headline();
    let mut text = String::new(alloc);
    add_world(&mut text, form, world, world.unfinished())?;
    Ok(text)
}
