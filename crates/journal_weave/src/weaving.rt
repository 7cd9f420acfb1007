//! Weaving.

ghost use Rattle.std.specs.Prelude.{◌≡◌, ◌⊎◌, ◌++◌, [], List, length, IfOk, IfErr, OnOk};
ghost use Rattle.frame_world.specs.declared.event.WorldEvent.{WorldEvent};
ghost use Rattle.frame_world.specs.Worlds.{opening, run_of};
ghost use Rattle.frame_world.specs.Headline.{HasSerialSessions, HasSerialValues};
ghost use Rattle.journal_weave.specs.declared.fault.WeaveFault.TheVariants as faults;
ghost use Rattle.journal_weave.specs.declared.given.GivenJournal.{GivenJournal};
ghost use Rattle.journal_weave.specs.Given.{IsWovenFrom, IsUnwoven};
ghost use Rattle.journal_weave.specs.Replays.{AreReplays, IsRecord};
ghost use Rattle.journal_weave.specs.refinement.Finishers.{finishers, finishes_at, finishes_by};
ghost use Rattle.journal_weave.specs.refinement.Merging.{IsAtEnd};

use crate::fault::WeaveFault;
use crate::given::GivenJournal;
use crate::key::FrameKey;
use crate::laws::{none_goes_further, woven_is_serial};
use crate::merge::Merge;
use crate::replay::{Replay, replayed};
use crate::standing::first_left;
use frame_world::laws::numbers_tell_messages;
use frame_world::{SentAt, WorldEvent};
use office_map::{OfficeId, Plan};
use site_core::Rule;
use std::alloc::{AllocError, Global};

/// What a schedule leaves, beside what its offices are at their ends.
#[derive(Drop)]
pub struct Record {
    /// Which entries tell the frames that it sends, the first first.
    pub sent: Vec<SentAt>,
    /// The offices at which its sessions finish, in order.
    pub finished: Vec<OfficeId>,
}

/// A schedule of which the journals are the record, one of each office, in order of number. The offices go on in turn, in order
/// of number, each as far as it can.
///
/// # Errors
/// `Unwoven` where no schedule is, with the least office that stands before its journal's end and doesn't wait, or, where all
/// of these wait, the least of them. An office waits where its next entry takes a frame whose sender stands too, and has made
/// it no frame of that number. `Memory` may stand in place of any answer.
pub fn weave(
    alloc: Global,
    plan: &Plan,
    journals: &[GivenJournal],
) -> Result<Vec<WorldEvent>, WeaveFault>
    requires { length journals.now ≡ length plan.now.offices }
    ensures woven { IfOk result (λ events. IsWovenFrom plan.now journals.now events.items) }
    ensures sessions { IfOk result (λ events. HasSerialSessions (run_of (opening plan.now) events.items)) }
    ensures bottles { IfOk result (λ events. HasSerialValues (run_of (opening plan.now) events.items)) }
    ensures unwoven { IfErr result (IsUnwoven plan.now journals.now) }
    ensures never { IfErr result (λ fault. (fault ≡ faults.Memory) ⊎ ((events : List WorldEvent) → IsWovenFrom plan.now journals.now events → ⊥)) }
{
    none_goes_further();
    numbers_tell_messages();
    woven_is_serial();
    // An accepted plan is consistent.
    let _ = plan.offices();
    let replays = replays_of(alloc, plan, journals)?;
    let mut schedule = Vec::new(alloc);
    let merge = scheduled(alloc, plan, &replays, &mut schedule)?;
    match first_left(&replays, &merge) {
        Some(left) => Err(WeaveFault::Unwoven {
            office: left.0,
            entry: left.1,
        }),
        None => Ok(schedule),
    }
}

/// What a schedule leaves of which the journals are the record that these offices follow, one of each office, in order of number.
///
/// # Errors
/// As [`weave`].
pub fn woven(alloc: Global, plan: &Plan, replays: &[Replay]) -> Result<Record, WeaveFault>
    requires { length replays.now ≡ length plan.now.offices }
    ensures woven { IfOk result (λ r. (journals : List GivenJournal) → AreReplays plan.now journals replays.now → IsRecord plan.now journals replays.now r.sent.items r.finished.items) }
    ensures unwoven { IfErr result (λ fault. (journals : List GivenJournal) → AreReplays plan.now journals replays.now → IsUnwoven plan.now journals fault) }
    ensures never { IfErr result (λ fault. (fault ≡ faults.Memory) ⊎ ((journals : List GivenJournal) → AreReplays plan.now journals replays.now → (events : List WorldEvent) → IsWovenFrom plan.now journals events → ⊥)) }
{
    none_goes_further();
    numbers_tell_messages();
    // A plan has few offices.
    let _ = plan.offices();
    let mut finished = Vec::new(alloc);
    let merge = finishes(alloc, plan, replays, &mut finished)?;
    match first_left(replays, &merge) {
        Some(left) => Err(WeaveFault::Unwoven {
            office: left.0,
            entry: left.1,
        }),
        None => Ok(Record {
            sent: merge.into_sent(),
            finished,
        }),
    }
}

/// Each office follows its journal.
fn replays_of(
    alloc: Global,
    plan: &Plan,
    journals: &[GivenJournal],
) -> Result<Vec<Replay>, AllocError>
    requires { length journals.now ≡ length plan.now.offices }
    ensures { IfOk result (λ v. AreReplays plan.now journals.now v.items) }
{
    let mut replays = Vec::with_capacity(alloc, plan.offices())?;
    for a in 0..plan.offices() {
        let replay = replayed(alloc, plan, OfficeId::new(a as u8), &journals[a])?;
        replays.push(replay)?;
    }
    Ok(replays)
}

/// The schedule, event by event, up to where each office is stuck.
fn scheduled(
    alloc: Global,
    plan: &Plan,
    replays: &[Replay],
    schedule: &mut Vec<WorldEvent>,
) -> Result<Merge, AllocError>
    requires one_each { length replays.now ≡ length plan.now.offices }
    requires empty { schedule.old.items ≡ [] }
    ensures size { IfOk result (λ m. length m.at.items ≡ length replays.now) }
    ensures end { IfOk result (λ m. IsAtEnd ⟦<FrameKey as Ord>⟧.cmp replays.now plan.now m schedule.new.items) }
{
    let mut merge = Merge::new(alloc, plan.offices())?;
    while let Some(event) = merge.next(replays)? {
        schedule.push(event)?;
    }
    Ok(merge)
}

/// The offices at which the sessions of the same schedule finish.
fn finishes(
    alloc: Global,
    plan: &Plan,
    replays: &[Replay],
    finished: &mut Vec<OfficeId>,
) -> Result<Merge, AllocError>
    requires one_each { length replays.now ≡ length plan.now.offices }
    requires empty { finished.old.items ≡ [] }
    ensures size { IfOk result (λ m. length m.at.items ≡ length replays.now) }
    ensures end { IfOk result (λ m. (es : List WorldEvent) × (finishers es ≡ finished.new.items) × IsAtEnd ⟦<FrameKey as Ord>⟧.cmp replays.now plan.now m es) }
{
    let mut merge = Merge::new(alloc, plan.offices())?;
    while let Some(event) = merge.next(replays)? {
        note(finished, event)?;
    }
    Ok(merge)
}

/// The office at which a session finishes by this event, if one does. The event isn't needed after that.
fn note(finished: &mut Vec<OfficeId>, event: WorldEvent) -> Result<(), AllocError>
    ensures { OnOk result (finished.new.items ≡ finished.old.items ++ finishes_at event) }
{
    note_event(finished, &event)
}

fn note_event(finished: &mut Vec<OfficeId>, event: &WorldEvent) -> Result<(), AllocError>
    ensures { OnOk result (finished.new.items ≡ finished.old.items ++ finishes_at event.now) }
{
    match event {
        WorldEvent::Do(office, rule) => note_rule(finished, *office, rule),
        _ => Ok(()),
    }
}

/// The office, where it finishes a session by this rule.
fn note_rule(finished: &mut Vec<OfficeId>, office: OfficeId, rule: &Rule) -> Result<(), AllocError>
    ensures { OnOk result (finished.new.items ≡ finished.old.items ++ finishes_by office rule.now) }
{
    match rule {
        Rule::Finish => {
            finished.push(office)?;
            Ok(())
        }
        _ => Ok(()),
    }
}
