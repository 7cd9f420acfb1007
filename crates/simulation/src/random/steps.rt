//! One step of a random run.

ghost use Rattle.std.specs.Prelude.{◌≡◌, ◌≢◌, ◌<◌, ◌≤◌, ℕ, Err, OnOk, length};
ghost use Rattle.office_journal.specs.declared.reply.Refusal.TheVariants as refused;
ghost use Rattle.frame_world.specs.declared.refusal.WorldRefusal.TheVariants as refusal;
ghost use Rattle.simulation.specs.random.Runs.{messages_at};
ghost use Rattle.simulation.specs.random.refinement.Steps.{Steps, messages_below};

use crate::random::draws::Draws;
use frame_world::WorldRefusal;
use office_map::OfficeId;
use site_core::{Office, Reply};
use std::alloc::AllocError;
use world_schedule::World;

/// How many of the frames that were sent last may come.
const LAST_FRAMES: usize = 64;

/// An office does the rule that comes next there, or it sends a message that waits, or a frame comes; or the frame is lost.
/// Which of these, where, and what, is drawn. Where there is none of the kind that was drawn, nothing happens.
///
/// The kind is drawn first, one of three, each as likely; then the office of a rule or of a sending, and then one of
/// the messages that wait there, for whichever neighbour.
pub(crate) fn step(world: &mut World, draws: &mut Draws, loss: u64) -> Result<(), AllocError>
    ensures { OnOk result (Steps loss world.old world.new) }
{
    match draws.below(3) {
        0 => rule(world, draws),
        1 => send(world, draws),
        _ => deliver(world, draws, loss),
    }
}

/// A drawn office does the rule that comes next there.
fn rule(world: &mut World, draws: &mut Draws) -> Result<(), AllocError>
    ensures { OnOk result ((loss : ℕ) → Steps loss world.old world.new) }
{
    let office = office(world, draws);
    let Some(rule) = world.office(office).next_rule() else {
        return Ok(());
    };
    let answer = world.act(office, &rule);
    unless_memory(&answer)
}

/// A drawn office makes a frame of a drawn one of the messages that wait there.
fn send(world: &mut World, draws: &mut Draws) -> Result<(), AllocError>
    ensures { OnOk result ((loss : ℕ) → Steps loss world.old world.new) }
{
    let office = office(world, draws);
    let offices = world.plan().offices() as u8;
    let count = waiting(world.office(office), offices);
    if count == 0 {
        return Ok(());
    }
    let (neighbour, i) = message(world.office(office), offices, draws.below(count));
    let answer = world.send(office, neighbour, i);
    unless_memory(&answer)
}

/// A drawn one of the last frames comes, unless it is lost.
///
/// The frame is drawn first, counted back from the last one, and then a number below a hundred: it is lost where that
/// is below the loss. A frame that was lost may be drawn again: it stays among the last. One of the count alone is
/// never made here, so counts go with messages.
fn deliver(world: &mut World, draws: &mut Draws, loss: u64) -> Result<(), AllocError>
    ensures { OnOk result (Steps loss world.old world.new) }
{
    let frames = world.frames();
    if frames == 0 {
        return Ok(());
    }
    let later = draws.below(frames.min(LAST_FRAMES));
    if (draws.below(100) as u64) < loss {
        return Ok(());
    }
    let answer = world.deliver(frames - later);
    unless_memory(&answer)
}

/// A drawn office.
fn office(world: &World, draws: &mut Draws) -> OfficeId
    ensures { result < length world.now.plan.offices }
{
    OfficeId::new(draws.below(world.plan().offices()) as u8)
}

/// How many messages wait at an office, for any of so many.
fn waiting(office: &Office, offices: u8) -> usize
    ensures { result ≡ messages_below office.now offices }
{
    let mut count: usize = 0;
    for v in 0..offices {
        count += waiting_for(office, v);
    }
    count
}

/// The message that comes after so many, of those that wait at an office: for which neighbour, and as which of those, from 1.
fn message(office: &Office, offices: u8, place: usize) -> (OfficeId, usize)
    requires { place < messages_below office.now offices }
    ensures inside { result.0 < offices }
    ensures first { 0 < result.1 }
    ensures waits { result.1 ≤ messages_at office.now result.0 }
{
    let mut left = place;
    for v in 0..offices {
        let here = waiting_for(office, v);
        if left < here {
            return (OfficeId::new(v), left + 1);
        }
        left -= here;
    }
    (office.number(), 0)
}

/// How many messages wait at an office for the one of this number.
fn waiting_for(office: &Office, v: u8) -> usize
    ensures count { result ≡ messages_at office.now v }
    ensures few { result ≤ 18 }
{
    match office.waiting(OfficeId::new(v)) {
        Some((_, count)) => count,
        None => 0,
    }
}

/// Whatever was answered: the run goes on, unless memory ran out.
pub(crate) fn unless_memory(answer: &Result<Reply, WorldRefusal>) -> Result<(), AllocError>
    ensures { OnOk result (answer.now ≢ Err (refusal.Office refused.Memory)) }
{
    match answer {
        Err(WorldRefusal::Office(site_core::Refusal::Memory)) => Err(AllocError),
        _ => Ok(()),
    }
}
