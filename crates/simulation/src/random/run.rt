//! A random run, and what is printed of it.

ghost use Rattle.std.specs.Prelude.{◌≡◌, All, IfOk, OnOk, length, map};
ghost use Rattle.std.specs.String.{string_bytes};
ghost use Rattle.frame_world.specs.Headline.{IsReached};
ghost use Rattle.frame_world.specs.EveryWorld.{HasHeadline};
ghost use Rattle.simulation.specs.random.Runs.{IsRefused, IsRun, Tells};
ghost use Rattle.simulation.specs.random.refinement.Steps.{GoesOn};

use crate::random::draws::Draws;
use crate::random::schedule::Schedule;
use crate::random::steps::step;
use crate::random::submission::{all_of, submit_waiting};
use office_map::Plan;
use session_programs::Program;
use session_reports::form::Form;
use std::alloc::{AllocError, Global};
use world_schedule::World;
use world_schedule::reports::world::add_world;

/// What is told of a random run.
#[derive(Drop)]
pub struct Told {
    /// The world to which it leads.
    pub world: World,
    /// Its report.
    pub text: String,
}

/// The world to which a random run leads, and its report in that form: the finished sessions in finishing order, how many of these haven't
/// finished, and the records' values.
pub fn report(
    alloc: Global,
    form: Form,
    plan: &Plan,
    programs: &[Program],
    schedule: Schedule,
) -> Result<Told, AllocError>
    ensures { IfOk result (λ told. Tells form plan.now programs.now schedule.loss schedule.steps told.world (string_bytes told.text)) }
{
    let world = run(alloc, plan, programs, schedule)?;
    let unfinished = programs.len().saturating_sub(world.finished().len());
    let mut text = String::new(alloc);
    add_world(&mut text, form, &world, unfinished)?;
    Ok(Told { world, text })
}

/// The world to which a random run leads. Each session is submitted as soon as its office takes it. Where all have finished,
/// the steps that are left would change nothing of what is told, and aren't done.
pub fn run(
    alloc: Global,
    plan: &Plan,
    programs: &[Program],
    schedule: Schedule,
) -> Result<World, AllocError>
    ensures run { IfOk result (λ w. IsRun plan.now programs.now schedule.loss schedule.steps w) }
    ensures headline { IfOk result (λ w. HasHeadline w) }
{
    let mut world = World::open(alloc, plan.copy(alloc)?)?;
    let mut waiting = all_of(alloc, programs)?;
    let mut draws = Draws::from_seed(schedule.seed);
    submit_waiting(&mut world, &mut waiting)?;
    let mut done = 0;
    while done < schedule.steps {
        go_on(
            &mut world,
            &mut waiting,
            &mut draws,
            schedule.loss,
            programs.len(),
        )?;
        done += 1;
    }
    headline(&world);
    Ok(world)
}

/// One step, where fewer than all sessions have finished; and where one finishes by it, those that wait are submitted that an
/// office takes now.
///
/// An office refuses a session as long as none of its own finishes (that one starts leaves as many that are
/// unfinished), so only then are those that wait submitted again, in the same step.
fn go_on(
    world: &mut World,
    waiting: &mut Vec<&Program>,
    draws: &mut Draws,
    loss: u64,
    all: usize,
) -> Result<(), AllocError>
    requires { All (IsRefused world.now) (map (λ p. p.now) waiting.now.items) }
    ensures goes { OnOk result (GoesOn loss all world.old world.new (map (λ p. p.now) waiting.old.items) (map (λ p. p.now) waiting.new.items)) }
    ensures refused { OnOk result (All (IsRefused world.new) (map (λ p. p.now) waiting.new.items)) }
{
    let finished = world.finished().len();
    if finished >= all {
        return Ok(());
    }
    events_lead_to(world);
    step(world, draws, loss)?;
    if world.finished().len() == finished {
        return Ok(());
    }
    submit_waiting(world, waiting)?;
    Ok(())
}

/// Events led to it from its plan.
fn events_lead_to(world: &World)
    ensures { IsReached world.now }
{
    world.headline();
}

/// What holds of every world.
fn headline(world: &World)
    ensures { HasHeadline world.now }
{
    world.headline();
}
