//! Sessions are submitted as soon as their offices take them.

ghost use Rattle.std.specs.Prelude.{◌≡◌, ◌<◌, ◌-◌, ◌∷◌, [], ℕ, All, IfOk, IsOk, OnOk, false, length, map, take, true};
ghost use Rattle.frame_world.specs.declared.event.WorldEvent.TheVariants as events;
ghost use Rattle.frame_world.specs.Worlds.{happens, run_of};
ghost use Rattle.simulation.specs.random.Runs.{IsRefused, Leads};

use crate::random::steps::unless_memory;
use session_programs::Program;
use std::alloc::{AllocError, Global};
use world_schedule::World;

/// All sessions of the file, in order: none was submitted yet.
pub(crate) fn all_of(alloc: Global, programs: &[Program]) -> Result<Vec<&Program>, AllocError>
    ensures { IfOk result (λ v. map (λ p. p.now) v.items ≡ programs.now) }
{
    let mut waiting = Vec::new(alloc);
    for program in programs {
        waiting.push(program)?;
    }
    Ok(waiting)
}

/// Submits each session that waits and that its office takes, in order. Those that aren't taken go on waiting.
pub(crate) fn submit_waiting(
    world: &mut World,
    waiting: &mut Vec<&Program>,
) -> Result<(), AllocError>
    ensures leads { OnOk result ((loss : ℕ) → Leads loss 0 world.old world.new (map (λ p. p.now) waiting.old.items) (map (λ p. p.now) waiting.new.items)) }
    ensures refused { OnOk result (All (IsRefused world.new) (map (λ p. p.now) waiting.new.items)) }
{
    let mut place = 0;
    while place < waiting.len() {
        place = submit_at(world, waiting, place)?;
    }
    Ok(())
}

/// Submits the session at this place of those that wait, where its office takes it; it waits no more. Answers the place of the
/// next one.
fn submit_at(
    world: &mut World,
    waiting: &mut Vec<&Program>,
    place: usize,
) -> Result<usize, AllocError>
    requires { place < length waiting.now.items }
    ensures leads { OnOk result ((loss : ℕ) → Leads loss 0 world.old world.new (map (λ p. p.now) waiting.old.items) (map (λ p. p.now) waiting.new.items)) }
    ensures refused { IfOk result (λ next. All (IsRefused world.old) (map (λ p. p.now) (take place waiting.old.items)) → All (IsRefused world.new) (map (λ p. p.now) (take next waiting.new.items))) }
    ensures nearer { IfOk result (λ next. length waiting.new.items - next < length waiting.old.items - place) }
{
    if is_taken(world, waiting[place])? {
        waiting.remove(place);
        return Ok(place);
    }
    Ok(place + 1)
}

/// Submits a session at its office. Answers whether that took it; where it didn't, nothing happened.
fn is_taken(world: &mut World, program: &Program) -> Result<bool, AllocError>
    ensures taken { result ≡ Ok true → world.new ≡ run_of world.old (events.Submit program.now.office program.now ∷ []) }
    ensures accepted { result ≡ Ok true → IsOk (happens world.old (events.Submit program.now.office program.now)).0 }
    ensures refused { result ≡ Ok false → IsRefused world.new program.now }
    ensures unchanged { result ≡ Ok false → world.new ≡ world.old }
{
    let answer = world.submit(program.office(), program);
    unless_memory(&answer)?;
    match answer {
        Ok(_) => Ok(true),
        Err(_) => Ok(false),
    }
}
