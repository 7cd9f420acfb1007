//! One session alone.

ghost use Rattle.std.specs.Prelude.{◌≡◌, IfOk, length, zip};
ghost use Rattle.session_programs.specs.measures.Needs.{needs_of};
ghost use Rattle.session_meaning.specs.Meaning.{alone, begun, ending_of, Goes};
ghost use Rattle.serial_replay.specs.refinement.WalkRefinement as walk;

use crate::environment::Environment;
use crate::evaluate::ROOM;
use crate::stop::Stop;
use crate::walk::walk_all;
use bottle_values::Value;
use office_map::RecordId;
use session_meaning::{End, Ending, Gives, RecordValues, Variables, WorkingCopy};
use session_programs::Program;
use std::alloc::{AllocError, Global};

/// What a session does alone, where these are the values of the records that it needs.
#[tactic(auto, unfolding(session_meaning::specs::Meaning::alone))]
pub fn alone(alloc: Global, program: &Program, values: &[Value]) -> Result<Ending, AllocError>
    requires { length values.now ≡ length (needs_of program.now.body) }
    ensures { IfOk result (λ e. e ≡ alone program.now (zip (needs_of program.now.body) values.now)) }
{
    let reads = reads_of(alloc, program.needs(), values)?;
    let mut environment = begun(alloc, program, &reads)?;
    let mut below = [0; ROOM];
    match walk_all(&mut environment, &mut below, program.tree()) {
        Ok(()) => Ok(done(reads, environment)),
        Err(Stop::Ended(end)) => Ok(Ending {
            end,
            reads,
            writes: RecordValues::new(alloc),
            gives: Gives::new(alloc),
        }),
        Err(Stop::Memory) => Err(AllocError),
    }
}

/// The records with their values.
fn reads_of(alloc: Global, needs: &[RecordId], values: &[Value]) -> Result<RecordValues, AllocError>
    requires { length values.now ≡ length needs.now }
    ensures { IfOk result (λ r. r ≡ zip needs.now values.now) }
{
    let mut reads = RecordValues::new(alloc);
    for i in 0..needs.len() {
        reads.push(needs[i], values[i])?;
    }
    Ok(reads)
}

/// What a session has as it begins.
fn begun(alloc: Global, program: &Program, reads: &RecordValues) -> Result<Environment, AllocError>
    ensures { IfOk result (λ d. walk.environment_of d ≡ begun program.now reads.now) }
{
    Ok(Environment {
        records: WorkingCopy::of(alloc, reads)?,
        variables: Variables::of(alloc, program.variables().len())?,
        gives: Gives::new(alloc),
    })
}

/// How a session ended that wasn't ended early.
fn done(reads: RecordValues, environment: Environment) -> Ending
    ensures { result ≡ ending_of reads (Goes (walk.environment_of environment)) }
{
    let Environment {
        records,
        variables: _,
        gives,
    } = environment;
    let writes = records.into_writes();
    Ending {
        end: End::Done,
        reads,
        writes,
        gives,
    }
}
