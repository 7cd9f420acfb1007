//! The serial run of sessions.

ghost use Rattle.std.specs.Prelude.{
  ◌≡◌,
  ◌<◌,
  ◌+◌,
  ◌^◌,
  ℕ,
  IfOk,
  OnOk,
  All,
  IsTrue,
  length,
  map,
  replicate,
  get_or,
};
ghost use Rattle.std.proofs.Math.ListN.{set};
ghost use Rattle.bottle_values.specs.Maps.{put, write_all};
ghost use Rattle.bottle_values.specs.declared.Value as bottle;
ghost use Rattle.session_programs.specs.measures.Needs.{needs_of};
ghost use Rattle.session_programs.specs.Program.{fits};
ghost use Rattle.serial_replay.specs.Serial.{
  outcomes_of,
  map_of,
  start_map,
  ending_on,
  ListsValues,
};
ghost use Rattle.bottle_values.specs.Operations.{nought};

use crate::alone::alone;
use bottle_values::Value;
use office_map::{OfficeId, Plan, RecordId};
use session_meaning::{Ending, Outcome};
use session_programs::Program;
use std::alloc::{AllocError, Global};

/// What a serial run shows: how each session ended, in order, and the value that each record has then, in order of
/// number.
///
/// The meaning speaks of a map from records to values; the code has a list. `ListsValues` says that the list has the
/// map's value at each record of the plan, and as many as there are.
#[derive(Drop)]
pub struct Replay {
    pub outcomes: Vec<Outcome>,
    pub values: Vec<Value>,
}

/// Runs sessions one after another: the first on the plan's start values, and each next one on what the one before
/// left. Fails only where memory runs out.
///
/// There is a condition on how many programs there are: a ticket is a `u32`, and counts an office's programs from 1.
/// `read_sessions` answers at most 1,024 (clause `few`), so a caller that reads a text has nothing to show.
#[tactic(auto, using(crate::proofs::ValueTables::fits_records))]
pub fn serial(alloc: Global, plan: &Plan, programs: &[Program]) -> Result<Replay, AllocError>
    requires fit { All (λ p. IsTrue (fits plan.now p)) programs.now }
    requires few { length programs.now < 2 ^ 32 }
    ensures outcomes { IfOk result (λ r. r.outcomes.items ≡ outcomes_of (start_map plan.now) programs.now) }
    ensures values { IfOk result
        (λ r. ListsValues r.values.items (length plan.now.records) (map_of (start_map plan.now) programs.now)) }
{
    let mut values = start_values(alloc, plan)?;
    let mut counts = vec![in alloc; 0u32; plan.offices()]?;
    let mut outcomes = Vec::with_capacity(alloc, programs.len())?;
    for program in programs {
        let ending = ending_on(alloc, program, &values)?;
        write_all(&mut values, ending.writes.as_slice());
        let ticket = count_one(&mut counts, program.office());
        outcomes.push(Outcome {
            office: program.office(),
            ticket,
            ending,
        })?;
    }
    Ok(Replay { outcomes, values })
}

/// The values that the plan starts with.
#[tactic(auto, using(crate::proofs::ValueTables::start_more))]
fn start_values(alloc: Global, plan: &Plan) -> Result<Vec<Value>, AllocError>
    ensures { IfOk result (λ v. ListsValues v.items (length plan.now.records) (start_map plan.now)) }
{
    let mut values = Vec::with_capacity(alloc, plan.records())?;
    for r in 0..plan.records() {
        values.push(plan.start_value(RecordId::new(r as u16)))?;
    }
    Ok(values)
}

/// How a session ends on these values.
#[tactic(auto, using(crate::proofs::ValueTables::gathered), unfolding(crate::specs::Serial::ending_on))]
fn ending_on(alloc: Global, program: &Program, values: &[Value]) -> Result<Ending, AllocError>
    requires { All (λ r. r < length values.now) (needs_of program.now.body) }
    ensures { (m : ℕ → bottle.Value) → ListsValues values.now (length values.now) m → IfOk result (λ e. e ≡ ending_on program.now m) }
{
    let needed = values_of(alloc, program.needs(), values)?;
    alone(alloc, program, &needed)
}

/// The values of these records.
fn values_of(alloc: Global, needs: &[RecordId], values: &[Value]) -> Result<Vec<Value>, AllocError>
    requires { All (λ r. r < length values.now) needs.now }
    ensures { IfOk result (λ v. v.items ≡ map (λ r. get_or values.now r nought) needs.now) }
{
    let mut needed = Vec::with_capacity(alloc, needs.len())?;
    for id in needs {
        needed.push(values[id.index()])?;
    }
    Ok(needed)
}

/// The values after these writes, in order.
fn write_all(values: &mut Vec<Value>, writes: &[(RecordId, Value)])
    ensures { (n : ℕ) (m : ℕ → bottle.Value) → ListsValues values.old.items n m → ListsValues values.new.items n (write_all writes.now m) }
{
    for (id, value) in writes {
        put(values, *id, *value);
    }
}

/// A record that the table doesn't have is left out.
///
/// The caller's condition says that there is none. The bound is looked at all the same, since it costs one comparison
/// and spares every caller a proof.
fn put(values: &mut Vec<Value>, id: RecordId, value: Value)
    ensures { (n : ℕ) (m : ℕ → bottle.Value) → ListsValues values.old.items n m → ListsValues values.new.items n (put m id value) }
{
    if let Some(place) = values.get_mut(id.index()) {
        *place = value;
    }
}

/// Counts one more session of this office, and says how many that makes.
fn count_one(counts: &mut Vec<u32>, office: OfficeId) -> u32
    requires counted { office < length counts.old.items }
    requires room { get_or counts.old.items office 0 + 1 < 2 ^ 32 }
    ensures count { result ≡ get_or counts.old.items office 0 + 1 }
    ensures counts { counts.new.items ≡ set counts.old.items office result }
{
    let count = counts[office.index()] + 1;
    counts[office.index()] = count;
    count
}
