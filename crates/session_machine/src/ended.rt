//! How work ended.

ghost use Rattle.std.specs.Prelude.{◌≡◌, [], false};
ghost use Rattle.session_meaning.specs.Meaning.{ending_of};
ghost use Rattle.session_machine.specs.refinement.Session.{step_of};
ghost use Rattle.session_machine.specs.refinement.StateOfCode.{space_of};

use crate::space::{AnySpace, has_given, into_effects, take_writes};
use crate::spare::Spare;
use crate::state::State;
use session_meaning::{End, Ending, Gives, RecordValues};
use std::alloc::Global;

/// The ending of a session that ended like this in this state, and the memory of its work, which other work may use.
///
/// It takes no memory: what the session wrote stands where room was kept for it as the work began. So does what it gave, and
/// then no memory is left for other work, since that needs room for as much.
#[tactic(auto, using(crate::proofs::EndingParts::put_together))]
pub fn closed(
    alloc: Global,
    end: End,
    reads: RecordValues,
    state: Box<State>,
) -> (Ending, Option<Spare>)
    ensures { result.0 ≡ ending_of reads (step_of end (space_of state.value.space).environment) }
{
    if gives(end, &state.space) {
        let State { space, .. } = Box::into_inner(state);
        return (ended(alloc, end, reads, space), None);
    }
    let mut state = state;
    let writes = written(alloc, end, &mut state.space);
    let ending = Ending {
        end,
        reads,
        writes,
        gives: Gives::new(alloc),
    };
    (ending, Some(Spare { state }))
}

/// Whether the ending of a session that ended like this has values that it gave.
fn gives(end: End, space: &AnySpace) -> bool
    ensures { result ≡ false → [] ≡ (ending_of [] (step_of end (space_of space.now).environment)).gives }
{
    match end {
        End::Done => has_given(space),
        End::Refused(_) | End::Overflow | End::Mismatch => false,
    }
}

/// What a session wrote that ended like this.
fn written(alloc: Global, end: End, space: &mut AnySpace) -> RecordValues
    ensures { result ≡ (ending_of [] (step_of end (space_of space.old).environment)).writes }
{
    match end {
        End::Done => take_writes(space, alloc),
        End::Refused(_) | End::Overflow | End::Mismatch => RecordValues::new(alloc),
    }
}

/// The ending of a session that ended like this. It takes no memory.
///
/// The room for all that a session may write and give is made as its work begins. So the last instruction makes the
/// `Ending`, and neither `Work::ending` nor `Work::into_ending` can fail.
fn ended(alloc: Global, end: End, reads: RecordValues, space: AnySpace) -> Ending
    ensures { result ≡ ending_of reads (step_of end (space_of space).environment) }
{
    let (writes, gives) = match end {
        End::Done => into_effects(space),
        _ => (RecordValues::new(alloc), Gives::new(alloc)),
    };
    Ending {
        end,
        reads,
        writes,
        gives,
    }
}
