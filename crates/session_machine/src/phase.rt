//! What work keeps.

use crate::ended::closed;
use crate::machine;
use crate::progress::Progress;
use crate::spare::Spare;
use crate::state::State;
use session_meaning::{End, Ending, RecordValues};
use session_programs::Code;
use std::alloc::Global;
use std::mem;

/// A session that runs, with what it read, or how it ended. `Moved` stands only while a call is at
/// work on it.
#[derive(Drop)]
pub enum Phase {
    AtWork(RecordValues, Box<State>),
    Over(Ending),
    Moved,
}

impl Phase {
    ghost use Rattle.std.specs.Prelude.{◌≡◌, Some};
    ghost use Rattle.session_machine.specs.Progress.{progress_by};
    ghost use Rattle.session_machine.specs.refinement.Work.{piece, ending_in};
    ghost use Rattle.session_machine.specs.refinement.PhaseOfCode.{work_in, work_with};

    /// Does n instructions where a session runs, and tells how it ended with the last of them.
    pub fn advance(&mut self, code: &Code, n: u32) -> Option<End>
        ensures { work_with result self.new ≡ piece code.now n (work_in self.old) }
    {
        match self {
            Phase::AtWork(_, state) => machine::advance(state, code.lines(), n),
            _ => None,
        }
    }

    /// The session that runs has ended like this. What its work needs no longer is left for other work.
    pub fn close(&mut self, alloc: Global, end: End) -> Option<Spare>
        ensures { work_in self.new ≡ work_with (Some end) self.old }
    {
        let before = mem::replace(self, Phase::Moved);
        let (next, spare) = before.after(alloc, end);
        *self = next;
        spare
    }

    fn after(self, alloc: Global, end: End) -> (Phase, Option<Spare>)
        ensures { work_in result.0 ≡ work_with (Some end) self }
    {
        match self {
            Phase::AtWork(reads, state) => {
                let (ending, spare) = closed(alloc, end, reads, state);
                (Phase::Over(ending), spare)
            }
            other => (other, None),
        }
    }

    /// Whether the session's work goes on.
    pub fn progress(&self) -> Progress
        ensures { result ≡ progress_by (ending_in (work_in self.now)) }
    {
        match self {
            Phase::Over(_) => Progress::Ended,
            _ => Progress::Running,
        }
    }
}
