//! Work on a session, in pieces.

ghost use Rattle.std.specs.Prelude.{◌≡◌, ◌+◌, ◌↔◌, ℕ, List, IfOk, IsSome, Some};
ghost use Rattle.std.specs.Option.{option_copied};
ghost use Rattle.bottle_values.specs.declared.Value as bottle;
ghost use Rattle.session_meaning.specs.ProgramValue.{ProgramValue};
ghost use Rattle.session_meaning.specs.Meaning.{alone};
ghost use Rattle.session_programs.specs.Room.{HasRoom};
ghost use Rattle.session_machine.specs.Pieces.{ending_after};
ghost use Rattle.session_machine.specs.Progress.{progress_by};
ghost use Rattle.session_programs.specs.refinement.Listing.{code_of};
ghost use Rattle.session_machine.specs.refinement.Work.{begun_on, piece, work_of, ending_in, IsOver};

use crate::machine::opened_in;
use crate::phase::Phase;
use crate::progress::Progress;
use crate::spare::Spare;
use session_meaning::{Ending, RecordValues};
use session_programs::Code;
use std::alloc::{AllocError, Global};
use std::marker::Model;
use std::mem;

/// Work on a session.
///
/// It is opaque to callers (`work_of`): a caller keeps the fact that its work is the program's work on these reads
/// after so many instructions, and each call says what becomes of that.
#[derive(Drop)]
pub struct Work {
    alloc: Global,
    phase: Phase,
    /// What is left once it ended. No contract sees it.
    spare: Option<Spare>,
}

impl Model for Work {
    ghost use Rattle.session_machine.specs.refinement.Work.{WorkValue};

    ghost Value = { WorkValue };

    ghost use Rattle.session_machine.specs.refinement.PhaseOfCode.{work_in};

    ghost view = { λ w. work_in w.phase };
}

impl Work {
    /// Begins the work on a session with these values of the records that it needs. It takes all
    /// the memory that the work needs.
    pub fn begin(alloc: Global, code: &Code, reads: RecordValues) -> Result<Work, AllocError>
        ensures begun { IfOk result (λ w. w ≡ begun_on code.now reads) }
        ensures work { (p : ProgramValue) → code.now ≡ code_of p → IfOk result (λ w. w ≡ work_of p reads 0) }
    {
        Work::begin_in(alloc, None, code, reads)
    }

    /// The same, in the memory of work that ended, as far as that reaches.
    pub fn begin_in(
        alloc: Global,
        spare: Option<Spare>,
        code: &Code,
        reads: RecordValues,
    ) -> Result<Work, AllocError>
        ensures begun { IfOk result (λ w. w ≡ begun_on code.now reads) }
        ensures work { (p : ProgramValue) → code.now ≡ code_of p → IfOk result (λ w. w ≡ work_of p reads 0) }
    {
        let state = opened_in(alloc, spare, code, &reads)?;
        Ok(Work {
            alloc,
            phase: Phase::AtWork(reads, state),
            spare: None,
        })
    }

    /// The memory of work that ended, for other work; none where it hasn't, or what it wrote and gave stands there.
    pub fn take_spare(&mut self) -> Option<Spare>
        ensures { self.new ≡ self.old }
    {
        mem::replace(&mut self.spare, None)
    }

    /// Does n instructions of the code that the work began with, or as many as there are.
    ///
    /// A piece of work that ended is no error: it answers `Ended` again and changes nothing.
    pub fn step(&mut self, code: &Code, n: u32) -> Progress
        ensures piece { self.new ≡ piece code.now n self.old }
        ensures told { result ≡ progress_by (ending_in self.new) }
        ensures over { (result ≡ Progress.Ended) ↔ IsOver self.new }
        ensures work { (p : ProgramValue) (reads : List (ℕ × bottle.Value)) (k : ℕ) → code.now ≡ code_of p → self.old ≡ work_of p reads k → self.new ≡ work_of p reads (k + n) }
        ensures progress { (p : ProgramValue) (reads : List (ℕ × bottle.Value)) (k : ℕ) → HasRoom p → code.now ≡ code_of p → self.old ≡ work_of p reads k → result ≡ progress_by (ending_after p reads (k + n)) }
    {
        match self.phase.advance(code, n) {
            None => self.phase.progress(),
            Some(end) => {
                self.spare = self.phase.close(self.alloc, end);
                self.phase.progress()
            }
        }
    }

    /// How the session ended, if it has.
    pub fn ending(&self) -> Option<&Ending>
        ensures shown { option_copied result ≡ ending_in self.now }
        ensures ending { (p : ProgramValue) (reads : List (ℕ × bottle.Value)) (k : ℕ) → HasRoom p → self.now ≡ work_of p reads k → option_copied result ≡ ending_after p reads k }
        ensures over { IsSome result ↔ IsOver self.now }
    {
        match &self.phase {
            Phase::Over(ending) => Some(ending),
            _ => None,
        }
    }

    /// How the session ended, once it has.
    pub fn into_ending(self) -> Ending
        requires { IsOver self }
        ensures shown { Some result ≡ ending_in self }
        ensures ending { (p : ProgramValue) (reads : List (ℕ × bottle.Value)) (k : ℕ) → HasRoom p → self ≡ work_of p reads k → result ≡ alone p reads }
    {
        let Work {
            alloc: _,
            phase,
            spare: _,
        } = self;
        match phase {
            Phase::Over(ending) => ending,
            _ => unreachable!(),
        }
    }
}
