//! The code of a program.

ghost use Rattle.std.specs.Prelude.{◌≡◌, IfOk};
ghost use Rattle.session_programs.specs.Room.{HasRoom};
ghost use Rattle.session_programs.specs.refinement.Listing.{code_of};

use crate::code::Code;
use crate::program::Program;
use std::alloc::{AllocError, Global};

impl Code {
    /// The code of a program: what is kept with it, or what one pass over its statements makes. It depends on nothing else.
    ///
    /// The limits of the machine are asked of the tree (`HasRoom`), blocks included.
    #[tactic(auto, using(crate::proofs::ProgramsHaveRoom::has_room), unfolding(crate::specs::refinement::Listing::code_of))]
    pub fn of(alloc: Global, program: &Program) -> Result<Code, AllocError>
        ensures code { IfOk result (λ c. c ≡ code_of program.now) }
        ensures room { HasRoom program.now }
    {
        let statements = program.tree();
        match program.code() {
            Some(code) => Ok(code.shared()?),
            None => Code::of_statements(alloc, program.variables().len(), statements),
        }
    }
}
