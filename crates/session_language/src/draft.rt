//! A session that is open.

ghost use Rattle.session_language.specs.refinement.PartsRefinement.{parts_of};
ghost use Rattle.session_language.specs.refinement.KeptDraft.{IsKept};
ghost use Rattle.session_language.specs.refinement.UniqueProofs.{kept-prop};

use crate::adding::add_to;
use crate::builder::Builder;
use crate::fault::{SessionRule, Stop};
use crate::keyword::Keyword;
use crate::lexer::Pieces;
use crate::limits::MOST_GIVES;
use crate::parts::Parts;
use crate::scope::Scope;
use crate::spoken::{Spoken, speak};
use office_map::{OfficeId, Plan};
use session_programs::Program;
use session_programs::measures::measures::block_measures;
use session_programs::sizes::are_too_long;
use std::alloc::Global;

/// A session that is open, after each of its lines.
///
/// What holds of a program holds of a session that is open (`IsKept`): its statements so far, in all the blocks that
/// are open, are over the variables so far. A `let` in a block counts for every later line of the session, so the
/// variables that are known after a block are those that are known after its last line, whether that part runs or not.
#[derive(Drop)]
pub(crate) struct Draft {
    pub parts: Parts,
    ghost kept: { IsKept (parts_of parts) } by { kept-prop (parts_of parts) },
}

/// What an `end` leaves: an open session, or a program.
#[derive(Drop)]
pub(crate) enum Ended {
    Going(Draft),
    Closed(Program),
}

impl Draft {
    ghost use Rattle.std.specs.Prelude.{◌≡◌, [], vec_len};
    ghost use Rattle.session_language.specs.refinement.ResolvedStatements.{seen_spoken};
    ghost use Rattle.session_language.specs.refinement.ReaderRefinement.{draft_of, ended_of, Stops, with_statement};
    ghost use Rattle.bottle_values.specs.Memory.{UnlessMemory};
    ghost use Rattle.session_language.specs.Reading.{begun, add, turned_in, ended, closed};
    ghost use Rattle.session_language.specs.refinement.KeptDraft.{IsSpokenOver};
    ghost use Rattle.session_language.specs.Lexer.{pieces_of};

    /// A session with nothing in it yet.
    #[tactic(auto, using(crate::proofs::session_reading::KeptDrafts::kept_begun))]
    pub fn begun(alloc: Global, office: OfficeId) -> Draft
        ensures { draft_of result ≡ begun office }
    {
        Draft {
            parts: Parts::begun(alloc, office),
        }
    }

    /// Adds the first line of a statement, if the session stays within its limits. Where it is refused, nothing is left
    /// of the session.
    ///
    /// What the session needs and declares has to hold of it whenever a call returns, and nobody reads on after a
    /// refusal.
    pub fn add(&mut self, alloc: Global, spoken: Spoken) -> Result<(), Stop>
        requires { IsSpokenOver (vec_len self.old.parts.variables) (seen_spoken spoken) }
        ensures { UnlessMemory (λ _. draft_of self.new) Stops result (add (draft_of self.old) (seen_spoken spoken)) }
    {
        let added = add_to(alloc, &mut self.parts, spoken);
        if let Err(stop) = added {
            self.parts.clear();
            return Err(stop);
        }
        Ok(())
    }

    /// Takes the first line of a statement after a keyword.
    pub fn take(
        &mut self,
        alloc: Global,
        builder: &mut Builder,
        plan: &Plan,
        keyword: Keyword,
        pieces: Pieces<'_>,
    ) -> Result<(), Stop>
        ensures { UnlessMemory (λ _. draft_of self.new) Stops result (with_statement plan.now (draft_of self.old) keyword (pieces_of pieces.entry.rest.now)) }
    {
        let scope = Scope {
            plan,
            office: self.parts.office,
            variables: &self.parts.variables,
        };
        let spoken = speak(builder, alloc, &scope, keyword, pieces)?;
        self.add(alloc, spoken)
    }

    /// Takes an `else`.
    pub fn turned(self, alloc: Global) -> Result<Draft, Stop>
        ensures { UnlessMemory draft_of Stops result (turned_in (draft_of self) (draft_of self).outer) }
    {
        let Draft { parts } = self;
        Ok(Draft {
            parts: parts.turned(alloc)?,
        })
    }

    /// Takes an `end`.
    pub fn ended(self, alloc: Global) -> Result<Ended, Stop>
        ensures { UnlessMemory ended_of Stops result (ended (draft_of self)) }
    {
        if self.parts.outer.is_empty() {
            return Ok(Ended::Closed(self.close(alloc)?));
        }
        let Draft { parts } = self;
        Ok(Ended::Going(Draft {
            parts: parts.ended()?,
        }))
    }

    /// The program of a session that is closed, if it is within its limits.
    fn close(self, alloc: Global) -> Result<Program, Stop>
        requires { (draft_of self).outer ≡ [] }
        ensures { UnlessMemory (λ p. p) Stops result (closed (draft_of self)) }
    {
        if are_too_long(alloc, &self.parts.variables, &self.parts.statements)? {
            return Err(Stop::Refused(SessionRule::TooLong));
        }
        if block_measures(&self.parts.statements).gives > MOST_GIVES {
            return Err(Stop::Refused(SessionRule::TooManyGives));
        }
        let Draft { parts } = self;
        let Parts {
            office,
            variables,
            needs,
            outer: _,
            statements,
        } = parts;
        Ok(Program::of(alloc, office, variables, needs, statements)?)
    }
}
