//! Sessions from texts, line by line.

ghost use Rattle.std.specs.Prelude.{◌≡◌, [], is_some};
ghost use Rattle.office_map.specs.PlanValue.{PlanValue};
ghost use Rattle.session_language.specs.Lexer.{pieces_of};
ghost use Rattle.session_language.specs.Form.{name_alone, IsStatement};
ghost use Rattle.session_language.specs.refinement.ReaderRefinement.{reading_of, Stops};
ghost use Rattle.bottle_values.specs.Memory.{UnlessMemory};
ghost use Rattle.session_language.specs.Reading.{take_line, take_after};
ghost use Rattle.session_language.specs.Reading.{nothing_read};

use crate::builder::{Builder, Level, Stage, Sum};
use crate::draft::{Draft, Ended};
use crate::fault::{SessionRule, Stop};
use crate::keyword::{Keyword, keyword_of};
use crate::lexer::{Piece, Pieces};
use crate::limits::MOST_SESSIONS;
use office_map::Plan;
use session_meaning::NodeList;
use session_programs::Program;
use std::alloc::Global;
use std::mem;
use text_lines::{Guesses, ShortName, short_name};

/// The sessions that are closed, the one that is open, and the builder of expressions. After a refusal none reads on.
#[derive(Drop)]
pub struct Reader {
    pub(crate) builder: Builder,
    pub(crate) done: Vec<Program>,
    pub(crate) open_session: Option<Draft>,
}

impl Reader {
    /// A reader that has read nothing.
    pub fn new(alloc: Global) -> Reader
        ensures { reading_of result ≡ nothing_read }
    {
        Reader {
            builder: Builder {
                outer: Vec::new(alloc),
                stage: Stage::Wants(Level {
                    sum: Sum::Nothing,
                    product: None,
                    minuses: 0,
                }),
                nodes: NodeList::new(alloc),
                guesses: Guesses::new(),
            },
            done: Vec::new(alloc),
            open_session: None,
        }
    }

    /// The sessions that are closed.
    pub fn into_done(self) -> Vec<Program>
        ensures { result.items ≡ (reading_of self).done }
    {
        let Reader {
            builder: _,
            done,
            open_session: _,
        } = self;
        done
    }

    /// The sessions that are closed: nothing is left of them here.
    pub fn take_done(&mut self, alloc: Global) -> Vec<Program>
        ensures taken { result.items ≡ (reading_of self.old).done }
        ensures left { reading_of self.new ≡ record { done = []; open_session = (reading_of self.old).open_session } }
    {
        mem::replace(&mut self.done, Vec::new(alloc))
    }

    /// Whether a session is open.
    pub fn is_open(&self) -> bool
        ensures { result ≡ is_some (reading_of self.now).open_session }
    {
        self.open_session.is_some()
    }

    /// Takes one line that says something.
    pub fn take_line(&mut self, alloc: Global, plan: &Plan, line: &[u8]) -> Result<(), Stop>
        ensures { UnlessMemory (λ _. reading_of self.new) Stops result (take_line plan.now (reading_of self.old) line.now) }
    {
        let mut pieces = Pieces { rest: line };
        let Some(Piece::Word(word)) = pieces.next() else {
            return Err(Stop::Refused(SessionRule::Syntax));
        };
        self.take_after(alloc, plan, keyword_of(word), pieces)
    }

    /// Takes what stands after the first word of a line.
    fn take_after(
        &mut self,
        alloc: Global,
        plan: &Plan,
        keyword: Keyword,
        pieces: Pieces<'_>,
    ) -> Result<(), Stop>
        ensures { UnlessMemory (λ _. reading_of self.new) Stops result (take_after plan.now (reading_of self.old) keyword (pieces_of pieces.entry.rest.now)) }
    {
        match keyword {
            Keyword::Session => self.take_opening(alloc, plan, pieces),
            Keyword::Else => self.take_otherwise(alloc, pieces),
            Keyword::End => self.take_closing(alloc, pieces),
            Keyword::Let
            | Keyword::Set
            | Keyword::Give
            | Keyword::Require
            | Keyword::If
            | Keyword::Repeat
            | Keyword::Other => self.take_statement(alloc, plan, keyword, pieces),
        }
    }

    fn take_opening(&mut self, alloc: Global, plan: &Plan, pieces: Pieces<'_>) -> Result<(), Stop>
        ensures { UnlessMemory (λ _. reading_of self.new) Stops result (take_after plan.now (reading_of self.old) Keyword.Session (pieces_of pieces.entry.rest.now)) }
    {
        let Some(name) = name_alone(pieces) else {
            return Err(Stop::Refused(SessionRule::Syntax));
        };
        if self.open_session.is_some() {
            return Err(Stop::Refused(SessionRule::Syntax));
        }
        let Some(office) = plan.office_of_name(&name) else {
            return Err(Stop::Refused(SessionRule::UnknownName));
        };
        if self.done.len() >= MOST_SESSIONS {
            return Err(Stop::Refused(SessionRule::TooLong));
        }
        self.open_session = Some(Draft::begun(alloc, office));
        Ok(())
    }

    fn take_statement(
        &mut self,
        alloc: Global,
        plan: &Plan,
        keyword: Keyword,
        pieces: Pieces<'_>,
    ) -> Result<(), Stop>
        requires { IsStatement keyword }
        ensures { UnlessMemory (λ _. reading_of self.new) Stops result (take_after plan.now (reading_of self.old) keyword (pieces_of pieces.entry.rest.now)) }
    {
        match &mut self.open_session {
            Some(draft) => draft.take(alloc, &mut self.builder, plan, keyword, pieces),
            None => Err(Stop::Refused(SessionRule::Syntax)),
        }
    }

    fn take_otherwise(&mut self, alloc: Global, pieces: Pieces<'_>) -> Result<(), Stop>
        ensures { (p : PlanValue) → UnlessMemory (λ _. reading_of self.new) Stops result (take_after p (reading_of self.old) Keyword.Else (pieces_of pieces.entry.rest.now)) }
    {
        let mut rest = pieces;
        if rest.next().is_some() {
            return Err(Stop::Refused(SessionRule::Syntax));
        }
        let Some(draft) = mem::replace(&mut self.open_session, None) else {
            return Err(Stop::Refused(SessionRule::Syntax));
        };
        self.open_session = Some(draft.turned(alloc)?);
        Ok(())
    }

    fn take_closing(&mut self, alloc: Global, pieces: Pieces<'_>) -> Result<(), Stop>
        ensures { (p : PlanValue) → UnlessMemory (λ _. reading_of self.new) Stops result (take_after p (reading_of self.old) Keyword.End (pieces_of pieces.entry.rest.now)) }
    {
        let mut rest = pieces;
        if rest.next().is_some() {
            return Err(Stop::Refused(SessionRule::Syntax));
        }
        let Some(draft) = mem::replace(&mut self.open_session, None) else {
            return Err(Stop::Refused(SessionRule::Syntax));
        };
        match draft.ended(alloc)? {
            Ended::Going(draft) => self.open_session = Some(draft),
            Ended::Closed(program) => self.done.push(program)?,
        }
        Ok(())
    }
}

/// A name, and nothing after it.
fn name_alone(pieces: Pieces<'_>) -> Option<ShortName>
    ensures { result ≡ name_alone (pieces_of pieces.entry.rest.now) }
{
    let mut rest = pieces;
    let Some(Piece::Word(word)) = rest.next() else {
        return None;
    };
    if rest.next().is_some() {
        return None;
    }
    short_name(word)
}
