//! A stream of lines, and what is heard of it.

ghost use Rattle.std.specs.Prelude.{◌≡◌, IfOk, None, is_some};
ghost use Rattle.session_streams.specs.Streams.{fresh, passing_over, begins_session, cut, read_on, hear};
ghost use Rattle.session_streams.specs.refinement.{faults_of, told_of, listening_of};

use office_map::Plan;
use session_language::keyword::{Keyword, keyword_of};
use session_language::lexer::{Piece, Pieces};
use session_language::{Program, Reader, SessionRefusal, SessionRule, Stop};
use std::alloc::{AllocError, Global};

/// What is heard of a line, in this order.
#[derive(Drop)]
pub struct Heard {
    /// The session that this line cuts off has no `end`.
    pub cut: Option<SessionRefusal>,
    /// The sessions that the line closes: one at most.
    pub closed: Vec<Program>,
    /// The line is faulty.
    pub fault: Option<SessionRefusal>,
}

/// A stream of lines: the session that is open, or that lines are passed over.
#[derive(Drop)]
pub struct SessionReader {
    reader: Reader,
    passing: bool,
}

impl SessionReader {
    /// A stream of which nothing came.
    pub fn new(alloc: Global) -> SessionReader
        ensures { listening_of result ≡ fresh }
    {
        SessionReader {
            reader: Reader::new(alloc),
            passing: false,
        }
    }

    /// Takes the next line that says something, which has this number.
    pub fn take_line(
        &mut self,
        alloc: Global,
        plan: &Plan,
        number: u64,
        line: &[u8],
    ) -> Result<Heard, AllocError>
        ensures { IfOk result (λ h. hear plan.now (listening_of self.old) (number, line.now) ≡ (listening_of self.new, told_of h)) }
    {
        if begins_session(line) {
            let cut = self.cut_off(alloc, number);
            let heard = self.read_on(alloc, plan, number, line)?;
            return Ok(Heard { cut, ..heard });
        }
        if self.passing {
            return Ok(Heard {
                cut: None,
                closed: Vec::new(alloc),
                fault: None,
            });
        }
        self.read_on(alloc, plan, number, line)
    }

    /// Whether a session is open.
    pub fn is_open(&self) -> bool
        ensures { result ≡ is_some (listening_of self.now).reading.open_session }
    {
        self.reader.is_open()
    }

    /// Passes lines over from now on, up to the next that begins with `session`. What was open is forgotten.
    pub fn pass_over(&mut self, alloc: Global)
        ensures { listening_of self.new ≡ passing_over }
    {
        self.reader = Reader::new(alloc);
        self.passing = true;
    }

    /// Begins anew: a session that is open has no `end` before the line with this number, where the stream ends or
    /// something else comes.
    pub fn cut_off(&mut self, alloc: Global, number: u64) -> Option<SessionRefusal>
        ensures told { faults_of result ≡ cut number (listening_of self.old).reading }
        ensures anew { listening_of self.new ≡ fresh }
    {
        let is_open = self.reader.is_open();
        self.reader = Reader::new(alloc);
        self.passing = false;
        if !is_open {
            return None;
        }
        Some(SessionRefusal {
            rule: SessionRule::Syntax,
            line: number,
        })
    }

    /// Reads a line as the next of the session that is open.
    fn read_on(
        &mut self,
        alloc: Global,
        plan: &Plan,
        number: u64,
        line: &[u8],
    ) -> Result<Heard, AllocError>
        ensures read { IfOk result (λ h. read_on plan.now (listening_of self.old).reading (number, line.now) ≡ (listening_of self.new, told_of h)) }
        ensures cuts_nothing { IfOk result (λ h. h.cut ≡ None) }
    {
        match self.reader.take_line(alloc, plan, line) {
            Ok(()) => {
                self.passing = false;
                Ok(Heard {
                    cut: None,
                    closed: self.reader.take_done(alloc),
                    fault: None,
                })
            }
            Err(Stop::Refused(rule)) => {
                self.pass_over(alloc);
                Ok(Heard {
                    cut: None,
                    closed: Vec::new(alloc),
                    fault: Some(SessionRefusal { rule, line: number }),
                })
            }
            Err(Stop::Memory) => Err(AllocError),
        }
    }
}

/// Whether a line's first word is `session`.
pub fn begins_session(line: &[u8]) -> bool
    ensures { result ≡ begins_session line.now }
{
    let mut pieces = Pieces { rest: line };
    let Some(Piece::Word(word)) = pieces.next() else {
        return false;
    };
    match keyword_of(word) {
        Keyword::Session => true,
        Keyword::Let
        | Keyword::Set
        | Keyword::Give
        | Keyword::Require
        | Keyword::If
        | Keyword::Else
        | Keyword::Repeat
        | Keyword::End
        | Keyword::Other => false,
    }
}
