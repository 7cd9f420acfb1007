//! Bytes of a client's stream, as they come.

ghost use Rattle.std.specs.Prelude.{◌≡◌, ◌==◌, ◌++◌, ◌<◌, [], ℕ, All, IfOk, OnOk, false, length};
ghost use Rattle.office_map.specs.PlanValue.{PlanValue};
ghost use Rattle.session_streams.specs.requests.Bytes.{at_end, line_asks, line_ended, next_line, nothing_taken, taken};
ghost use Rattle.session_streams.specs.requests.refinement.{Takes, taking_of};

use crate::requests::asked::Asked;
use crate::requests::line_number::LineNumber;
use crate::requests::requests::RequestReader;
use office_map::{OfficeId, Plan};
use session_language::limits::TEXT_LIMIT;
use std::alloc::{AllocError, Global};
use std::collections::VecDeque;
use text_lines::{Statements, place_of};

/// The longest line, in bytes: as long as a text may be.
const LONGEST_LINE: usize = TEXT_LIMIT;

/// A client's stream of bytes: what its lines asked for so far, and what came of the next one.
#[derive(Drop)]
pub struct Intake {
    requests: RequestReader,
    /// The number of the line that comes.
    number: LineNumber,
    /// Its bytes so far.
    ahead: Vec<u8>,
    /// It is too long, which was told: the rest of it is passed over.
    skips: bool,
}

impl Intake {
    /// A stream of which nothing came.
    pub fn new(alloc: Global) -> Intake
        ensures { taking_of result ≡ nothing_taken }
    {
        Intake {
            requests: RequestReader::new(alloc),
            number: LineNumber::first(),
            ahead: Vec::new(alloc),
            skips: false,
        }
    }

    /// Takes bytes that came to the office `me`. What is asked by them goes to the end of what was asked.
    pub fn take(
        &mut self,
        alloc: Global,
        plan: &Plan,
        me: OfficeId,
        bytes: &[u8],
        asked: &mut VecDeque<Asked>,
    ) -> Result<(), AllocError>
        ensures state { OnOk result (taking_of self.new ≡ (taken plan.now me (taking_of self.old) bytes.now).0) }
        ensures asked { OnOk result (asked.new.items ≡ asked.old.items ++ (taken plan.now me (taking_of self.old) bytes.now).1) }
    {
        let mut rest = bytes;
        while !rest.is_empty() {
            rest = self.take_part(alloc, plan, me, rest, asked)?;
        }
        Ok(())
    }

    /// Takes what comes up to the end of its line, and answers what comes after that.
    fn take_part<'a>(
        &mut self,
        alloc: Global,
        plan: &Plan,
        me: OfficeId,
        bytes: &'a [u8],
        asked: &mut VecDeque<Asked>,
    ) -> Result<&'a [u8], AllocError>
        requires some { 0 < length bytes.now }
        ensures takes { IfOk result (λ rest. Takes plan.now me (taking_of self.old) asked.old.items bytes.now (taking_of self.new) asked.new.items rest.now) }
        ensures shorter { IfOk result (λ rest. length rest.now < length bytes.now) }
    {
        let at = place_of(bytes, b'\n');
        if at < bytes.len() {
            self.keep(alloc, &bytes[..at], asked)?;
            self.end_line(alloc, plan, me, asked)?;
            return Ok(bytes.split_at(at + 1).1);
        }
        self.keep(alloc, bytes, asked)?;
        Ok(&[])
    }

    /// The stream has ended. Its last line may lack its end.
    pub fn end(
        &mut self,
        alloc: Global,
        plan: &Plan,
        me: OfficeId,
        asked: &mut VecDeque<Asked>,
    ) -> Result<(), AllocError>
        ensures { OnOk result (asked.new.items ≡ asked.old.items ++ at_end plan.now me (taking_of self.old)) }
    {
        if self.skips {
            self.begin_line();
        } else if !self.ahead.is_empty() {
            self.take_line(alloc, plan, me, asked)?;
        }
        self.requests.give_up(alloc, self.number.value(), asked)
    }

    /// Bytes of the line that comes, among which its end isn't.
    fn keep(
        &mut self,
        alloc: Global,
        part: &[u8],
        asked: &mut VecDeque<Asked>,
    ) -> Result<(), AllocError>
        requires { All (λ b. (b == 10) ≡ false) part.now }
        ensures state { OnOk result ((p : PlanValue) (me : ℕ) → taking_of self.new ≡ (taken p me (taking_of self.old) part.now).0) }
        ensures asked { OnOk result ((p : PlanValue) (me : ℕ) → asked.new.items ≡ asked.old.items ++ (taken p me (taking_of self.old) part.now).1) }
    {
        if self.skips {
            return Ok(());
        }
        if part.len() > LONGEST_LINE.saturating_sub(self.ahead.len()) {
            self.skips = true;
            self.ahead.clear();
            return self.requests.pass_over(alloc, self.number.value(), asked);
        }
        self.ahead.extend_from_slice(part)
    }

    /// The line that comes has come.
    fn end_line(
        &mut self,
        alloc: Global,
        plan: &Plan,
        me: OfficeId,
        asked: &mut VecDeque<Asked>,
    ) -> Result<(), AllocError>
        ensures state { OnOk result (taking_of self.new ≡ (line_ended plan.now me (taking_of self.old)).0) }
        ensures asked { OnOk result (asked.new.items ≡ asked.old.items ++ (line_ended plan.now me (taking_of self.old)).1) }
    {
        if self.skips {
            self.begin_line();
            return Ok(());
        }
        let Ok(()) = self.ahead.push(b'\n') else {
            return Err(AllocError);
        };
        self.take_line(alloc, plan, me, asked)
    }

    /// Takes the line whose bytes are there.
    fn take_line(
        &mut self,
        alloc: Global,
        plan: &Plan,
        me: OfficeId,
        asked: &mut VecDeque<Asked>,
    ) -> Result<(), AllocError>
        ensures state { OnOk result (taking_of self.new ≡ (next_line (taking_of self.old) (line_asks plan.now me (taking_of self.old) (taking_of self.old).ahead)).0) }
        ensures asked { OnOk result (asked.new.items ≡ asked.old.items ++ (line_asks plan.now me (taking_of self.old) (taking_of self.old).ahead).1) }
    {
        let line = Statements {
            rest: self.ahead.as_slice(),
            number: self.number.value(),
        };
        self.requests.take_lines(alloc, plan, me, line, asked)?;
        self.begin_line();
        Ok(())
    }

    /// The next line begins.
    fn begin_line(&mut self)
        ensures { taking_of self.new ≡ (next_line (taking_of self.old) ((taking_of self.old).asking, [])).0 }
    {
        self.ahead.clear();
        self.skips = false;
        self.number = self.number.next();
    }
}
