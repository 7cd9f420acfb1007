//! A client's lines, and what is asked by them.

ghost use Rattle.std.specs.Prelude.{◌≡◌, ◌<◌, ◌+◌, ◌^◌, ◌++◌, ◌∷◌, [], OnOk, if◌then◌else◌, length, map};
ghost use Rattle.text_lines.specs.Text.{lines, statements_from};
ghost use Rattle.session_streams.specs.Streams.{Came};
ghost use Rattle.session_streams.specs.refinement.{faults_of, told_of};
ghost use Rattle.session_streams.specs.requests.Requests.{NoTicket, quiet, ask, ask_all, ask_session, asked_first, asked_of, given_up, looked, misread, overlong, spoiled, stray, ticket_left, told_ticket, unused, waits, with_ticket};
ghost use Rattle.session_streams.specs.requests.refinement.{asking_of, ticket_of};

use crate::requests::asked::Asked;
use crate::requests::lines::{Line, line_of, record_in, ticket_in};
use crate::{Heard, SessionReader, begins_session};
use office_map::{OfficeId, Plan, RecordId};
use session_language::{Program, SessionRefusal, SessionRule};
use std::alloc::{AllocError, Global};
use std::collections::VecDeque;
use text_lines::Statements;

/// What stands before the next session: no line `ticket`, one with this ticket, or one that can't be read.
#[derive(Clone, Copy, PartialEq, Eq)]
pub(crate) enum Ticket {
    None,
    Of(u32),
    Misread,
}

/// A client's stream of lines.
#[derive(Drop)]
pub struct RequestReader {
    sessions: SessionReader,
    ticket: Ticket,
}

impl RequestReader {
    /// A stream of which nothing came.
    pub fn new(alloc: Global) -> RequestReader
        ensures { asking_of result ≡ quiet }
    {
        RequestReader {
            sessions: SessionReader::new(alloc),
            ticket: Ticket::None,
        }
    }

    /// Takes the next line that says something, which has this number, to the office `me`. What is asked by it goes to the end of
    /// what was asked.
    pub fn take_line(
        &mut self,
        alloc: Global,
        plan: &Plan,
        me: OfficeId,
        number: u64,
        line: &[u8],
        asked: &mut VecDeque<Asked>,
    ) -> Result<(), AllocError>
        ensures state { OnOk result (asking_of self.new ≡ (ask plan.now me (asking_of self.old) (number, line.now)).0) }
        ensures asked { OnOk result (asked.new.items ≡ asked.old.items ++ (ask plan.now me (asking_of self.old) (number, line.now)).1) }
    {
        match line_of(line) {
            Line::Ticket(rest) => {
                self.give_up(alloc, number, asked)?;
                self.take_ticket(alloc, number, ticket_in(rest), asked)
            }
            Line::Look(rest) => {
                self.give_up(alloc, number, asked)?;
                take_look(number, record_in(plan, me, rest), asked)
            }
            Line::Session => self.take_session(alloc, plan, number, line, asked),
        }
    }

    /// Takes lines, of which those that say something are the next.
    pub fn take_lines(
        &mut self,
        alloc: Global,
        plan: &Plan,
        me: OfficeId,
        said: Statements<'_>,
        asked: &mut VecDeque<Asked>,
    ) -> Result<(), AllocError>
        requires numbered { said.number + length said.rest.now < 2 ^ 64 }
        ensures state { OnOk result (asking_of self.new ≡ (ask_all plan.now me (asking_of self.old) (statements_from said.entry.number (lines said.entry.rest.now))).0) }
        ensures asked { OnOk result (asked.new.items ≡ asked.old.items ++ (ask_all plan.now me (asking_of self.old) (statements_from said.entry.number (lines said.entry.rest.now))).1) }
    {
        let mut left = said;
        while let Some((number, line)) = left.next() {
            self.take_line(alloc, plan, me, number, line, asked)?;
        }
        Ok(())
    }

    /// The line with this number is one that is too long. What it would have asked for isn't known: lines are passed over.
    pub fn pass_over(
        &mut self,
        alloc: Global,
        number: u64,
        asked: &mut VecDeque<Asked>,
    ) -> Result<(), AllocError>
        ensures state { OnOk result (asking_of self.new ≡ (overlong number (asking_of self.old)).0) }
        ensures asked { OnOk result (asked.new.items ≡ asked.old.items ++ (overlong number (asking_of self.old)).1) }
    {
        self.ticket = left_over(self.sessions.is_open(), self.ticket);
        self.sessions.pass_over(alloc);
        put_misread(SessionRule::TooLong, number, asked)
    }

    /// What is open is given up, where the line with this number comes instead of its own, or would come if the stream didn't end.
    pub fn give_up(
        &mut self,
        alloc: Global,
        number: u64,
        asked: &mut VecDeque<Asked>,
    ) -> Result<(), AllocError>
        ensures state { OnOk result (asking_of self.new ≡ quiet) }
        ensures asked { OnOk result (asked.new.items ≡ asked.old.items ++ given_up number (asking_of self.old)) }
    {
        let ticket = self.ticket;
        self.ticket = Ticket::None;
        match self.sessions.cut_off(alloc, number) {
            Some(fault) => put(Asked::Misread(fault), asked),
            None => put_unused(number, ticket, asked),
        }
    }

    /// A line `ticket`, with its ticket if it can be read.
    fn take_ticket(
        &mut self,
        alloc: Global,
        number: u64,
        ticket: Option<u32>,
        asked: &mut VecDeque<Asked>,
    ) -> Result<(), AllocError>
        ensures state { OnOk result (asking_of self.new ≡ with_ticket (asking_of self.old) ticket) }
        ensures asked { OnOk result (asked.new.items ≡ asked.old.items ++ told_ticket number ticket) }
    {
        match ticket {
            Some(ticket) => {
                self.ticket = Ticket::Of(ticket);
                Ok(())
            }
            None => {
                self.ticket = Ticket::Misread;
                self.sessions.pass_over(alloc);
                put_misread(SessionRule::Syntax, number, asked)
            }
        }
    }

    /// A line of sessions.
    fn take_session(
        &mut self,
        alloc: Global,
        plan: &Plan,
        number: u64,
        line: &[u8],
        asked: &mut VecDeque<Asked>,
    ) -> Result<(), AllocError>
        ensures state { OnOk result (asking_of self.new ≡ (ask_session plan.now (asking_of self.old) (number, line.now)).0) }
        ensures asked { OnOk result (asked.new.items ≡ asked.old.items ++ (ask_session plan.now (asking_of self.old) (number, line.now)).1) }
    {
        if self.waits() && !begins_session(line) && !self.sessions.is_open() {
            return self.take_stray(alloc, number, asked);
        }
        let heard = self.sessions.take_line(alloc, plan, number, line)?;
        self.put_heard(heard, asked)
    }

    /// What is heard of a line.
    fn put_heard(&mut self, heard: Heard, asked: &mut VecDeque<Asked>) -> Result<(), AllocError>
        ensures state { OnOk result (asking_of self.new ≡ record (asking_of self.old) { ticket = ticket_left (asking_of self.old).ticket (told_of heard) }) }
        ensures asked { OnOk result (asked.new.items ≡ asked.old.items ++ asked_of (asking_of self.old).ticket (told_of heard)) }
    {
        let Heard { cut, closed, fault } = heard;
        self.put_fault(cut, asked)?;
        self.put_closed(closed, asked)?;
        self.put_fault(fault, asked)
    }

    /// Sessions that are closed. The first has the ticket that stands before it, the others have none.
    fn put_closed(
        &mut self,
        closed: Vec<Program>,
        asked: &mut VecDeque<Asked>,
    ) -> Result<(), AllocError>
        ensures state { OnOk result (asking_of self.new ≡ record (asking_of self.old) { ticket = ticket_left (asking_of self.old).ticket (map Came closed.items) }) }
        ensures asked { OnOk result (asked.new.items ≡ asked.old.items ++ asked_of (asking_of self.old).ticket (map Came closed.items)) }
    {
        for program in closed {
            self.put_session(program, asked)?;
        }
        Ok(())
    }

    /// Whether a line `ticket` waits for its session.
    fn waits(&self) -> bool
        ensures { result ≡ waits (asking_of self.now).ticket }
    {
        !matches!(self.ticket, Ticket::None)
    }

    /// A line that stands between a line `ticket` and its session, where none may.
    fn take_stray(
        &mut self,
        alloc: Global,
        number: u64,
        asked: &mut VecDeque<Asked>,
    ) -> Result<(), AllocError>
        ensures state { OnOk result (asking_of self.new ≡ (stray number (asking_of self.old).ticket).0) }
        ensures asked { OnOk result (asked.new.items ≡ asked.old.items ++ (stray number (asking_of self.old).ticket).1) }
    {
        let ticket = self.ticket;
        self.ticket = Ticket::Misread;
        self.sessions.pass_over(alloc);
        put_unused(number, ticket, asked)
    }

    /// A fault, if there is one. The next session has no ticket then.
    fn put_fault(
        &mut self,
        fault: Option<SessionRefusal>,
        asked: &mut VecDeque<Asked>,
    ) -> Result<(), AllocError>
        ensures state { OnOk result (asking_of self.new ≡ record (asking_of self.old) { ticket = ticket_left (asking_of self.old).ticket (faults_of fault) }) }
        ensures asked { OnOk result (asked.new.items ≡ asked.old.items ++ asked_of (asking_of self.old).ticket (faults_of fault)) }
    {
        let Some(fault) = fault else {
            return Ok(());
        };
        self.ticket = Ticket::None;
        put(Asked::Misread(fault), asked)
    }

    /// A session, with the ticket that stands before it. The next one has none.
    fn put_session(
        &mut self,
        program: Program,
        asked: &mut VecDeque<Asked>,
    ) -> Result<(), AllocError>
        ensures state { OnOk result (asking_of self.new ≡ record (asking_of self.old) { ticket = NoTicket }) }
        ensures asked { OnOk result (asked.new.items ≡ asked.old.items ++ asked_first (asking_of self.old).ticket (Came program)) }
    {
        let ticket = self.ticket;
        self.ticket = Ticket::None;
        match ticket {
            Ticket::None => put(Asked::Session(program), asked),
            Ticket::Of(ticket) => put(Asked::Numbered(ticket, program), asked),
            Ticket::Misread => Ok(()),
        }
    }
}

/// What stands before the next session where a line is passed over: a ticket whose session is open was its, any other can't be
/// used any more.
fn left_over(is_open: bool, ticket: Ticket) -> Ticket
    ensures { ticket_of result ≡ (if is_open then NoTicket else spoiled (ticket_of ticket)) }
{
    if is_open {
        return Ticket::None;
    }
    match ticket {
        Ticket::None => Ticket::None,
        Ticket::Of(_) | Ticket::Misread => Ticket::Misread,
    }
}

/// A line `value`, with its record if it can be read.
fn take_look(
    number: u64,
    found: Result<RecordId, SessionRule>,
    asked: &mut VecDeque<Asked>,
) -> Result<(), AllocError>
    ensures { OnOk result (asked.new.items ≡ asked.old.items ++ looked number found) }
{
    match found {
        Ok(id) => put(Asked::Look(id), asked),
        Err(rule) => put_misread(rule, number, asked),
    }
}

/// A ticket for which no session came before the line with this number; one that couldn't be read was told.
fn put_unused(number: u64, ticket: Ticket, asked: &mut VecDeque<Asked>) -> Result<(), AllocError>
    ensures { OnOk result (asked.new.items ≡ asked.old.items ++ unused number (ticket_of ticket)) }
{
    match ticket {
        Ticket::Of(_) => put_misread(SessionRule::Syntax, number, asked),
        Ticket::None | Ticket::Misread => Ok(()),
    }
}

fn put_misread(rule: SessionRule, line: u64, asked: &mut VecDeque<Asked>) -> Result<(), AllocError>
    ensures { OnOk result (asked.new.items ≡ asked.old.items ++ misread rule line) }
{
    put(Asked::Misread(SessionRefusal { rule, line }), asked)
}

fn put(one: Asked, asked: &mut VecDeque<Asked>) -> Result<(), AllocError>
    ensures { OnOk result (asked.new.items ≡ asked.old.items ++ one ∷ []) }
{
    let Ok(()) = asked.push_back(one) else {
        return Err(AllocError);
    };
    Ok(())
}
