//! The sessions of an office.

ghost use Rattle.std.specs.Prelude.{◌≡◌, ◌<◌, ◌+◌, ◌^◌, ◌↔◌, ℕ, List, Some, None, true, false, length, map, is_some, option_map, unwrap_or, IsSome, OnOk, OnErr, IfOk};
ghost use Rattle.std.specs.Option.{option_copied};
ghost use Rattle.bottle_values.specs.declared.Value as bottle;
ghost use Rattle.session_meaning.specs.ProgramValue.{ProgramValue};
ghost use Rattle.site_core.specs.declared.agendas.agenda.Phase.TheVariants as phases;
ghost use Rattle.site_core.specs.agendas.Agenda as sessions;
ghost use Rattle.site_core.specs.agendas.Agenda.{empty, unfinished, is_full, submitted, is_waiting, is_gathering, without_waiting, first_needs, started, gathering, begun, may_work, worked, ending_of, writes_of, with_current, finished};
ghost use Rattle.session_programs.specs.measures.Needs.{needs_of};
ghost use Rattle.bottle_values.specs.Maps.{reads_of};
ghost use Rattle.site_core.specs.agendas.refinement.AgendaOfCode.{Means};

use crate::agendas::limits::{LONGEST_PIECE, MAX_UNFINISHED};
use crate::agendas::session::Session;
use bottle_values::Value;
use office_map::{OfficeId, RecordId};
use session_machine::{Code, Spare, Work};
use session_meaning::{Ending, Outcome, RecordValues};
use session_programs::Program;
use std::alloc::{AllocError, Global};
use std::collections::VecDeque;
use std::marker::Model;
use std::mem;

/// How far an office is with its current session.
#[derive(Drop)]
pub enum Phase {
    /// It has none.
    Idle,
    /// It waits for the session's bottles.
    Gathering(Session),
    /// It works on the session.
    Working(Session, Code, Work),
}

/// The sessions of an office: those that wait, the current one, and how those ended that finished.
#[derive(Drop)]
pub struct Agenda {
    queue: VecDeque<Session>,
    tickets: u32,
    current: Phase,
    outcomes: Vec<Outcome>,
    /// The memory of the work that ended last, in which the next begins. No contract sees it.
    spare: Option<Spare>,
}

impl Model for Agenda {
    ghost use Rattle.std.specs.Prelude.{◌-◌, vec_len};
    ghost use Rattle.std.specs.Vec.{vec_capacity};
    ghost use Rattle.std.specs.Coded.{Coded, codes};
    ghost use Rattle.session_meaning.specs.declared.node.Node.{Node};
    ghost use Rattle.session_meaning.specs.refinement.TreeEncoding.{Mark, term_code, block_code};
    ghost use Rattle.site_core.specs.agendas.refinement.AgendaOfCode.{AgendaValue};

    ghost Value = { AgendaValue };

    ghost coded = { let nodes : Coded Node = Prim.hlevel codes in let marks : Coded Mark = Prim.hlevel (codes, term_code nodes) in Prim.hlevel (codes, block_code marks) };

    ghost view = { λ a. record { queue = a.queue.items; tickets = a.tickets; current = a.current; outcomes = a.outcomes.items; room = vec_capacity a.outcomes - vec_len a.outcomes } };
}

impl Agenda {
    /// No session was submitted.
    pub fn new(alloc: Global) -> Agenda
        ensures { Means result empty }
    {
        Agenda {
            queue: VecDeque::new(alloc),
            tickets: 0,
            current: Phase::Idle,
            outcomes: Vec::new(alloc),
            spare: None,
        }
    }

    /// Whether no session more is taken.
    pub fn is_full(&self) -> bool
        ensures { (a : sessions.Agenda) → Means self.now a → result ≡ is_full a }
    {
        self.unfinished() >= MAX_UNFINISHED
    }

    /// How many sessions are submitted and neither finished nor withdrawn.
    pub fn unfinished(&self) -> usize
        ensures { (a : sessions.Agenda) → Means self.now a → result ≡ unfinished a }
    {
        let current = match &self.current {
            Phase::Idle => 0,
            _ => 1,
        };
        current + self.queue.len()
    }

    /// How many sessions were submitted.
    pub fn tickets(&self) -> u32
        ensures { (a : sessions.Agenda) → Means self.now a → result ≡ a.tickets }
    {
        self.tickets
    }

    /// How the sessions ended that finished, in finishing order.
    pub fn outcomes(&self) -> &[Outcome]
        ensures { (a : sessions.Agenda) → Means self.now a → result.now ≡ a.outcomes }
    {
        self.outcomes.as_slice()
    }

    /// A session waits, with the next ticket.
    pub fn submit(&mut self, program: &Program) -> Result<u32, AllocError>
        requires { self.old.tickets + 1 < 2 ^ 32 }
        ensures ticket { (a : sessions.Agenda) → Means self.old a → IfOk result (λ t. t ≡ a.tickets + 1) }
        ensures done { (a : sessions.Agenda) → Means self.old a → OnOk result (Means self.new (submitted a program.now)) }
        ensures unchanged { OnErr result (self.new ≡ self.old) }
    {
        let program = program.copy()?;
        let ticket = self.tickets + 1;
        self.queue.push_back(Session { ticket, program })?;
        self.tickets = ticket;
        Ok(ticket)
    }

    /// Whether the session with that ticket waits.
    pub fn is_waiting(&self, ticket: u32) -> bool
        ensures { result ≡ is_waiting self.now.queue ticket }
    {
        self.queue.iter().any(|session| session.ticket == ticket)
    }

    /// Whether it is the current one, and waits for its bottles.
    pub fn is_gathering(&self, ticket: u32) -> bool
        ensures { (a : sessions.Agenda) → Means self.now a → result ≡ is_gathering a.current ticket }
    {
        match &self.current {
            Phase::Gathering(session) => session.ticket == ticket,
            _ => false,
        }
    }

    /// The session with that ticket waits no more.
    ///
    /// In the definition those that still wait are those with another ticket, and not the queue without a place.
    /// Tickets are distinct, so one goes; the definition stands on no such fact.
    pub fn withdraw_waiting(&mut self, ticket: u32)
        ensures { (a : sessions.Agenda) → Means self.old a → Means self.new (without_waiting a ticket) }
    {
        self.queue.retain(|session| session.ticket != ticket);
    }

    /// There is no current session any more.
    pub fn withdraw_current(&mut self)
        ensures { (a : sessions.Agenda) → Means self.old a → Means self.new (with_current a sessions.Idle) }
    {
        self.current = Phase::Idle;
    }

    /// The records that the first waiting session needs.
    pub fn first_needs(&self) -> Option<&[RecordId]>
        ensures { option_copied result ≡ first_needs self.now.queue }
    {
        match self.queue.get(0) {
            Some(session) => Some(session.program.needs()),
            None => None,
        }
    }

    /// The first waiting session becomes the current one.
    pub fn start(&mut self)
        ensures { (a : sessions.Agenda) → Means self.old a → Means self.new (started a a.queue) }
    {
        if let Some(session) = self.queue.pop_front() {
            self.current = Phase::Gathering(session);
        }
    }

    /// The current session, where it waits for its bottles.
    pub fn gathering(&self) -> Option<&Session>
        ensures { (a : sessions.Agenda) → Means self.now a → option_copied result ≡ gathering a.current }
    {
        match &self.current {
            Phase::Gathering(session) => Some(session),
            _ => None,
        }
    }

    /// The current session's work begins on these values of the records that it needs.
    pub fn begin(&mut self, alloc: Global, reads: RecordValues) -> Result<(), AllocError>
        ensures done { OnOk result ((a : sessions.Agenda) (values : ℕ → bottle.Value) → Means self.old a → (s : Session) → gathering a.current ≡ Some s → reads ≡ reads_of (needs_of s.program.body) values → Means self.new (with_current a (begun values a.current))) }
        ensures unchanged { OnErr result (self.new ≡ self.old) }
    {
        let Phase::Gathering(session) = &self.current else {
            return Ok(());
        };
        let code = Code::of(alloc, &session.program)?;
        let spare = mem::replace(&mut self.spare, None);
        let work = Work::begin_in(alloc, spare, &code, reads)?;
        let gathering = mem::replace(&mut self.current, Phase::Idle);
        self.current = working(gathering, code, work);
        Ok(())
    }

    /// Whether there is work to do, and a piece of that size is allowed.
    pub fn may_work(&self, n: u16) -> bool
        ensures { (a : sessions.Agenda) → Means self.now a → result ≡ may_work a.current n }
    {
        match &self.current {
            Phase::Working(_, _, work) => {
                work.ending().is_none() && 1 <= n && n <= LONGEST_PIECE
            }
            _ => false,
        }
    }

    /// So many instructions of the current session's work are done, or as many as there are.
    pub fn work(&mut self, n: u16)
        ensures { (a : sessions.Agenda) → Means self.old a → Means self.new (with_current a (worked n a.current)) }
    {
        if let Phase::Working(_, code, work) = &mut self.current {
            work.step(code, n as u32);
        }
    }

    /// How the current session ended, if its work has ended.
    pub fn ending(&self) -> Option<&Ending>
        ensures { (a : sessions.Agenda) → Means self.now a → option_copied result ≡ ending_of a.current }
    {
        match &self.current {
            Phase::Working(_, _, work) => work.ending(),
            _ => None,
        }
    }

    /// What the current session wrote, if its work has ended.
    pub fn writes(&self) -> Option<&[(RecordId, Value)]>
        ensures { (a : sessions.Agenda) → Means self.now a → option_copied result ≡ writes_of a.current }
    {
        match self.ending() {
            Some(ending) => Some(ending.writes.as_slice()),
            None => None,
        }
    }

    /// Makes room for one outcome more.
    pub fn make_room(&mut self) -> Result<(), AllocError>
        ensures room { OnOk result (0 < self.new.room) }
        ensures unchanged { (a : sessions.Agenda) → Means self.old a → Means self.new a }
    {
        self.outcomes.reserve(1)?;
        Ok(())
    }

    /// The current session finishes, and its outcome is kept. Where its work hasn't ended there is none.
    pub fn finish(&mut self, me: OfficeId)
        requires room { 0 < self.old.room }
        ensures { (a : sessions.Agenda) → Means self.old a → Means self.new (finished me a) }
    {
        if let Phase::Working(session, _, mut work) = mem::replace(&mut self.current, Phase::Idle) {
            self.spare = work.take_spare();
            if work.ending().is_some() {
                self.outcomes.push_reserved(Outcome {
                    office: me,
                    ticket: session.ticket,
                    ending: work.into_ending(),
                });
            }
        }
    }
}

/// A session that waited for its bottles works, by this code.
fn working(phase: Phase, code: Code, work: Work) -> Phase
    ensures { (s : Session) → phase ≡ phases.Gathering s → result ≡ phases.Working s code work }
{
    match phase {
        Phase::Gathering(session) => Phase::Working(session, code, work),
        other => other,
    }
}
