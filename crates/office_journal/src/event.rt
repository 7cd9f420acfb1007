//! What happens at an office.

ghost use Rattle.std.specs.Prelude.{◌≡◌, IfOk};
ghost use Rattle.office_journal.specs.Shown.{event_shown, entry_shown};

use crate::reply::Reply;
use crate::rule::Rule;
use frame_codec::Frame;
use office_map::OfficeId;
use session_programs::Program;
use std::alloc::AllocError;

/// An event of an office.
///
/// A frame that comes is held as the frame, and not as its bytes: it has one spelling, so nothing is lost, an entry is
/// smaller, and a frame is read once. Withdrawing is an event and no rule: rules are what an office does left to
/// itself, and it never takes a session back. So the order of rules, what is enabled and what comes next know nothing
/// of it.
#[derive(Drop)]
pub enum Event {
    /// A session is submitted.
    Submit(Program),
    /// A rule is done.
    Do(Rule),
    /// A frame is made for a neighbour: of the i-th message that waits for it, from 1, or with 0 of the count alone.
    Send(OfficeId, usize),
    /// A frame comes.
    Took(Frame),
    /// The session with that ticket is withdrawn.
    Withdraw(u32),
}

impl Event {
    /// The same event.
    pub fn copy(&self) -> Result<Event, AllocError>
        ensures { IfOk result (λ e. e ≡ self.now) }
    {
        match self {
            Event::Submit(program) => Ok(Event::Submit(program.copy()?)),
            Event::Do(rule) => Ok(Event::Do(*rule)),
            Event::Send(v, i) => Ok(Event::Send(*v, *i)),
            Event::Took(frame) => Ok(Event::Took(*frame)),
            Event::Withdraw(ticket) => Ok(Event::Withdraw(*ticket)),
        }
    }
}

/// An event as a journal shows it, which keeps its program.
#[derive(Clone, Copy)]
pub enum EventRef<'a> {
    /// A session is submitted.
    Submit(&'a Program),
    /// A rule is done.
    Do(Rule),
    /// A frame is made for a neighbour: of the i-th message that waits for it, from 1, or with 0 of the count alone.
    Send(OfficeId, usize),
    /// A frame comes.
    Took(Frame),
    /// The session with that ticket is withdrawn.
    Withdraw(u32),
}

impl EventRef<'_> {
    /// The same event, with a program of its own.
    pub fn to_event(&self) -> Result<Event, AllocError>
        ensures { IfOk result (λ e. e ≡ event_shown self.now) }
    {
        match *self {
            EventRef::Submit(program) => Ok(Event::Submit(program.copy()?)),
            EventRef::Do(rule) => Ok(Event::Do(rule)),
            EventRef::Send(v, i) => Ok(Event::Send(v, i)),
            EventRef::Took(frame) => Ok(Event::Took(frame)),
            EventRef::Withdraw(ticket) => Ok(Event::Withdraw(ticket)),
        }
    }
}

/// What an event is, but for the frame that came: who needs that asks for it, so that nobody else has room for it.
#[derive(Clone, Copy)]
pub enum EventPart<'a> {
    /// A session is submitted.
    Submit(&'a Program),
    /// A rule is done.
    Do(Rule),
    /// A frame is made for a neighbour: of the i-th message that waits for it, from 1, or with 0 of the count alone.
    Send(OfficeId, usize),
    /// A frame comes.
    Took,
    /// The session with that ticket is withdrawn.
    Withdraw(u32),
}

/// An entry as a journal shows it. A journal keeps its entries in another form, and makes this of one that is asked for.
#[derive(Clone, Copy)]
pub struct EntryRef<'a> {
    pub tag: u8,
    pub event: EventRef<'a>,
    pub reply: Reply,
}

impl EntryRef<'_> {
    /// The same entry, with a program of its own.
    pub fn to_entry(&self) -> Result<Entry, AllocError>
        ensures { IfOk result (λ e. e ≡ entry_shown self.now) }
    {
        Ok(Entry {
            tag: self.tag,
            event: self.event.to_event()?,
            reply: self.reply,
        })
    }
}

/// An event that an office accepted: who handed it in, and the reply.
#[derive(Drop)]
pub struct Entry {
    pub tag: u8,
    pub event: Event,
    pub reply: Reply,
}

impl Entry {
    /// The same entry.
    pub fn copy(&self) -> Result<Entry, AllocError>
        ensures { IfOk result (λ e. e ≡ self.now) }
    {
        Ok(Entry {
            tag: self.tag,
            event: self.event.copy()?,
            reply: self.reply,
        })
    }
}
