//! Two offices, step by step: what each step is answered, and how their sessions end.

use super::endings::describe;
use super::{A, offices, programs};
use frame_codec::{Frame, MAX_LENGTH, encode};
use office_map::{OfficeId, RecordId};
use session_programs::Program;
use site_core::{Event, Office, Refusal, Reply, Rule};
use std::alloc::{AllocError, Global};
use std::fmt::Write;
use std::test::Fail;

/// What a step is: a session is submitted, by its place in the text; a rule, with its record or its size; the message of that
/// place is framed for the other office; the frame of that place is taken by its addressee; the session with that ticket is
/// withdrawn; the next rule.
#[derive(Clone, Copy)]
pub enum What {
    Submit,
    Start,
    Hungry,
    AskFork,
    GiveFork,
    Eat,
    Leave,
    AskBottle,
    GiveBottle,
    Drink,
    Work,
    Finish,
    Send,
    Deliver,
    Withdraw,
    Next,
}

/// What is done, at which office, and a number.
#[derive(Clone, Copy)]
pub struct Step(pub What, pub usize, pub u16);

/// What the offices of the plan answer to these steps, and how their sessions end.
pub fn played(alloc: Global, plan: &str, sessions: &str, steps: &[Step]) -> Result<String, Fail> {
    let programs = programs(alloc, plan, sessions)?;
    let mut text = String::new(alloc);
    play(alloc, &mut text, plan, &programs, steps)?;
    Ok(text)
}

fn play(
    alloc: Global,
    text: &mut String,
    plan: &str,
    programs: &[Program],
    steps: &[Step],
) -> Result<(), Fail> {
    let mut offices = offices(alloc, plan)?;
    let mut frames = Vec::new(alloc);
    take_steps(text, &mut offices, &mut frames, programs, steps)?;
    describe_all(text, &offices)
}

/// Takes these steps, after those that made these frames, and tells what is answered.
pub fn take_steps(
    text: &mut String,
    offices: &mut Vec<Office>,
    frames: &mut Vec<Frame>,
    programs: &[Program],
    steps: &[Step],
) -> Result<(), Fail> {
    for step in steps {
        take_step(text, offices, frames, programs, *step)?;
    }
    Ok(())
}

/// Takes a step, tells what is answered, and keeps the frame that is made.
fn take_step(
    text: &mut String,
    offices: &mut Vec<Office>,
    frames: &mut Vec<Frame>,
    programs: &[Program],
    step: Step,
) -> Result<(), Fail> {
    let Step(what, at, n) = step;
    let reply = match what {
        What::Deliver => delivered(offices, frames, n as usize),
        What::Next => return Ok(next(text, offices, at)?),
        _ => match event_of(programs, step)? {
            Some(event) => handed(offices, at, &event),
            None => return Err(Fail::from("an event")),
        },
    };
    if let Ok(Reply::Frame(frame)) = &reply {
        frames.push(*frame)?;
    }
    Ok(tell(text, &reply)?)
}

/// An event is handed to an office.
fn handed(offices: &mut Vec<Office>, at: usize, event: &Event) -> Result<Reply, Refusal> {
    match offices.get_mut(at) {
        Some(office) => office.step(0, event),
        None => Err(Refusal::NotNow),
    }
}

/// A frame goes over the wire to its addressee.
fn delivered(offices: &mut Vec<Office>, frames: &[Frame], k: usize) -> Result<Reply, Refusal> {
    let Some(frame) = frames.get(k.saturating_sub(1)) else {
        return Err(Refusal::NotNow);
    };
    let mut bytes = [0; MAX_LENGTH];
    let length = encode(frame, &mut bytes);
    match offices.get_mut(frame.to() as usize) {
        Some(office) => office.receive(0, &bytes[..length]),
        None => Err(Refusal::NotNow),
    }
}

/// The office does the rule that comes next, which is told.
fn next(text: &mut String, offices: &mut Vec<Office>, at: usize) -> Result<(), AllocError> {
    match next_rule(offices, at) {
        Some(rule) => {
            write!(text, "{rule:?} ")?;
            tell(text, &handed(offices, at, &Event::Do(rule)))
        }
        None => text.push_str("none; "),
    }
}

fn next_rule(offices: &[Office], at: usize) -> Option<Rule> {
    match offices.get(at) {
        Some(office) => office.next_rule(),
        None => None,
    }
}

pub fn event_of(programs: &[Program], step: Step) -> Result<Option<Event>, AllocError> {
    let Step(what, at, n) = step;
    match what {
        What::Submit => match programs.get(n as usize) {
            Some(program) => Ok(Some(Event::Submit(program.copy()?))),
            None => Ok(None),
        },
        What::Send => Ok(Some(Event::Send(other(at), n as usize))),
        What::Withdraw => Ok(Some(Event::Withdraw(n as u32))),
        _ => Ok(rule_of(step).map(Event::Do)),
    }
}

fn rule_of(step: Step) -> Option<Rule> {
    let Step(what, at, n) = step;
    match what {
        What::Start => Some(Rule::Start),
        What::Hungry => Some(Rule::Hungry),
        What::AskFork => Some(Rule::AskFork(other(at))),
        What::GiveFork => Some(Rule::GiveFork(other(at))),
        What::Eat => Some(Rule::Eat),
        What::Leave => Some(Rule::Leave),
        What::AskBottle => Some(Rule::AskBottle(RecordId::new(n))),
        What::GiveBottle => Some(Rule::GiveBottle(RecordId::new(n))),
        What::Drink => Some(Rule::Drink),
        What::Work => Some(Rule::Work(n)),
        What::Finish => Some(Rule::Finish),
        _ => None,
    }
}

fn other(at: usize) -> OfficeId {
    OfficeId::new(if at == A { 1 } else { 0 })
}

pub fn tell(text: &mut String, reply: &Result<Reply, Refusal>) -> Result<(), AllocError> {
    match reply {
        Ok(Reply::Ticket(ticket)) => write!(text, "ticket {ticket}; "),
        Ok(Reply::Done) => text.push_str("done; "),
        Ok(Reply::Frame(frame)) => tell_frame(text, frame),
        Ok(Reply::Acked) => text.push_str("acked; "),
        Ok(Reply::Taken) => text.push_str("taken; "),
        Ok(Reply::Repeat) => text.push_str("repeat; "),
        Ok(Reply::Kept) => text.push_str("kept; "),
        Ok(Reply::Early) => text.push_str("early; "),
        Err(refusal) => write!(text, "refused {refusal}; "),
    }
}

fn tell_frame(text: &mut String, frame: &Frame) -> Result<(), AllocError> {
    let number = frame.number();
    let count = frame.count();
    write!(text, "frame {number} {count}; ")
}

/// How the sessions of the offices ended.
fn describe_all(text: &mut String, offices: &[Office]) -> Result<(), Fail> {
    for office in offices {
        describe(text, office.outcomes())?;
    }
    Ok(())
}
