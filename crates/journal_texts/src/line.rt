//! A line of a journal after the first: what it says is told at once.
//!
//! `goes_on` is whether the journal goes on, which it does up to the first line whose digits spell no frame; the lines after that are
//! read too, so that their faults are told. Each function answers whether it goes on after the line, or None where the line says
//! nothing.
//!
//! Each kind of line makes its entry in a function of its own, and nobody hands it up: an entry has room for two frames, which would be
//! made ready, and copied, for each kind.

ghost use Rattle.std.specs.Prelude.{◌≡◌, Some, None, Ok, Option, ◌&&◌, if◌then◌else◌, IfOk};
ghost use Rattle.std.specs.Str.{bytes_eq};
ghost use Rattle.office_map.specs.PlanText.{and_then};
ghost use Rattle.journal_texts.specs.wording.Digits.{bytes_in};
ghost use Rattle.journal_texts.specs.Lines.{Said, said_by, said_after, tag_of, took_line, do_line, send_line, submit_line, withdraw_line, done_by, withdrawn_by, took_by, submitted_by, sent_by, program_in, one_program, is_done};
ghost use Rattle.journal_texts.specs.refinement.ReadLines.{Reads, Tells};
ghost use Rattle.journal_texts.specs.refinement.ReadLines as tolds;

use crate::entries::Entries;
use crate::wording::digits::{FrameWord, bytes, frame_word};
use crate::wording::replies::arrival_named;
use crate::wording::rules::{rule_named, rule_with};
use crate::wording::words::{great_count_by, is, office_by};
use office_map::{OfficeId, Plan};
use session_language::{LangFault, read_sessions};
use session_programs::Program;
use site_core::{Entry, Event, Reply, Rule};
use std::alloc::{AllocError, Global};
use text_lines::marked::Words;
use text_lines::number;

/// Tags are below.
const TAGS: u64 = 16;

/// What a line says: one with these words, or one that isn't plain.
pub(crate) fn tell_line<E: Entries>(
    alloc: Global,
    plan: &Plan,
    told: &mut E,
    goes_on: bool,
    line: Option<Words<'_>>,
) -> Result<Option<bool>, AllocError>
    ensures { IfOk result (Tells (and_then line.entry (said_by plan.now)) goes_on (E.holds told.old) (E.holds told.new)) }
{
    let Some(words) = line else {
        return Ok(None);
    };
    let mut words = words;
    let Some(first) = words.next() else {
        return Ok(None);
    };
    match tag(first) {
        None => Ok(None),
        Some(tag) => tell_after(alloc, plan, told, goes_on, tag, &mut words),
    }
}

fn tag(word: &[u8]) -> Option<u8>
    ensures { result ≡ tag_of word.now }
{
    let tag = number(word)?;
    if tag < TAGS { Some(tag as u8) } else { None }
}

/// What the words after a tag say.
fn tell_after<E: Entries>(
    alloc: Global,
    plan: &Plan,
    told: &mut E,
    goes_on: bool,
    tag: u8,
    words: &mut Words<'_>,
) -> Result<Option<bool>, AllocError>
    ensures { IfOk result (Tells (said_after plan.now tag words.old) goes_on (E.holds told.old) (E.holds told.new)) }
{
    let Some(keyword) = words.next() else {
        return Ok(None);
    };
    if is(keyword, "took") {
        return took_line(told, goes_on, tag, words);
    }
    if is(keyword, "do") {
        return do_line(plan, told, goes_on, tag, words);
    }
    if is(keyword, "send") {
        return send_line(plan, told, goes_on, tag, words);
    }
    if is(keyword, "submit") {
        return submit_line(alloc, plan, told, goes_on, tag, words);
    }
    if is(keyword, "withdraw") {
        return withdraw_line(told, goes_on, tag, words);
    }
    Ok(None)
}

/// A frame that came.
#[inline(never)]
fn took_line<E: Entries>(
    told: &mut E,
    goes_on: bool,
    tag: u8,
    words: &mut Words<'_>,
) -> Result<Option<bool>, AllocError>
    ensures { IfOk result (Tells (took_line tag words.old) goes_on (E.holds told.old) (E.holds told.new)) }
{
    let Some(word) = words.next() else {
        return Ok(None);
    };
    let Some(sign) = words.next() else {
        return Ok(None);
    };
    let Some(what) = words.next() else {
        return Ok(None);
    };
    if words.next().is_some() || !is(sign, "=") {
        return Ok(None);
    }
    came(told, goes_on, tag, word, arrival_named(what))
}

/// A rule that was done, of a word or of two.
#[inline(never)]
fn do_line<E: Entries>(
    plan: &Plan,
    told: &mut E,
    goes_on: bool,
    tag: u8,
    words: &mut Words<'_>,
) -> Result<Option<bool>, AllocError>
    ensures { IfOk result (Tells (do_line plan.now tag words.old) goes_on (E.holds told.old) (E.holds told.new)) }
{
    let Some(name) = words.next() else {
        return Ok(None);
    };
    let Some(a) = words.next() else {
        return Ok(None);
    };
    let Some(b) = words.next() else {
        return Ok(None);
    };
    let Some(c) = words.next() else {
        return done(told, goes_on, tag, rule_named(name), is_done(a, b));
    };
    match words.next() {
        Some(_) => Ok(None),
        None => done(told, goes_on, tag, rule_with(plan, name, a), is_done(b, c)),
    }
}

/// A frame that was made.
#[inline(never)]
fn send_line<E: Entries>(
    plan: &Plan,
    told: &mut E,
    goes_on: bool,
    tag: u8,
    words: &mut Words<'_>,
) -> Result<Option<bool>, AllocError>
    ensures { IfOk result (Tells (send_line plan.now tag words.old) goes_on (E.holds told.old) (E.holds told.new)) }
{
    let Some(neighbour) = words.next() else {
        return Ok(None);
    };
    let Some(i) = words.next() else {
        return Ok(None);
    };
    let Some(sign) = words.next() else {
        return Ok(None);
    };
    let Some(answer) = words.next() else {
        return Ok(None);
    };
    let Some(word) = words.next() else {
        return Ok(None);
    };
    if words.next().is_some() || !are(sign, "=", answer, "frame") {
        return Ok(None);
    }
    made(
        told,
        goes_on,
        tag,
        office_by(plan, neighbour),
        number(i),
        word,
    )
}

/// A session that was submitted.
#[inline(never)]
fn submit_line<E: Entries>(
    alloc: Global,
    plan: &Plan,
    told: &mut E,
    goes_on: bool,
    tag: u8,
    words: &mut Words<'_>,
) -> Result<Option<bool>, AllocError>
    ensures { IfOk result (Tells (submit_line plan.now tag words.old) goes_on (E.holds told.old) (E.holds told.new)) }
{
    let Some(word) = words.next() else {
        return Ok(None);
    };
    let Some(sign) = words.next() else {
        return Ok(None);
    };
    let Some(answer) = words.next() else {
        return Ok(None);
    };
    let Some(ticket) = words.next() else {
        return Ok(None);
    };
    if words.next().is_some() || !are(sign, "=", answer, "ticket") {
        return Ok(None);
    }
    submitted(
        alloc,
        plan,
        told,
        goes_on,
        tag,
        word,
        great_count_by(u32::MAX, ticket),
    )
}

/// A session that was withdrawn.
#[inline(never)]
fn withdraw_line<E: Entries>(
    told: &mut E,
    goes_on: bool,
    tag: u8,
    words: &mut Words<'_>,
) -> Result<Option<bool>, AllocError>
    ensures { IfOk result (Tells (withdraw_line tag words.old) goes_on (E.holds told.old) (E.holds told.new)) }
{
    let Some(ticket) = words.next() else {
        return Ok(None);
    };
    let Some(sign) = words.next() else {
        return Ok(None);
    };
    let Some(answer) = words.next() else {
        return Ok(None);
    };
    if words.next().is_some() || !is_done(sign, answer) {
        return Ok(None);
    }
    withdrawn(told, goes_on, tag, great_count_by(u32::MAX, ticket))
}

fn is_done(sign: &[u8], answer: &[u8]) -> bool
    ensures { result ≡ is_done sign.now answer.now }
{
    are(sign, "=", answer, "done")
}

/// Whether one word is this text, and the other that.
pub(crate) fn are(a: &[u8], text: &str, b: &[u8], other: &str) -> bool
    ensures { result ≡ (bytes_eq a.now text.now && bytes_eq b.now other.now) }
{
    is(a, text) && is(b, other)
}

/// A frame came.
#[inline(always)]
fn came<E: Entries>(
    told: &mut E,
    goes_on: bool,
    tag: u8,
    word: &[u8],
    reply: Option<Reply>,
) -> Result<Option<bool>, AllocError>
    ensures { IfOk result (Tells (took_by tag (bytes_in word.now) reply) goes_on (E.holds told.old) (E.holds told.new)) }
{
    let Some(reply) = reply else {
        return Ok(None);
    };
    match frame_word(word) {
        FrameWord::Spelled(frame) => tell(
            told,
            goes_on,
            Entry {
                tag,
                event: Event::Took(frame),
                reply,
            },
        ),
        FrameWord::NoFrame => Ok(end(told, goes_on)),
        FrameWord::NoDigits => Ok(None),
    }
}

/// A rule was done, where the line says so.
#[inline(always)]
fn done<E: Entries>(
    told: &mut E,
    goes_on: bool,
    tag: u8,
    rule: Option<Rule>,
    is_done: bool,
) -> Result<Option<bool>, AllocError>
    ensures { IfOk result (Tells (if is_done then done_by tag rule else None) goes_on (E.holds told.old) (E.holds told.new)) }
{
    if !is_done {
        return Ok(None);
    }
    let Some(rule) = rule else {
        return Ok(None);
    };
    tell(
        told,
        goes_on,
        Entry {
            tag,
            event: Event::Do(rule),
            reply: Reply::Done,
        },
    )
}

/// A session was withdrawn.
#[inline(always)]
fn withdrawn<E: Entries>(
    told: &mut E,
    goes_on: bool,
    tag: u8,
    ticket: Option<u32>,
) -> Result<Option<bool>, AllocError>
    ensures { IfOk result (Tells (withdrawn_by tag ticket) goes_on (E.holds told.old) (E.holds told.new)) }
{
    let Some(ticket) = ticket else {
        return Ok(None);
    };
    tell(
        told,
        goes_on,
        Entry {
            tag,
            event: Event::Withdraw(ticket),
            reply: Reply::Done,
        },
    )
}

/// An entry is told, where the journal goes on. Whether it does after that.
#[inline(always)]
fn tell<E: Entries>(told: &mut E, goes_on: bool, entry: Entry) -> Result<Option<bool>, AllocError>
    ensures { IfOk result (λ more. (said : Option Said) → Reads said (Some (tolds.AnEntry entry)) → Tells said goes_on (E.holds told.old) (E.holds told.new) more) }
{
    if !goes_on {
        return Ok(Some(false));
    }
    told.add(entry)?;
    Ok(Some(true))
}

/// The digits of a frame spell none: the journal goes on no more.
#[inline(always)]
fn end<E: Entries>(told: &mut E, goes_on: bool) -> Option<bool>
    ensures { (said : Option Said) → Reads said (Some tolds.NoFrame) → Tells said goes_on (E.holds told.old) (E.holds told.new) result }
{
    if !goes_on {
        return Some(false);
    }
    told.end();
    Some(false)
}

/// A session was submitted.
#[inline(always)]
fn submitted<E: Entries>(
    alloc: Global,
    plan: &Plan,
    told: &mut E,
    goes_on: bool,
    tag: u8,
    word: &[u8],
    ticket: Option<u32>,
) -> Result<Option<bool>, AllocError>
    ensures { IfOk result (Tells (submitted_by tag (program_in plan.now word.now) ticket) goes_on (E.holds told.old) (E.holds told.new)) }
{
    let Some(ticket) = ticket else {
        return Ok(None);
    };
    let Some(program) = program_in(alloc, plan, word)? else {
        return Ok(None);
    };
    tell(
        told,
        goes_on,
        Entry {
            tag,
            event: Event::Submit(program),
            reply: Reply::Ticket(ticket),
        },
    )
}

/// The program whose text's digits a word is.
fn program_in(alloc: Global, plan: &Plan, word: &[u8]) -> Result<Option<Program>, AllocError>
    ensures { IfOk result (λ o. o ≡ program_in plan.now word.now) }
{
    let Some(text) = bytes(alloc, word)? else {
        return Ok(None);
    };
    match read_sessions(alloc, &text, plan) {
        Ok(programs) => Ok(one_program(programs)),
        Err(LangFault::Memory) => Err(AllocError),
        Err(LangFault::Refused(_)) => Ok(None),
    }
}

/// The program, if there is one and no more.
#[tactic(auto, using(crate::proofs::ReadLines::not_one, crate::proofs::ReadLines::the_one))]
fn one_program(programs: Vec<Program>) -> Option<Program>
    ensures { result ≡ one_program (Ok programs.items) }
{
    let mut programs = programs;
    if programs.len() != 1 {
        return None;
    }
    programs.pop()
}

/// A frame was made.
#[inline(always)]
fn made<E: Entries>(
    told: &mut E,
    goes_on: bool,
    tag: u8,
    neighbour: Option<OfficeId>,
    i: Option<u64>,
    word: &[u8],
) -> Result<Option<bool>, AllocError>
    ensures { IfOk result (Tells (sent_by tag neighbour i (bytes_in word.now)) goes_on (E.holds told.old) (E.holds told.new)) }
{
    let Some(neighbour) = neighbour else {
        return Ok(None);
    };
    let Some(i) = i else {
        return Ok(None);
    };
    match frame_word(word) {
        FrameWord::Spelled(frame) => tell(
            told,
            goes_on,
            Entry {
                tag,
                event: Event::Send(neighbour, i as usize),
                reply: Reply::Frame(frame),
            },
        ),
        FrameWord::NoFrame => Ok(end(told, goes_on)),
        FrameWord::NoDigits => Ok(None),
    }
}
