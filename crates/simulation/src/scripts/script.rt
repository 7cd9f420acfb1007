//! Scripts: the events that a text means.

ghost use Rattle.std.specs.Prelude.{◌≡◌, Bool, IfOk, IfErr, IfSome, List, is_some, option_map, true, ℕ};
ghost use Rattle.office_map.specs.PlanText.{and_then};
ghost use Rattle.text_lines.specs.Text.{words_of};
ghost use Rattle.simulation.specs.scripts.Script.{IsScript, IsFaultOf, act_of, said_of, said_by, act_with, acts_with, short_line, numbered_line, submit_of, nth, deliver_of, settle_of, office_line, long_line, done_by, advanced_by, withdrawn_by, sent_by};

use crate::scripts::event::ScriptEvent;
use crate::scripts::fault::{ScriptFault, ScriptRefusal};
use crate::scripts::limits::{MAX_BYTES, MAX_RULES, MAX_STEPS};
use journal_texts::wording::rules::{rule_named, rule_with};
use journal_texts::wording::words::{count_by, great_count_by, is, office_by};
use office_map::{OfficeId, Plan};
use session_programs::Program;
use site_core::Rule;
use std::alloc::Global;
use text_lines::{Statements, first_word, is_plain, number};

/// The events that a script means under a plan, where these are the programs of the file of sessions.
///
/// What a script means is a relation: its lines don't depend on each other, so the definition says which event each
/// line means, and that the events are those of the lines, in order. The contract ties the loop to it.
///
/// # Errors
/// The first faulty line is refused, or a text that is too long.
pub fn events(
    alloc: Global,
    text: &[u8],
    plan: &Plan,
    programs: &[Program],
) -> Result<Vec<ScriptEvent>, ScriptFault>
    ensures meaning { IfOk result (λ v. IsScript plan.now programs.now text.now (acts_with programs.now v.items)) }
    ensures fault { IfErr result (IsFaultOf plan.now programs.now text.now) }
{
    if text.len() > MAX_BYTES {
        return Err(ScriptFault::Refused(ScriptRefusal { line: 0 }));
    }
    // Events hold rules, and the check finds that type of another crate by a local of it.
    let _rule: Option<Rule> = None;
    let mut events = Vec::new(alloc);
    let mut left = Statements {
        rest: text,
        number: 1,
    };
    while let Some((line, statement)) = left.next() {
        match event(plan, programs, statement) {
            Some(event) => events.push(event)?,
            None => return Err(ScriptFault::Refused(ScriptRefusal { line })),
        }
    }
    Ok(events)
}

/// The event that a line says, where it says one and its session is in the file.
fn event(plan: &Plan, programs: &[Program], line: &[u8]) -> Option<ScriptEvent>
    ensures meaning { act_of plan.now programs.now line.now ≡ and_then result (act_with programs.now) }
    ensures there { IfSome result (λ e. is_some (act_with programs.now e) ≡ true) }
{
    there(programs, said(plan, line))
}

/// What a line says, where its session is in the file.
fn there(programs: &[Program], said: Option<ScriptEvent>) -> Option<ScriptEvent>
    ensures meaning { and_then result (act_with programs.now) ≡ and_then said (act_with programs.now) }
    ensures there { IfSome result (λ e. is_some (act_with programs.now e) ≡ true) }
{
    match said {
        Some(ScriptEvent::Submit(n)) => {
            let _program = nth(programs, n)?;
            Some(ScriptEvent::Submit(n))
        }
        other => other,
    }
}

/// The n-th program, from 1.
pub(crate) fn nth(programs: &[Program], n: u64) -> Option<&Program>
    ensures { option_map (λ p. p.now) result ≡ nth programs.now n }
{
    if n == 0 || n > programs.len() as u64 {
        return None;
    }
    Some(&programs[n as usize - 1])
}

/// What a line says.
#[tactic(auto, unfolding(crate::specs::scripts::Script::said_of))]
fn said(plan: &Plan, line: &[u8]) -> Option<ScriptEvent>
    ensures { result ≡ said_of plan.now line.now }
{
    if !is_plain(line) {
        return None;
    }
    said_by(plan, line)
}

/// What the words of a line say. They are read one after another, and no list of them is made.
fn said_by(plan: &Plan, line: &[u8]) -> Option<ScriptEvent>
    ensures { result ≡ said_by plan.now (words_of line.now) }
{
    let (keyword, left) = first_word(line)?;
    let Some((a, left)) = first_word(left) else {
        return short_line(keyword);
    };
    let Some((b, left)) = first_word(left) else {
        return numbered_line(keyword, a);
    };
    let Some((c, left)) = first_word(left) else {
        return office_line(plan, keyword, a, b);
    };
    match first_word(left) {
        Some(_) => None,
        None => long_line(plan, keyword, a, b, c),
    }
}

fn short_line(keyword: &[u8]) -> Option<ScriptEvent>
    ensures { result ≡ short_line keyword.now }
{
    if is(keyword, "settle") {
        return Some(ScriptEvent::SettleToTheEnd);
    }
    None
}

fn numbered_line(keyword: &[u8], word: &[u8]) -> Option<ScriptEvent>
    ensures { result ≡ numbered_line keyword.now word.now }
{
    if is(keyword, "submit") {
        return submit(word);
    }
    if is(keyword, "deliver") {
        return deliver(word);
    }
    if is(keyword, "settle") {
        return settle(word);
    }
    None
}

fn submit(word: &[u8]) -> Option<ScriptEvent>
    ensures { result ≡ submit_of word.now }
{
    let submitted = number(word)?;
    Some(ScriptEvent::Submit(submitted))
}

fn deliver(word: &[u8]) -> Option<ScriptEvent>
    ensures { result ≡ deliver_of word.now }
{
    let k = number(word)?;
    if k == 0 {
        return None;
    }
    Some(ScriptEvent::Deliver(k as usize))
}

fn settle(word: &[u8]) -> Option<ScriptEvent>
    ensures { result ≡ settle_of word.now }
{
    Some(ScriptEvent::Settle(great_count_by(MAX_STEPS, word)?))
}

fn office_line(plan: &Plan, keyword: &[u8], office: &[u8], word: &[u8]) -> Option<ScriptEvent>
    ensures { result ≡ office_line plan.now keyword.now office.now word.now }
{
    if is(keyword, "do") {
        return done(office_by(plan, office), rule_named(word));
    }
    if is(keyword, "advance") {
        return advanced(office_by(plan, office), count_by(MAX_RULES, word));
    }
    if is(keyword, "withdraw") {
        return withdrawn(office_by(plan, office), great_count_by(u32::MAX, word));
    }
    None
}

fn long_line(
    plan: &Plan,
    keyword: &[u8],
    office: &[u8],
    word: &[u8],
    argument: &[u8],
) -> Option<ScriptEvent>
    ensures { result ≡ long_line plan.now keyword.now office.now word.now argument.now }
{
    if is(keyword, "do") {
        return done(office_by(plan, office), rule_with(plan, word, argument));
    }
    if is(keyword, "send") {
        return sent(
            office_by(plan, office),
            office_by(plan, word),
            number(argument),
        );
    }
    None
}

fn done(office: Option<OfficeId>, rule: Option<Rule>) -> Option<ScriptEvent>
    ensures { result ≡ done_by office rule }
{
    let office = office?;
    Some(ScriptEvent::Do(office, rule?))
}

fn advanced(office: Option<OfficeId>, n: Option<u16>) -> Option<ScriptEvent>
    ensures { result ≡ advanced_by office n }
{
    let office = office?;
    Some(ScriptEvent::Advance(office, n?))
}

fn withdrawn(office: Option<OfficeId>, ticket: Option<u32>) -> Option<ScriptEvent>
    ensures { result ≡ withdrawn_by office ticket }
{
    let office = office?;
    Some(ScriptEvent::Withdraw(office, ticket?))
}

fn sent(
    office: Option<OfficeId>,
    neighbour: Option<OfficeId>,
    i: Option<u64>,
) -> Option<ScriptEvent>
    ensures { result ≡ sent_by office neighbour i }
{
    let office = office?;
    let neighbour = neighbour?;
    let i = i?;
    Some(ScriptEvent::Send(office, neighbour, i as usize))
}
