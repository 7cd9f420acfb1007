//! What is said of a line after the first.

use crate::diagnosed::digits::{rest_at, say_no_digits, say_no_session};
use crate::diagnosed::journal::Refused;
use diagnostics::events::{say_no_message, say_no_ticket, say_rule};
use diagnostics::shown::{
    Quoted, Text, say_expected, say_no_office, say_other_text, say_word, word_at,
};
use journal_texts::wording::rules::{rule_named, rule_with};
use journal_texts::wording::words::{great_count_by, is, office_by};
use office_map::Plan;
use site_core::LONGEST_PIECE;
use std::alloc::AllocError;
use text_lines::number;

/// The greatest tag.
const LAST_TAG: u64 = 15;

const SUBMIT: &str = "`TAG submit HEX = ticket T`";

const DO: &str = "`TAG do RULE = done`";

const SEND: &str = "`TAG send NEIGHBOUR I = frame HEX`";

const TOOK: &str = "`TAG took HEX = WHAT`";

const WITHDRAW: &str = "`TAG withdraw T = done`";

/// Of the words of a line after the first.
pub(crate) fn say_line(
    said: &mut String,
    refused: Refused<'_>,
    words: &[&[u8]],
) -> Result<(), AllocError> {
    let tag = word_at(words, 0);
    match number(tag) {
        Some(number) if number <= LAST_TAG => say_event(said, refused, words),
        _ => say_no_tag(said, refused.line, tag),
    }
}

/// That the word that a line begins with is no tag.
fn say_no_tag(said: &mut String, line: &[u8], word: &[u8]) -> Result<(), AllocError> {
    if is(word, "journal") {
        return said.push_str("`journal` stands on the first line alone");
    }
    let shown = Quoted(word);
    if word.iter().all(|b| b.is_ascii_digit()) {
        return write!(said, "{shown} is no tag, which is 0 to {LAST_TAG}");
    }
    write!(
        said,
        "{shown} begins no line of a journal after the first; these are "
    )?;
    say_forms(said)?;
    write!(said, ", with TAG from 0 to {LAST_TAG}")?;
    say_other_text(said, Text::Journal, line)
}

fn say_forms(said: &mut String) -> Result<(), AllocError> {
    write!(said, "{SUBMIT}, {DO}, {SEND}, {TOOK} and {WITHDRAW}")
}

/// What is at fault after a tag.
fn say_event(said: &mut String, refused: Refused<'_>, words: &[&[u8]]) -> Result<(), AllocError> {
    let event = word_at(words, 1);
    if is(event, "submit") {
        say_submit(said, refused, words)
    } else if is(event, "do") {
        say_do(said, refused, words)
    } else if is(event, "send") {
        say_send(said, refused, words)
    } else if is(event, "took") {
        say_took(said, refused.line, words)
    } else if is(event, "withdraw") {
        say_withdraw(said, refused.line, words)
    } else {
        say_no_event(said, event)
    }
}

/// That the word after a tag, or no bytes where nothing follows, is no event.
fn say_no_event(said: &mut String, word: &[u8]) -> Result<(), AllocError> {
    if word.is_empty() {
        said.push_str("nothing follows the tag; the lines are ")?;
    } else {
        say_word(said, "", word, " is no event; the lines are ")?;
    }
    say_forms(said)
}

fn say_submit(said: &mut String, refused: Refused<'_>, words: &[&[u8]]) -> Result<(), AllocError> {
    if !is_answered_at(words, 3) {
        return say_expected(said, refused.line, SUBMIT);
    }
    if say_no_digits(said, refused.line, words, 2)? {
        return Ok(());
    }
    if words.len() != 6 || !is_answer(words[3], words[4], "ticket") {
        return say_answer(said, refused.line, 3, "`= ticket T`");
    }
    if great_count_by(u32::MAX, words[5]).is_none() {
        return say_no_ticket(said, words[5]);
    }
    say_no_session(said, refused, words[2])
}

fn say_do(said: &mut String, refused: Refused<'_>, words: &[&[u8]]) -> Result<(), AllocError> {
    let mut answer: usize = 3;
    let mut argument: &[u8] = &[];
    if !is(word_at(words, 3), "=") {
        answer = 4;
        argument = word_at(words, 3);
    }
    if !is_answered_at(words, answer) {
        return say_expected(said, refused.line, DO);
    }
    let rule = word_at(words, 2);
    if !is_rule(refused.plan, rule, argument) {
        return say_rule(said, rule, argument, LONGEST_PIECE);
    }
    say_answer(said, refused.line, answer, "`= done`")
}

/// Whether these say a rule: its name and the word after it, or no bytes where nothing follows.
fn is_rule(plan: &Plan, name: &[u8], argument: &[u8]) -> bool {
    if argument.is_empty() {
        rule_named(name).is_some()
    } else {
        rule_with(plan, name, argument).is_some()
    }
}

fn say_send(said: &mut String, refused: Refused<'_>, words: &[&[u8]]) -> Result<(), AllocError> {
    if !is_answered_at(words, 4) {
        return say_expected(said, refused.line, SEND);
    }
    let (neighbour, message) = (word_at(words, 2), word_at(words, 3));
    if office_by(refused.plan, neighbour).is_none() {
        return say_no_office(said, refused.plan, neighbour);
    }
    if number(message).is_none() {
        return say_no_message(said, message);
    }
    if words.len() != 7 || !is_answer(words[4], words[5], "frame") {
        return say_answer(said, refused.line, 4, "`= frame HEX`");
    }
    say_no_digits(said, refused.line, words, 6)?;
    Ok(())
}

fn say_took(said: &mut String, line: &[u8], words: &[&[u8]]) -> Result<(), AllocError> {
    if !is_answered_at(words, 3) {
        return say_expected(said, line, TOOK);
    }
    if say_no_digits(said, line, words, 2)? {
        return Ok(());
    }
    say_answer(
        said,
        line,
        3,
        "`= acked`, `= taken`, `= repeat`, `= kept` or `= early`",
    )
}

fn say_withdraw(said: &mut String, line: &[u8], words: &[&[u8]]) -> Result<(), AllocError> {
    if !is_answered_at(words, 3) {
        return say_expected(said, line, WITHDRAW);
    }
    let ticket = word_at(words, 2);
    if great_count_by(u32::MAX, ticket).is_none() {
        return say_no_ticket(said, ticket);
    }
    say_answer(said, line, 3, "`= done`")
}

// ---- what follows an event

/// Whether there is a word at this place, and no `=` before it.
fn is_answered_at(words: &[&[u8]], at: usize) -> bool {
    words.len() > at && !words.iter().take(at).any(|word| is(*word, "="))
}

/// Whether these words are `=` and this one.
fn is_answer(sign: &[u8], found: &[u8], word: &str) -> bool {
    is(sign, "=") && is(found, word)
}

/// That a line has another answer, from the word at this place on.
fn say_answer(said: &mut String, line: &[u8], at: usize, form: &str) -> Result<(), AllocError> {
    say_expected(said, rest_at(line, at), form)
}
