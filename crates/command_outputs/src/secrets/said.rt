//! What is said of a refused text of secrets. No key is shown.

use datagram_seals::texts::limits::{FEWEST_BYTES, MOST_BYTES};
use datagram_seals::texts::{NO_SECRET_RULE, SecretRefusal, SecretRule};
use diagnostics::shown::{Quoted, line_at, say_no_name, say_no_office, say_unreadable, word_at};
use office_map::{OfficeId, Plan};
use std::alloc::{AllocError, Global};
use text_lines::{is_name, is_same_word, words};

/// What people are told of a refusal: its line, its rule, and what was found.
pub(crate) fn of_secrets(
    alloc: Global,
    text: &[u8],
    plan: &Plan,
    refusal: &SecretRefusal,
) -> Result<String, AllocError> {
    let mut said = String::new(alloc);
    match refusal {
        SecretRefusal::AtLine(rule, number) => {
            write!(said, "line {number}: {rule}: ")?;
            if let Some(line) = line_at(text, *number) {
                say_line(&mut said, alloc, plan, line, *rule)?;
            }
        }
        SecretRefusal::NoSecret(neighbour) => {
            let rule = NO_SECRET_RULE;
            write!(said, "{rule}: ")?;
            say_without(&mut said, plan, *neighbour)?;
        }
    }
    Ok(said)
}

fn say_without(said: &mut String, plan: &Plan, neighbour: OfficeId) -> Result<(), AllocError> {
    if neighbour.index() >= plan.offices() {
        return Ok(());
    }
    let name = plan.office_name(neighbour);
    write!(
        said,
        "no line has the secret with `{name}`, and the office needs one with each of its neighbours"
    )
}

fn say_line(
    said: &mut String,
    alloc: Global,
    plan: &Plan,
    line: &[u8],
    rule: SecretRule,
) -> Result<(), AllocError> {
    let words = words(alloc, line)?;
    match rule {
        SecretRule::Secret => say_form(said, line, &words),
        SecretRule::NotNeighbours => say_no_neighbours(said, plan, &words),
        SecretRule::SecretTwice => {
            let (a, b) = (Quoted(word_at(&words, 1)), Quoted(word_at(&words, 2)));
            write!(said, "{a} and {b} have a secret on a line above")
        }
    }
}

/// The first thing that doesn't fit the form of a line.
fn say_form(said: &mut String, line: &[u8], words: &[&[u8]]) -> Result<(), AllocError> {
    if say_unreadable(said, line)? {
        return Ok(());
    }
    if words.len() != 4 || !is_same_word(words[0], b"secret") {
        return said.push_str("a line has the form `secret A B HEX`, and this one hasn't");
    }
    if !is_name(words[1]) {
        return say_no_name(said, words[1]);
    }
    if !is_name(words[2]) {
        return say_no_name(said, words[2]);
    }
    let (fewest, most) = (2 * FEWEST_BYTES, 2 * MOST_BYTES);
    write!(
        said,
        "the last word is no key: that is {fewest} to {most} hexadecimal digits, an even number of them"
    )
}

/// Which of two names is no office, or that the two are no neighbours.
fn say_no_neighbours(said: &mut String, plan: &Plan, words: &[&[u8]]) -> Result<(), AllocError> {
    for place in 1..3 {
        let word = word_at(words, place);
        if !is_office(plan, word) {
            return say_no_office(said, plan, word);
        }
    }
    let (a, b) = (Quoted(word_at(words, 1)), Quoted(word_at(words, 2)));
    write!(said, "{a} and {b} are no neighbours in the plan")
}

fn is_office(plan: &Plan, word: &[u8]) -> bool {
    match str::from_utf8(word) {
        Ok(name) => plan.office_named(name).is_some(),
        Err(_) => false,
    }
}
