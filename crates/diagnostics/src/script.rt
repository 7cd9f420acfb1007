//! What is said of a refused script.

use crate::events::{say_no_message, say_no_ticket, say_rule};
use crate::shown::{
    Quoted, Text, line_at, say_expected, say_no_office, say_other_text, say_unreadable, say_word,
    word_at,
};
use office_map::Plan;
use std::alloc::{AllocError, Global};
use text_lines::{is_same_word, name, number, words};

/// The greatest numbers of a script: bytes of its text, rules of an `advance`, steps of a `settle`, instructions of a `work`.
#[derive(Clone, Copy)]
pub struct ScriptLimits {
    pub bytes: usize,
    pub rules: u16,
    pub steps: u32,
    pub instructions: u16,
}

/// What is said of the refusal of a script's line under this plan and these limits, where the file has so many sessions. The
/// line's number is 0 where the text is too long.
pub fn of_script(
    alloc: Global,
    text: &[u8],
    plan: &Plan,
    sessions: usize,
    limits: ScriptLimits,
    line: u64,
) -> Result<String, AllocError> {
    let mut said = String::new(alloc);
    match line_at(text, line) {
        None => {
            let most = limits.bytes;
            write!(said, "the text has more than {most} bytes")?;
        }
        Some(line) => {
            let refused = Refused {
                plan,
                sessions,
                limits,
                line,
            };
            if !say_unreadable(&mut said, line)? {
                say_words(&mut said, refused, &words(alloc, line)?)?;
            }
        }
    }
    Ok(said)
}

/// A line, the plan that its offices are of, how many sessions its file has, and the limits.
#[derive(Clone, Copy)]
struct Refused<'a> {
    plan: &'a Plan,
    sessions: usize,
    limits: ScriptLimits,
    line: &'a [u8],
}

fn say_words(said: &mut String, refused: Refused<'_>, words: &[&[u8]]) -> Result<(), AllocError> {
    let word = word_at(words, 0);
    if is_same_word(word, b"submit") {
        say_submit(said, refused, words)
    } else if is_same_word(word, b"deliver") {
        say_deliver(said, refused.line, words)
    } else if is_same_word(word, b"do") {
        say_do(said, refused, words)
    } else if is_same_word(word, b"advance") {
        say_advance(said, refused, words)
    } else if is_same_word(word, b"withdraw") {
        say_withdraw(said, refused, words)
    } else if is_same_word(word, b"settle") {
        say_settle(said, refused, words)
    } else if is_same_word(word, b"send") {
        say_send(said, refused, words)
    } else {
        say_other(said, refused.line, word)
    }
}

fn say_other(said: &mut String, line: &[u8], word: &[u8]) -> Result<(), AllocError> {
    say_word(
        said,
        "",
        word,
        " begins no line of a script; these are `submit N`, `withdraw OFFICE T`, `do OFFICE RULE`, `advance OFFICE N`, `settle`, `settle N`, `send OFFICE NEIGHBOUR I` and `deliver K`",
    )?;
    say_other_text(said, Text::Script, line)
}

fn say_submit(said: &mut String, refused: Refused<'_>, words: &[&[u8]]) -> Result<(), AllocError> {
    if words.len() != 2 || number(words[1]).is_none() {
        return say_expected(
            said,
            refused.line,
            "`submit N`, with the number of a session",
        );
    }
    let session = Quoted(words[1]);
    let count = refused.sessions;
    write!(
        said,
        "there is no session {session}: they are counted from 1, and the file has {count}"
    )
}

fn say_deliver(said: &mut String, line: &[u8], words: &[&[u8]]) -> Result<(), AllocError> {
    if words.len() == 2 && number(words[1]).is_some() {
        return said.push_str("frames are counted from 1, in the order of their sending");
    }
    say_expected(said, line, "`deliver K`, with the number of a frame")
}

fn say_do(said: &mut String, refused: Refused<'_>, words: &[&[u8]]) -> Result<(), AllocError> {
    if words.len() < 3 || words.len() > 4 {
        return say_expected(said, refused.line, "`do OFFICE RULE`");
    }
    if !is_office(refused.plan, words[1]) {
        return say_no_office(said, refused.plan, words[1]);
    }
    say_rule(
        said,
        words[2],
        word_at(words, 3),
        refused.limits.instructions,
    )
}

fn say_advance(said: &mut String, refused: Refused<'_>, words: &[&[u8]]) -> Result<(), AllocError> {
    if words.len() != 3 {
        return say_expected(said, refused.line, "`advance OFFICE N`");
    }
    if !is_office(refused.plan, words[1]) {
        return say_no_office(said, refused.plan, words[1]);
    }
    let word = Quoted(words[2]);
    let most = refused.limits.rules;
    write!(said, "{word} is no number of rules, which is 1 to {most}")
}

fn say_withdraw(
    said: &mut String,
    refused: Refused<'_>,
    words: &[&[u8]],
) -> Result<(), AllocError> {
    if words.len() != 3 {
        return say_expected(said, refused.line, "`withdraw OFFICE T`");
    }
    if !is_office(refused.plan, words[1]) {
        return say_no_office(said, refused.plan, words[1]);
    }
    say_no_ticket(said, words[2])
}

fn say_settle(said: &mut String, refused: Refused<'_>, words: &[&[u8]]) -> Result<(), AllocError> {
    if words.len() != 2 {
        return say_expected(said, refused.line, "`settle` or `settle N`");
    }
    let word = Quoted(words[1]);
    let most = refused.limits.steps;
    write!(said, "{word} is no number of steps, which is 1 to {most}")
}

fn say_send(said: &mut String, refused: Refused<'_>, words: &[&[u8]]) -> Result<(), AllocError> {
    if words.len() != 4 {
        return say_expected(said, refused.line, "`send OFFICE NEIGHBOUR I`");
    }
    if !is_office(refused.plan, words[1]) {
        return say_no_office(said, refused.plan, words[1]);
    }
    if !is_office(refused.plan, words[2]) {
        return say_no_office(said, refused.plan, words[2]);
    }
    say_no_message(said, words[3])
}

fn is_office(plan: &Plan, word: &[u8]) -> bool {
    match name(word) {
        Some(name) => plan.office_named(name).is_some(),
        None => false,
    }
}
