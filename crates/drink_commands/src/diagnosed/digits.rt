//! What is said of words of digits, and of the session whose text one is.

use crate::diagnosed::journal::Refused;
use diagnostics::sessions::of_sessions;
use diagnostics::shown::{Quoted, word_at};
use journal_texts::wording::digits::bytes;
use session_language::{LangFault, SessionRefusal, read_sessions};
use std::alloc::AllocError;

/// What is left of a line from the word at this place on.
pub(crate) fn rest_at(line: &[u8], at: usize) -> &[u8] {
    let mut words: usize = 0;
    let mut is_inside = false;
    for (i, b) in line.iter().enumerate() {
        let is_part = *b != b' ' && *b != b'\t';
        if is_part && !is_inside {
            if words == at {
                return line.split_at(i).1;
            }
            words = words.saturating_add(1);
        }
        is_inside = is_part;
    }
    &[]
}

/// Adds why the word at this place isn't the digits of bytes, if it isn't. The answer is whether it isn't.
pub(crate) fn say_no_digits(
    said: &mut String,
    line: &[u8],
    words: &[&[u8]],
    at: usize,
) -> Result<bool, AllocError> {
    let word = word_at(words, at);
    for (i, b) in word.iter().enumerate() {
        let byte = *b;
        if !byte.is_ascii_hexdigit() {
            let before = line.len().saturating_sub(rest_at(line, at).len());
            let column = before.saturating_add(i).saturating_add(1);
            let found = Quoted(&[byte]);
            write!(
                said,
                "{found} in column {column} is no hexadecimal digit, which is 0 to 9, a to f or A to F"
            )?;
            return Ok(true);
        }
    }
    if word.len() % 2 == 1 {
        let (shown, count) = (Quoted(word), word.len());
        write!(
            said,
            "{shown} has {count} digits, and each byte is two of them"
        )?;
        return Ok(true);
    }
    Ok(false)
}

/// Adds why the text whose digits a word is isn't one session of the plan.
pub(crate) fn say_no_session(
    said: &mut String,
    refused: Refused<'_>,
    word: &[u8],
) -> Result<(), AllocError> {
    let Some(text) = bytes(refused.alloc, word)? else {
        return Ok(());
    };
    match read_sessions(refused.alloc, &text, refused.plan) {
        Ok(programs) => say_count(said, programs.len()),
        Err(LangFault::Refused(refusal)) => say_refused(said, refused, &text, refusal),
        Err(LangFault::Memory) => Err(AllocError),
    }
}

fn say_count(said: &mut String, count: usize) -> Result<(), AllocError> {
    if count == 0 {
        return said.push_str("the text that is submitted has no session, and has to be one");
    }
    write!(
        said,
        "the text that is submitted has {count} sessions, and has to be one"
    )
}

/// Adds which line of the text that is submitted is refused, and why.
fn say_refused(
    said: &mut String,
    refused: Refused<'_>,
    text: &[u8],
    refusal: SessionRefusal,
) -> Result<(), AllocError> {
    let (line, rule) = (refusal.line, refusal.rule);
    if line > 0 {
        write!(said, "line {line} of ")?;
    }
    write!(said, "the text that is submitted is refused, {rule}: ")?;
    let why = of_sessions(refused.alloc, text, refused.plan, refusal)?;
    said.push_str(why.as_str())
}
