//! What is said of values in a plan, and of texts in its lines.

use crate::shown::{Quoted, say_text_bytes, say_word, word_at};
use bottle_values::Version;
use office_map::{first_plan_word, plan_words};
use std::alloc::{AllocError, Global};
use text_lines::{Statements, place_of};

/// The version that the first line of a plan tells; the first where it tells none.
pub(crate) fn version_of(alloc: Global, text: &[u8]) -> Result<Version, AllocError> {
    let mut statements = Statements {
        rest: text,
        number: 1,
    };
    let Some((_, line)) = statements.next() else {
        return Ok(Version::One);
    };
    if word_at(&plan_words(alloc, line)?, 1) == b"2".as_slice() {
        return Ok(Version::Two);
    }
    Ok(Version::One)
}

/// That a word of a record is no value.
pub(crate) fn say_no_value(
    said: &mut String,
    word: &[u8],
    version: Version,
) -> Result<(), AllocError> {
    if say_text(said, word, version)? {
        return Ok(());
    }
    say_word(
        said,
        "",
        word,
        " is no value: a whole number in digits alone, after a `-` if it is less than 0, from -9223372036854775808 to 9223372036854775807",
    )?;
    match version {
        Version::One => Ok(()),
        Version::Two => said.push_str(", or a text between two `\"`"),
    }
}

/// Adds why the first of these words that means a text is none, if one means it. The answer is whether one does.
pub(crate) fn say_text_in(
    said: &mut String,
    words: &[&[u8]],
    version: Version,
) -> Result<bool, AllocError> {
    for word in words {
        if say_text(said, *word, version)? {
            return Ok(true);
        }
    }
    Ok(false)
}

/// The same of one word: under version 1 no word is a text, and under version 2 none that begins with a `'`.
fn say_text(said: &mut String, word: &[u8], version: Version) -> Result<bool, AllocError> {
    let needed = "a text needs `plan 2 run N` as the first line";
    let shown = Quoted(word);
    match (word.first(), version) {
        (Some(b'"'), Version::One) => write!(said, "{shown} is a text, and {needed}")?,
        (Some(b'\''), Version::One) => write!(
            said,
            "{shown} begins with a `'`: a text stands between two `\"`, and {needed}"
        )?,
        (Some(b'\''), Version::Two) => write!(
            said,
            "{shown} begins with a `'`, and a text stands between two `\"`"
        )?,
        _ => return Ok(false),
    }
    Ok(true)
}

/// Adds what is wrong with the first word of a line that begins with a `"` and is no text under version 2, if there is one. The
/// answer is whether there is.
pub(crate) fn say_faulty_text(
    said: &mut String,
    line: &[u8],
    version: Version,
) -> Result<bool, AllocError> {
    if version == Version::One {
        return Ok(false);
    }
    let mut left = line;
    for _ in 0..line.len() {
        let Some((word, next)) = first_plan_word(left) else {
            return Ok(false);
        };
        let end = line.len().saturating_sub(next.len());
        let column = end.saturating_sub(word.len()).saturating_add(1);
        if let Some((b'"', rest)) = word.split_first() {
            if say_quoted(said, rest, column)? {
                return Ok(true);
            }
        }
        left = next;
    }
    Ok(false)
}

/// Of what follows the `"` in this column, up to the end of its word.
fn say_quoted(said: &mut String, rest: &[u8], column: usize) -> Result<bool, AllocError> {
    let count = place_of(rest, b'"');
    let close = column.saturating_add(count).saturating_add(1);
    if count >= rest.len() {
        write!(said, "the `\"` in column {column} has no closing `\"`")?;
        return Ok(true);
    }
    if say_text_bytes(said, rest.split_at(count).0, column)? {
        return Ok(true);
    }
    if count + 1 < rest.len() {
        let after = Quoted(rest.split_at(count + 1).1);
        write!(
            said,
            "{after} touches the `\"` in column {close}, which closes a text: a space, a tab or the line's end comes after it"
        )?;
        return Ok(true);
    }
    Ok(false)
}
