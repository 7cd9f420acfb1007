//! Lines and words, as people are shown them.

use bottle_values::{MAX_TEXT, is_text_byte};
use office_map::{OfficeId, Plan};
use std::alloc::AllocError;
use std::fmt;
use text_lines::limits::MOST_LETTERS;
use text_lines::{first_line, first_word, is_plain_byte, is_same_word};

/// How many bytes of a word or a line are shown.
const MOST: usize = 60;

/// A word or a line, in quotes: of a long one its beginning, and of a byte that isn't printable ASCII its escape.
#[derive(Clone, Copy)]
pub struct Quoted<'a>(pub &'a [u8]);

impl fmt::Display for Quoted<'_> {
    fn fmt<W: fmt::Write>(&self, f: &mut fmt::Formatter<W>) -> fmt::Result {
        let word = self.0;
        f.write_str("`")?;
        for b in &word[..word.len().min(MOST)] {
            let byte = *b;
            match byte {
                b' '..=b'~' => f.write_char(byte as char)?,
                b'\t' => f.write_str("\\t")?,
                _ => write!(f, "\\x{byte:02X}")?,
            }
        }
        f.write_str(if word.len() > MOST { "...`" } else { "`" })
    }
}

/// The lines of a text that are left, each without its end.
#[derive(Clone, Copy)]
pub struct Lines<'a> {
    pub rest: &'a [u8],
}

impl<'a> Lines<'a> {
    pub fn next(&mut self) -> Option<&'a [u8]> {
        if self.rest.is_empty() {
            return None;
        }
        let (line, rest) = first_line(self.rest);
        self.rest = rest;
        Some(line)
    }
}

/// The line of this number, from 1, without its end; none where the text has fewer.
pub fn line_at(text: &[u8], number: u64) -> Option<&[u8]> {
    let mut lines = Lines { rest: text };
    for i in 0..text.len() {
        let line = lines.next()?;
        if i as u64 + 1 == number {
            return Some(line);
        }
    }
    None
}

/// The word at this place, or no bytes where the line has no such word.
pub fn word_at<'a>(words: &[&'a [u8]], at: usize) -> &'a [u8] {
    if at < words.len() { words[at] } else { &[] }
}

/// Adds a word, in quotes, between two texts.
pub fn say_word(
    said: &mut String,
    before: &str,
    word: &[u8],
    after: &str,
) -> Result<(), AllocError> {
    let word = Quoted(word);
    write!(said, "{before}{word}{after}")
}

/// Adds what no line that says something may have, if it has it: a byte order mark, a comment after other words and outside
/// texts, or a byte that is neither a tab nor printable ASCII. The answer is whether it has.
pub fn say_unreadable(said: &mut String, line: &[u8]) -> Result<bool, AllocError> {
    if let Some(mark) = byte_order_mark(line) {
        write!(
            said,
            "the line begins with the byte order mark of {mark}: save the text as UTF-8 without a byte order mark"
        )?;
        return Ok(true);
    }
    let mut is_in_text = false;
    for (i, b) in line.iter().enumerate() {
        let byte = *b;
        let column = i + 1;
        is_in_text ^= byte == b'"';
        if byte == b'#' && !is_in_text {
            write!(
                said,
                "the `#` in column {column} begins no comment: a comment stands on a line of its own"
            )?;
            return Ok(true);
        }
        if !is_plain_byte(byte) {
            let what = if byte == b'\r' {
                "a carriage return, which ends no line without a line feed"
            } else {
                "neither a tab nor printable ASCII"
            };
            write!(said, "byte {byte:02X} in column {column} is {what}")?;
            return Ok(true);
        }
    }
    Ok(false)
}

/// Adds why what stands between two quotation marks, the first of them in this column, is no text, if it is none: how many bytes
/// it has, or which of them may not stand in one. The answer is whether it is none.
pub fn say_text_bytes(said: &mut String, bytes: &[u8], column: usize) -> Result<bool, AllocError> {
    let count = bytes.len();
    if count > MAX_TEXT {
        write!(
            said,
            "the text in column {column} has {count} bytes, and may have {MAX_TEXT}"
        )?;
        return Ok(true);
    }
    for (i, b) in bytes.iter().enumerate() {
        let byte = *b;
        if !is_text_byte(byte) {
            let at = column.saturating_add(i).saturating_add(1);
            write!(
                said,
                "byte {byte:02X} in column {at} may not stand in a text, which has spaces and printable ASCII alone"
            )?;
            return Ok(true);
        }
    }
    Ok(false)
}

fn byte_order_mark(line: &[u8]) -> Option<&'static str> {
    match line {
        [0xEF, 0xBB, 0xBF, ..] => Some("UTF-8 (EF BB BF)"),
        [0xFF, 0xFE, ..] => Some("UTF-16 (FF FE)"),
        [0xFE, 0xFF, ..] => Some("UTF-16 (FE FF)"),
        _ => None,
    }
}

/// Adds that a word is no name.
pub fn say_no_name(said: &mut String, word: &[u8]) -> Result<(), AllocError> {
    let word = Quoted(word);
    let more = MOST_LETTERS - 1;
    write!(
        said,
        "{word} is no name: a letter, then at most {more} letters, digits or _, and none of session, let, set, give, require, if, else, repeat, end and read"
    )
}

/// Adds the form that was expected, and the line that was found.
pub fn say_expected(said: &mut String, line: &[u8], form: &str) -> Result<(), AllocError> {
    let line = Quoted(line);
    write!(said, "expected {form}, and found {line}")
}

/// Adds that the plan has no such office, and the one that is spelled so but for capital letters.
pub fn say_no_office(said: &mut String, plan: &Plan, word: &[u8]) -> Result<(), AllocError> {
    say_word(said, "the plan has no office ", word, "")?;
    for number in 0..plan.offices() {
        if say_alike(said, plan.office_name(OfficeId::new(number as u8)), word)? {
            break;
        }
    }
    Ok(())
}

/// Adds the name that a plan has, where the word is spelled so but for capital letters, and answers whether it is.
pub fn say_alike(said: &mut String, name: &str, word: &[u8]) -> Result<bool, AllocError> {
    if !is_alike(name.as_bytes(), word) {
        return Ok(false);
    }
    write!(said, "; it has `{name}`, and capital letters count")?;
    Ok(true)
}

/// Whether two words are one but for capital letters.
fn is_alike(a: &[u8], b: &[u8]) -> bool {
    a.len() == b.len() && a.iter().zip(b).all(|(x, y)| x.eq_ignore_ascii_case(y))
}

/// The texts that commands read.
#[derive(Clone, Copy, PartialEq, Eq)]
pub enum Text {
    Plan,
    Sessions,
    Script,
    Journal,
}

impl Text {
    fn shown(self) -> &'static str {
        match self {
            Text::Plan => "a plan",
            Text::Sessions => "a text of sessions",
            Text::Script => "a script",
            Text::Journal => "a journal",
        }
    }

    /// The words that its lines begin with; of a journal the first line's.
    fn words(self) -> &'static str {
        match self {
            Text::Plan => "plan office pair record",
            Text::Sessions => "session let set give require if else repeat end",
            Text::Script => "submit withdraw do advance settle send deliver",
            Text::Journal => "journal",
        }
    }

    /// The text a line of which begins with this word.
    fn begun_by(word: &[u8]) -> Option<Text> {
        for text in [Text::Plan, Text::Sessions, Text::Script, Text::Journal] {
            if is_one_of(word, text.words()) {
                return Some(text);
            }
        }
        None
    }
}

/// Whether a word is one of these, which have a space between.
pub(crate) fn is_one_of(word: &[u8], words: &str) -> bool {
    words.split(' ').any(|it| it.as_bytes() == word)
}

/// Adds, where a line of the text that was read begins as one of another text does, how the texts are told apart.
pub fn say_other_text(said: &mut String, read: Text, line: &[u8]) -> Result<(), AllocError> {
    let word = match first_word(line) {
        Some((word, _)) => word,
        None => return Ok(()),
    };
    if is_same_word(word, b"---") {
        return said.push_str(
            "; `---` parts texts on the standard input alone, one for each word `-` of the command",
        );
    }
    match Text::begun_by(word) {
        Some(begun) if begun != read => {
            let what = begun.shown();
            write!(
                said,
                "; it is a line of {what}: name the texts in the order of the command, and part those on one standard input by a line `---`"
            )
        }
        _ => Ok(()),
    }
}
