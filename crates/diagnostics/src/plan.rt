//! What is said of a refused plan.

use crate::plan_values::{say_faulty_text, say_no_value, say_text_in, version_of};
use crate::shown::{
    Lines, Quoted, Text, line_at, say_expected, say_no_name, say_other_text, say_unreadable,
    say_word, word_at,
};
use bottle_values::Version;
use office_map::limits::{FEWEST_OFFICES, MOST_OFFICES, MOST_PAIR_RECORDS, TEXT_LIMIT};
use office_map::{PlanRefusal, PlanRule, plan_words};
use std::alloc::{AllocError, Global};
use std::fmt;
use text_lines::{is_name, is_same_word};

const OFFICE: &str = "`office NAME ADDRESS`";

const PAIR: &str = "`pair A B fork E`";

const RECORD: &str = "`record NAME A B VALUE at E`";

/// What is said of the refusal of a plan's text.
pub fn of_plan(alloc: Global, text: &[u8], refusal: PlanRefusal) -> Result<String, AllocError> {
    let mut said = String::new(alloc);
    match line_at(text, refusal.line) {
        None => say_text(&mut said, text, refusal.rule)?,
        Some(line) => {
            let around = Around {
                alloc,
                text,
                line: refusal.line,
            };
            say_line(&mut said, &around, line, refusal.rule)?;
        }
    }
    Ok(said)
}

fn say_line(
    said: &mut String,
    around: &Around<'_>,
    line: &[u8],
    rule: PlanRule,
) -> Result<(), AllocError> {
    let words = plan_words(around.alloc, line)?;
    say_words(said, around, line, &words, rule)
}

fn say_words(
    said: &mut String,
    around: &Around<'_>,
    line: &[u8],
    words: &[&[u8]],
    rule: PlanRule,
) -> Result<(), AllocError> {
    match rule {
        PlanRule::Header => say_header(said, line, words),
        PlanRule::Line => say_form(said, around, line, words),
        PlanRule::NameTwice => say_twice(said, around, words),
        PlanRule::UnknownName => say_unknown(said, around, words),
        PlanRule::SelfPair => say_word(
            said,
            "",
            word_at(words, 1),
            " is paired with itself, and a pair joins two offices",
        ),
        PlanRule::PairTwice => say_pair_twice(said, around, words),
        PlanRule::Limit => say_limit(said, words),
    }
}

/// Of a text none of whose lines is at fault.
fn say_text(said: &mut String, text: &[u8], rule: PlanRule) -> Result<(), AllocError> {
    if rule == PlanRule::Header {
        return said.push_str("no line says anything, and the first one has to be `plan 1 run N`");
    }
    if text.len() > TEXT_LIMIT {
        return write!(said, "the text has more than {TEXT_LIMIT} bytes");
    }
    write!(
        said,
        "fewer than {FEWEST_OFFICES} offices are declared, and a plan has {FEWEST_OFFICES} at least"
    )
}

fn say_header(said: &mut String, line: &[u8], words: &[&[u8]]) -> Result<(), AllocError> {
    if say_unreadable(said, line)? {
        return Ok(());
    }
    let mut version = "1";
    if words.len() == 4 && is_same_word(words[0], b"plan") && is_same_word(words[2], b"run") {
        version = match words[1] {
            b"1" => "1",
            b"2" => "2",
            other => {
                return say_word(
                    said,
                    "the version of a plan is `1`, or `2` where values may be texts, and not ",
                    other,
                    "",
                );
            }
        };
    }
    let found = Quoted(line);
    write!(
        said,
        "the first line has to be `plan {version} run N`, with N from 0 to 4294967295, and not {found}"
    )
}

/// The first thing that doesn't fit the form of a line.
fn say_form(
    said: &mut String,
    around: &Around<'_>,
    line: &[u8],
    words: &[&[u8]],
) -> Result<(), AllocError> {
    let version = version_of(around.alloc, around.text)?;
    if say_unreadable(said, line)? || say_faulty_text(said, line, version)? {
        return Ok(());
    }
    let word = word_at(words, 0);
    if is_same_word(word, b"office") {
        say_office(said, line, words)
    } else if is_same_word(word, b"pair") {
        say_pair(said, line, words)
    } else if is_same_word(word, b"record") {
        say_record(said, line, words, version)
    } else if is_same_word(word, b"plan") {
        said.push_str("`plan` stands on the first line alone")
    } else {
        say_other(said, line, word)
    }
}

fn say_other(said: &mut String, line: &[u8], word: &[u8]) -> Result<(), AllocError> {
    say_word(said, "", word, " begins no line of a plan; these are ")?;
    write!(said, "{OFFICE}, {PAIR} and {RECORD}")?;
    say_other_text(said, Text::Plan, line)
}

fn say_office(said: &mut String, line: &[u8], words: &[&[u8]]) -> Result<(), AllocError> {
    if words.len() != 3 {
        say_expected(said, line, OFFICE)?;
        return said.push_str("; where there is no address, ADDRESS is `-`");
    }
    if !is_name(words[1]) {
        return say_no_name(said, words[1]);
    }
    say_word(
        said,
        "",
        words[2],
        " is no address: that is `-`, or four numbers up to 255 with dots, a colon and a port from 1 to 65535, without leading zeros, as 127.0.0.1:47001",
    )
}

fn say_pair(said: &mut String, line: &[u8], words: &[&[u8]]) -> Result<(), AllocError> {
    if words.len() != 5 || words[3] != b"fork".as_slice() {
        say_expected(said, line, PAIR)?;
        return said.push_str("; E, where the fork starts, is A or B");
    }
    if !is_name(words[1]) {
        return say_no_name(said, words[1]);
    }
    if !is_name(words[2]) {
        return say_no_name(said, words[2]);
    }
    say_end(said, words[4], words[1], words[2])
}

fn say_record(
    said: &mut String,
    line: &[u8],
    words: &[&[u8]],
    version: Version,
) -> Result<(), AllocError> {
    if words.len() != 7 || words[5] != b"at".as_slice() {
        if say_text_in(said, words, version)? {
            return Ok(());
        }
        say_expected(said, line, RECORD)?;
        return said.push_str("; E, where the record starts, is A or B");
    }
    for word in &words[1..4] {
        if !is_name(*word) {
            return say_no_name(said, *word);
        }
    }
    if words[6] != words[2] && words[6] != words[3] {
        return say_end(said, words[6], words[2], words[3]);
    }
    say_no_value(said, words[4], version)
}

/// That an end is neither of the two.
fn say_end(said: &mut String, end: &[u8], a: &[u8], b: &[u8]) -> Result<(), AllocError> {
    let (end, a, b) = (Quoted(end), Quoted(a), Quoted(b));
    write!(said, "{end} is neither {a} nor {b}, the ends of the pair")
}

/// A text, and the number of the line that is refused.
#[derive(Clone, Copy)]
struct Around<'a> {
    alloc: Global,
    text: &'a [u8],
    line: u64,
}

/// What a line may declare.
#[derive(Clone, Copy)]
enum Declared<'a> {
    Office(&'a [u8]),
    Address(&'a [u8]),
    Pair(&'a [u8], &'a [u8]),
    Record(&'a [u8]),
}

impl Declared<'_> {
    fn is_by(&self, words: &[&[u8]]) -> bool {
        let keyword = word_at(words, 0);
        let first = word_at(words, 1);
        let second = word_at(words, 2);
        match *self {
            Declared::Office(name) => keyword == b"office".as_slice() && first == name,
            Declared::Address(address) => keyword == b"office".as_slice() && second == address,
            Declared::Pair(a, b) => {
                keyword == b"pair".as_slice()
                    && (first == a && second == b || first == b && second == a)
            }
            Declared::Record(name) => keyword == b"record".as_slice() && first == name,
        }
    }
}

impl fmt::Display for Declared<'_> {
    fn fmt<W: fmt::Write>(&self, f: &mut fmt::Formatter<W>) -> fmt::Result {
        let (what, word) = match *self {
            Declared::Office(name) => ("office", Quoted(name)),
            Declared::Address(address) => ("address", Quoted(address)),
            Declared::Record(name) => ("record", Quoted(name)),
            Declared::Pair(a, b) => {
                let (a, b) = (Quoted(a), Quoted(b));
                return write!(f, "the pair of {a} and {b}");
            }
        };
        write!(f, "the {what} {word}")
    }
}

impl Around<'_> {
    /// The first line that declares it. None where none does.
    fn line_of(&self, declared: Declared<'_>) -> Result<Option<u64>, AllocError> {
        let mut lines = Lines { rest: self.text };
        for i in 0..self.text.len() {
            let Some(line) = lines.next() else {
                break;
            };
            if declared.is_by(&plan_words(self.alloc, line)?) {
                return Ok(Some(i as u64 + 1));
            }
        }
        Ok(None)
    }

    /// The line above that declares it.
    fn line_above(&self, declared: Declared<'_>) -> Result<Option<u64>, AllocError> {
        match self.line_of(declared)? {
            Some(line) if line < self.line => Ok(Some(line)),
            _ => Ok(None),
        }
    }

    /// Adds that no line above declares it, and which line below does.
    fn say_undeclared(&self, said: &mut String, declared: Declared<'_>) -> Result<(), AllocError> {
        write!(said, "no line above declares {declared}")?;
        match self.line_of(declared)? {
            Some(line) => write!(said, "; line {line} does, and has to stand above this one"),
            None => Ok(()),
        }
    }
}

fn say_twice(said: &mut String, around: &Around<'_>, words: &[&[u8]]) -> Result<(), AllocError> {
    let name = word_at(words, 1);
    let declared = if word_at(words, 0) == b"record".as_slice() {
        Declared::Record(name)
    } else if around.line_above(Declared::Office(name))?.is_some() {
        Declared::Office(name)
    } else {
        Declared::Address(word_at(words, 2))
    };
    say_declared(said, around, declared)
}

fn say_declared(
    said: &mut String,
    around: &Around<'_>,
    declared: Declared<'_>,
) -> Result<(), AllocError> {
    let line = around.line_above(declared)?.unwrap_or(0);
    write!(said, "{declared} was declared on line {line}")
}

fn say_unknown(said: &mut String, around: &Around<'_>, words: &[&[u8]]) -> Result<(), AllocError> {
    let at = if word_at(words, 0) == b"record".as_slice() {
        2
    } else {
        1
    };
    let a = word_at(words, at);
    let b = word_at(words, at + 1);
    for declared in [Declared::Office(a), Declared::Office(b)] {
        if around.line_above(declared)?.is_none() {
            return around.say_undeclared(said, declared);
        }
    }
    around.say_undeclared(said, Declared::Pair(a, b))
}

fn say_pair_twice(
    said: &mut String,
    around: &Around<'_>,
    words: &[&[u8]],
) -> Result<(), AllocError> {
    let pair = Declared::Pair(word_at(words, 1), word_at(words, 2));
    say_declared(said, around, pair)?;
    said.push_str(", and a pair is the same in both orders")
}

fn say_limit(said: &mut String, words: &[&[u8]]) -> Result<(), AllocError> {
    let name = Quoted(word_at(words, 1));
    if word_at(words, 0) == b"office".as_slice() {
        let count = MOST_OFFICES + 1;
        return write!(
            said,
            "{name} is office {count} of the plan, which may have {MOST_OFFICES}"
        );
    }
    let (a, b) = (Quoted(word_at(words, 2)), Quoted(word_at(words, 3)));
    let count = MOST_PAIR_RECORDS + 1;
    write!(
        said,
        "{name} is record {count} of {a} and {b}, and a pair may have {MOST_PAIR_RECORDS}"
    )
}
