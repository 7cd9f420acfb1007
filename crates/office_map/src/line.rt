//! One line of a plan.

ghost use Rattle.std.specs.Prelude.{◌≡◌, map, option_map};
ghost use Rattle.office_map.specs.PlanText.{declaration_of, office_line, pair_line, record_line, version_of, header_of, small_number, integer_of, negative_of, text_of, value_under};
ghost use Rattle.office_map.specs.PlanWords.{plan_words};
ghost use Rattle.text_lines.specs.Text.{number_of};
ghost use Rattle.std.specs.Str.{bytes_eq};
ghost use Rattle.office_map.specs.refinement.PlanReader.{seen};

use crate::address::address;
use crate::line_words::first_plan_word;
use crate::new_entries::{NewOffice, NewPair, NewRecord};
use bottle_values::{Text, Value, Version};
use text_lines::{number, place_of, short_name};

/// What a line declares.
#[derive(Clone, Copy)]
pub(crate) enum Declaration<'a> {
    Office(NewOffice<'a>),
    Pair(NewPair),
    Record(NewRecord),
}

/// An office has three words, a pair five and a record seven.
pub(crate) fn declaration_in(version: Version, line: &[u8]) -> Option<Declaration<'_>>
    ensures { option_map seen result ≡ declaration_of (value_under version) (plan_words line.now) }
{
    let (keyword, left) = first_plan_word(line)?;
    let (a, left) = first_plan_word(left)?;
    let (b, left) = first_plan_word(left)?;
    let Some((c, left)) = first_plan_word(left) else {
        return office(keyword, a, b);
    };
    let (d, left) = first_plan_word(left)?;
    let Some((e, left)) = first_plan_word(left) else {
        return pair(keyword, a, b, c, d);
    };
    let (f, left) = first_plan_word(left)?;
    match first_plan_word(left) {
        Some(_) => None,
        None => record(value(version, d), keyword, a, b, c, e, f),
    }
}

#[tactic(auto, using(text_lines::specs::TextLaws::is_named))]
fn office<'a>(keyword: &[u8], word: &'a [u8], place: &'a [u8]) -> Option<Declaration<'a>>
    ensures { option_map seen result ≡ office_line keyword.now word.now place.now }
{
    if !is(keyword, "office") {
        return None;
    }
    let name = short_name(word)?;
    let address = address(place)?;
    Some(Declaration::Office(NewOffice { name, address }))
}

fn pair<'a>(keyword: &[u8], a: &[u8], b: &[u8], fork: &[u8], at: &[u8]) -> Option<Declaration<'a>>
    ensures { option_map seen result ≡ pair_line keyword.now a.now b.now fork.now at.now }
{
    let fork_at_first = at == a;
    if !is(keyword, "pair") || !is(fork, "fork") || !(fork_at_first || at == b) {
        return None;
    }
    let a = short_name(a)?;
    let b = short_name(b)?;
    Some(Declaration::Pair(NewPair {
        a,
        b,
        fork_at_first,
    }))
}

#[tactic(auto, using(text_lines::specs::TextLaws::is_named))]
fn record<'a>(
    value: Option<Value>,
    keyword: &[u8],
    word: &[u8],
    a: &[u8],
    b: &[u8],
    at: &[u8],
    end: &[u8],
) -> Option<Declaration<'a>>
    ensures { option_map seen result
        ≡ record_line value keyword.now word.now a.now b.now at.now end.now }
{
    let starts_at_first = end == a;
    if !is(keyword, "record") || !is(at, "at") || !(starts_at_first || end == b) {
        return None;
    }
    let record_name = short_name(word)?;
    let a = short_name(a)?;
    let b = short_name(b)?;
    Some(Declaration::Record(NewRecord {
        name: record_name,
        a,
        b,
        value: value?,
        starts_at_first,
    }))
}

/// The version and the run number of a header.
pub(crate) fn header_in(words: &[&[u8]]) -> Option<(Version, u32)>
    ensures { result ≡ header_of (map (λ w. w.now) words.now) }
{
    match words {
        [plan, number, run, word] if is(plan, "plan") && is(run, "run") => {
            Some((version(number)?, small_number(word)?))
        }
        _ => None,
    }
}

/// The version that a word tells.
fn version(word: &[u8]) -> Option<Version>
    ensures { result ≡ version_of word.now }
{
    if is(word, "1") {
        Some(Version::One)
    } else if is(word, "2") {
        Some(Version::Two)
    } else {
        None
    }
}

fn small_number(word: &[u8]) -> Option<u32>
    ensures { result ≡ small_number (number_of word.now) }
{
    let n = number(word)?;
    if n < 4_294_967_296 {
        Some(n as u32)
    } else {
        None
    }
}

/// The value that a word spells under a version.
fn value(version: Version, word: &[u8]) -> Option<Value>
    ensures { result ≡ value_under version word.now }
{
    if let Some(number) = integer(word) {
        return Some(Value::Number(number));
    }
    match version {
        Version::One => None,
        Version::Two => Some(Value::Text(text(word)?)),
    }
}

/// The text between the two `"` of a word.
fn text(word: &[u8]) -> Option<Text>
    ensures { result ≡ text_of word.now }
{
    let (first, rest) = word.split_first()?;
    let end = place_of(rest, b'"');
    if *first == b'"' && end + 1 == rest.len() {
        Text::of(&rest[..end])
    } else {
        None
    }
}

fn integer(word: &[u8]) -> Option<i64>
    ensures { result ≡ integer_of word.now }
{
    match word {
        [b'-', digits @ ..] => negative(digits),
        _ => Some(number(word)? as i64),
    }
}

fn negative(digits: &[u8]) -> Option<i64>
    ensures { result ≡ negative_of digits.now }
{
    if is(digits, "9223372036854775808") {
        return Some(i64::MIN);
    }
    Some(-(number(digits)? as i64))
}

fn is(word: &[u8], text: &str) -> bool
    ensures { result ≡ bytes_eq word.now text.now }
{
    word == text.as_bytes()
}
