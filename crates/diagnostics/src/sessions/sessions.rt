//! What is said of a refused text of sessions.

use crate::sessions::measures::measures_of;
use crate::sessions::place::{Block, Place, first_word, keyword_in, second_word};
use crate::shown::{
    Quoted, Text, say_alike, say_expected, say_no_name, say_no_office, say_other_text,
    say_text_bytes, say_unreadable, say_word, word_at,
};
use bottle_values::Version;
use office_map::{Plan, RecordId};
use session_language::keyword::Keyword;
use session_language::lexer::{Piece, Pieces, Symbol};
use session_language::limits::{
    CODES_END, MOST_BLOCKS, MOST_BYTES, MOST_COST, MOST_DEPTH, MOST_GIVES, MOST_RECORDS,
    MOST_SESSIONS, MOST_STATEMENTS, MOST_TURNS, MOST_VARIABLES, TEXT_LIMIT,
};
use session_language::{SessionRefusal, SessionRule};
use std::alloc::{AllocError, Global};
use text_lines::limits::{MOST_LETTERS, NUMBERS_END};
use text_lines::{has_only_digits, is_name, name, number};

/// What is said of the refusal of a text of sessions under this plan.
pub fn of_sessions(
    alloc: Global,
    text: &[u8],
    plan: &Plan,
    refusal: SessionRefusal,
) -> Result<String, AllocError> {
    let mut said = String::new(alloc);
    if refusal.line == 0 {
        write!(said, "the text has more than {TEXT_LIMIT} bytes")?;
        return Ok(said);
    }
    let place = Place::of(alloc, plan, text, refusal.line)?;
    say_rule(&mut said, &place, refusal.rule)?;
    Ok(said)
}

fn say_rule(said: &mut String, place: &Place<'_>, rule: SessionRule) -> Result<(), AllocError> {
    match rule {
        SessionRule::Syntax => say_syntax(said, place),
        SessionRule::UnknownName => say_unknown_name(said, place),
        SessionRule::UnknownRecord => say_unknown_record(said, place),
        SessionRule::TooDeep => say_too_deep(said, place),
        SessionRule::TooLong => say_too_long(said, place),
        SessionRule::TooManyGives => say_too_many_gives(said, place),
        SessionRule::TooManyRecords => say_too_many(said, place, Named::Records),
        SessionRule::TooManyVariables => say_too_many(said, place, Named::Variables),
    }
}

// ---- lines of no form, and lines that can't stand where they stand

fn say_syntax(said: &mut String, place: &Place<'_>) -> Result<(), AllocError> {
    let line = place.line;
    if text_lines::first_word(line).is_none() {
        return say_no_end(said, place);
    }
    if say_unreadable(said, line)? {
        return Ok(());
    }
    let keyword = keyword_in(line);
    if place.begun == 0 && keyword != Keyword::Session {
        return say_outside(said, line);
    }
    if say_stray(said, line, place.plan.version())? {
        return Ok(());
    }
    match keyword {
        Keyword::Session => say_session(said, place),
        Keyword::Else => say_else(said, place),
        Keyword::End => say_expected(said, line, "`end`, alone on its line"),
        Keyword::Let => say_given(said, line, "`let VARIABLE = EXPRESSION`"),
        Keyword::Set => say_given(said, line, "`set RECORD = EXPRESSION`"),
        Keyword::Give => say_form(said, line, "`give EXPRESSION`"),
        Keyword::Require => {
            let last = CODES_END - 1;
            let form = format!(in place.alloc;
                "`require EXPRESSION COMPARISON EXPRESSION else CODE`, with CODE from 0 to {last}"
            )?;
            say_compared(said, line, form.as_str())
        }
        Keyword::If => say_compared(said, line, "`if EXPRESSION COMPARISON EXPRESSION`"),
        Keyword::Repeat => {
            let form = format!(in place.alloc;
                "`repeat COUNT`, with COUNT from 0 to {MOST_TURNS}"
            )?;
            say_expected(said, line, form.as_str())
        }
        Keyword::Other => say_other(said, line),
    }
}

fn say_no_end(said: &mut String, place: &Place<'_>) -> Result<(), AllocError> {
    let begun = place.begun;
    write!(said, "the session of line {begun} has no `end`")?;
    match place.blocks.last() {
        None => Ok(()),
        Some(block) => {
            said.push_str(", nor has ")?;
            say_block(said, *block)
        }
    }
}

fn say_block(said: &mut String, block: Block) -> Result<(), AllocError> {
    let word = if block.keyword == Keyword::If {
        "if"
    } else {
        "repeat"
    };
    let line = block.line;
    write!(said, "the `{word}` of line {line}")
}

fn say_session(said: &mut String, place: &Place<'_>) -> Result<(), AllocError> {
    if place.begun > 0 {
        said.push_str("`session` stands inside a session: ")?;
        return say_no_end(said, place);
    }
    say_expected(said, place.line, "`session OFFICE`")
}

fn say_outside(said: &mut String, line: &[u8]) -> Result<(), AllocError> {
    say_word(
        said,
        "",
        line,
        " stands outside of a session, and one begins with `session OFFICE`",
    )?;
    say_other_text(said, Text::Sessions, line)
}

/// Adds which symbol of a line the language hasn't, or what is wrong with a text, whichever comes first, if there is one.
fn say_stray(said: &mut String, line: &[u8], version: Version) -> Result<bool, AllocError> {
    let mut pieces = Pieces { rest: line };
    for _ in 0..line.len() {
        match pieces.next() {
            None => return Ok(false),
            Some(Piece::Stray) => {
                let column = line.len().saturating_sub(pieces.rest.len());
                let stray = line.get(column.saturating_sub(1)).copied().unwrap_or(b' ');
                say_symbol(said, stray, column, version)?;
                return Ok(true);
            }
            Some(Piece::Quoted(bytes)) => {
                let after = line.len().saturating_sub(pieces.rest.len());
                let column = after.saturating_sub(bytes.len()).saturating_sub(1);
                if say_quoted(said, bytes, column, version)? {
                    return Ok(true);
                }
            }
            Some(_) => {}
        }
    }
    Ok(false)
}

/// Of a byte of a line that begins nothing.
fn say_symbol(
    said: &mut String,
    stray: u8,
    column: usize,
    version: Version,
) -> Result<(), AllocError> {
    if stray == b'"' && version == Version::Two {
        return write!(said, "the `\"` in column {column} has no closing `\"`");
    }
    let symbol = Quoted(&[stray]);
    let hint = hint_of(stray, version);
    write!(
        said,
        "{symbol} in column {column} is no symbol of the language, which has = == != < <= > >= + - * ( ){hint}"
    )
}

/// Of what stands between two quotation marks, if it is no text, or none is allowed.
fn say_quoted(
    said: &mut String,
    bytes: &[u8],
    column: usize,
    version: Version,
) -> Result<bool, AllocError> {
    if version == Version::One {
        say_symbol(said, b'"', column, version)?;
        return Ok(true);
    }
    say_text_bytes(said, bytes, column)
}

/// What to write in place of a symbol of other languages.
fn hint_of(stray: u8, version: Version) -> &'static str {
    match stray {
        b'/' | b'%' => "; it does not divide",
        b';' => "; a statement ends with its line",
        b',' | b'.' => "; a number is digits alone",
        b'"' => { "; a value is a whole number, and a text needs `plan 2 run N` as the first line" }
        b'\'' => {
            if version == Version::One {
                "; a value is a whole number, and a name has no quotes"
            } else {
                "; a text stands between two `\"`, and a name has no quotes"
            }
        }
        b'&' | b'|' => "; a condition is one comparison",
        b'!' => "; not to be equal is `!=`",
        b'{' | b'}' | b':' => "; a block begins with its line, and ends with `end`",
        _ => "",
    }
}

fn say_else(said: &mut String, place: &Place<'_>) -> Result<(), AllocError> {
    let Some(block) = place.blocks.last() else {
        return said.push_str("`else` belongs to an `if`, and none is open here");
    };
    if block.keyword == Keyword::Repeat {
        said.push_str("`else` belongs to an `if`, and it is ")?;
        say_block(said, *block)?;
        return said.push_str(" that is open here");
    }
    if block.has_else {
        say_block(said, *block)?;
        return said.push_str(" has an `else` already");
    }
    say_expected(said, place.line, "`else`, alone on its line")
}

fn say_other(said: &mut String, line: &[u8]) -> Result<(), AllocError> {
    let word = first_word(line);
    let shown = if word.is_empty() { line } else { word };
    say_word(
        said,
        "",
        shown,
        " begins no line of a session: that is let, set, give, require, if, else, repeat or end",
    )?;
    if let (Some(name), true) = (
        name(word),
        has_one(line, false) && second_word(line).is_empty(),
    ) {
        write!(
            said,
            "; a variable is given a value by `let {name} = ..`, and a record by `set {name} = ..`"
        )?;
    }
    say_other_text(said, Text::Sessions, line)
}

/// Of a `let` or `set`.
fn say_given(said: &mut String, line: &[u8], form: &str) -> Result<(), AllocError> {
    let target = second_word(line);
    if !target.is_empty() && !is_name(target) {
        return say_no_name(said, target);
    }
    if has_one(line, true) {
        said.push_str("a value is given by `=`, and not compared: ")?;
        return say_expected(said, line, form);
    }
    say_form(said, line, form)
}

/// Of a line with a condition.
fn say_compared(said: &mut String, line: &[u8], form: &str) -> Result<(), AllocError> {
    for (wrong, right) in [("=>", ">="), ("=<", "<="), ("<>", "!=")] {
        if has_outside_texts(line, wrong.as_bytes()) {
            write!(said, "`{wrong}` is written `{right}`: ")?;
            return say_expected(said, line, form);
        }
    }
    if has_one(line, false) {
        said.push_str("two values are compared by `==`, and not by `=`: ")?;
        return say_expected(said, line, form);
    }
    say_form(said, line, form)
}

/// Whether two bytes stand one after the other in a line, and in none of its texts.
fn has_outside_texts(line: &[u8], two: &[u8]) -> bool {
    let mut is_inside = false;
    for pair in line.windows(2) {
        if pair.first() == Some(&b'"') {
            is_inside = !is_inside;
        } else if !is_inside && pair == two {
            return true;
        }
    }
    false
}

/// Whether a line has a comparison, or else a `=`.
fn has_one(line: &[u8], comparison: bool) -> bool {
    let mut pieces = Pieces { rest: line };
    for _ in 0..line.len() {
        match pieces.next() {
            None => return false,
            Some(Piece::Symbol(symbol)) => {
                if is_comparison(symbol) == comparison && (comparison || symbol == Symbol::Assign) {
                    return true;
                }
            }
            Some(_) => {}
        }
    }
    false
}

fn is_comparison(symbol: Symbol) -> bool {
    match symbol {
        Symbol::Equal
        | Symbol::NotEqual
        | Symbol::Less
        | Symbol::AtMost
        | Symbol::Greater
        | Symbol::AtLeast => true,
        _ => false,
    }
}

/// Of a line with an expression: what can't stand in one, else its form.
fn say_form(said: &mut String, line: &[u8], form: &str) -> Result<(), AllocError> {
    let mut open: u32 = 0;
    let mut pieces = Pieces { rest: line };
    for _ in 0..line.len() {
        let Some(piece) = pieces.next() else {
            break;
        };
        match piece {
            Piece::Word(word) => {
                if is_long_number(word) {
                    let word = Quoted(word);
                    let last = NUMBERS_END - 1;
                    return write!(said, "{word} is past {last}");
                }
                if is_long_name(word) {
                    return say_no_name(said, word);
                }
            }
            Piece::Symbol(Symbol::Open) => open = open.saturating_add(1),
            Piece::Symbol(Symbol::Close) => {
                if open == 0 {
                    said.push_str("a `)` closes nothing: ")?;
                    return say_expected(said, line, form);
                }
                open -= 1;
            }
            Piece::Symbol(symbol) if open > 0 && is_comparison(symbol) => {
                said.push_str("a comparison stands outside of parentheses: ")?;
                return say_expected(said, line, form);
            }
            _ => {}
        }
    }
    if open > 0 {
        said.push_str("a `(` is not closed: ")?;
    }
    say_expected(said, line, form)
}

fn is_long_number(word: &[u8]) -> bool {
    has_only_digits(word) && number(word).is_none()
}

/// Whether it is spelled as a name is, and no name because of its length.
fn is_long_name(word: &[u8]) -> bool {
    word.len() > MOST_LETTERS && !has_only_digits(word)
}

// ---- names

fn say_unknown_name(said: &mut String, place: &Place<'_>) -> Result<(), AllocError> {
    if keyword_in(place.line) == Keyword::Session {
        return say_no_office(said, place.plan, second_word(place.line));
    }
    let known = names_of(place, Named::Variables)?;
    let Some(variable) = unknown_variable(place.line, &known) else {
        return said.push_str("no earlier line of the session lets a variable of this line");
    };
    say_word(
        said,
        "no earlier line of the session lets the variable ",
        variable,
        "",
    )?;
    if is_record(place.plan, variable) {
        let record = name(variable).unwrap_or("");
        return write!(said, "; it is a record, and read by `read {record}`");
    }
    Ok(())
}

/// The first variable of a line that isn't one of these.
fn unknown_variable<'a>(line: &'a [u8], known: &[&[u8]]) -> Option<&'a [u8]> {
    let targets: usize = match keyword_in(line) {
        Keyword::Let | Keyword::Set => 2,
        _ => 1,
    };
    let mut is_read = false;
    let mut pieces = Pieces { rest: line };
    for i in 0..line.len() {
        let mut is_next = false;
        match pieces.next() {
            None => return None,
            Some(Piece::Word(word)) => {
                if i >= targets && !is_read && is_name(word) && !(&*known).contains(&word) {
                    return Some(word);
                }
                is_next = word == b"read".as_slice();
            }
            Some(_) => {}
        }
        is_read = is_next;
    }
    None
}

/// Whether a line of the session above this place lets this variable.
fn is_let(place: &Place<'_>, variable: &[u8]) -> bool {
    place.body.iter().any(|line| keyword_in(*line) == Keyword::Let
        && second_word(*line) == variable)
}

fn is_record(plan: &Plan, word: &[u8]) -> bool {
    match name(word) {
        Some(name) => plan.record_named(name).is_some(),
        None => false,
    }
}

fn say_unknown_record(said: &mut String, place: &Place<'_>) -> Result<(), AllocError> {
    let plan = place.plan;
    for record in records_in(place.alloc, place.line)? {
        if !is_record(plan, record) {
            say_no_record(said, plan, record)?;
            if is_let(place, record) {
                let variable = name(record).unwrap_or("");
                write!(
                    said,
                    "; a variable is given a value by `let {variable} = ..`"
                )?;
            }
            return Ok(());
        }
        if !is_of_office(plan, record, place.office) {
            let (record, office) = (Quoted(record), Quoted(place.office));
            return write!(
                said,
                "the record {record} is not of the session's office {office}"
            );
        }
    }
    said.push_str("a record of this line is not of the session's office")
}

/// Adds that the plan has no such record, and the one that is spelled so but for capital letters.
fn say_no_record(said: &mut String, plan: &Plan, word: &[u8]) -> Result<(), AllocError> {
    say_word(said, "the plan has no record ", word, "")?;
    for number in 0..plan.records() {
        if say_alike(said, plan.record_name(RecordId::new(number as u16)), word)? {
            break;
        }
    }
    Ok(())
}

/// The records that a line sets and reads.
fn records_in<'a>(alloc: Global, line: &'a [u8]) -> Result<Vec<&'a [u8]>, AllocError> {
    let mut records = Vec::new(alloc);
    let mut is_record = false;
    let mut pieces = Pieces { rest: line };
    for i in 0..line.len() {
        let Some(piece) = pieces.next() else {
            break;
        };
        let mut is_next = false;
        if let Piece::Word(word) = piece {
            if is_record {
                records.push(word)?;
            }
            is_next = word == b"read".as_slice() || i == 0 && word == b"set".as_slice();
        }
        is_record = is_next;
    }
    Ok(records)
}

fn is_of_office(plan: &Plan, record: &[u8], office: &[u8]) -> bool {
    let Some(record) = name(record) else {
        return false;
    };
    let Some(office) = name(office) else {
        return false;
    };
    match (plan.record_named(record), plan.office_named(office)) {
        (Some(id), Some(office)) => plan.has_end(id, office),
        _ => false,
    }
}

// ---- limits

fn say_too_deep(said: &mut String, place: &Place<'_>) -> Result<(), AllocError> {
    let opens = match keyword_in(place.line) {
        Keyword::If | Keyword::Repeat => true,
        _ => false,
    };
    if opens && place.blocks.len() >= MOST_BLOCKS {
        let count = MOST_BLOCKS + 1;
        return write!(
            said,
            "it opens block {count} within one another, and at most {MOST_BLOCKS} may be open"
        );
    }
    write!(
        said,
        "an expression is more than {MOST_DEPTH} deep, where each operator, each leading minus and each pair of parentheses counts one"
    )
}

fn say_too_long(said: &mut String, place: &Place<'_>) -> Result<(), AllocError> {
    if keyword_in(place.line) == Keyword::Session {
        let count = place.sessions.saturating_add(1);
        return write!(
            said,
            "it begins session {count} of the text, which may have {MOST_SESSIONS}"
        );
    }
    let begun = place.begun;
    let measures = measures_of(place.alloc, &place.body)?;
    let statements = measures.statements;
    let cost = measures.cost;
    write!(said, "the session of line {begun} has ")?;
    if statements > MOST_STATEMENTS as u64 {
        return write!(
            said,
            "{statements} statements, and may have {MOST_STATEMENTS}"
        );
    }
    if cost > MOST_COST as u64 {
        return write!(said, "a cost of {cost}, and may have {MOST_COST}");
    }
    write!(said, "a canonical text of more than {MOST_BYTES} bytes")
}

fn say_too_many_gives(said: &mut String, place: &Place<'_>) -> Result<(), AllocError> {
    let begun = place.begun;
    let gives = measures_of(place.alloc, &place.body)?.gives;
    write!(
        said,
        "the session of line {begun} may come to {gives} values that it gives, and {MOST_GIVES} are allowed"
    )
}

/// What there may be too many of.
#[derive(Clone, Copy, PartialEq, Eq)]
enum Named {
    Records,
    Variables,
}

/// The first name past the limit.
fn say_too_many(said: &mut String, place: &Place<'_>, named: Named) -> Result<(), AllocError> {
    let mut names = names_of(place, named)?;
    add_names(place.alloc, &mut names, place.line, named)?;
    let (most, what) = match named {
        Named::Records => (MOST_RECORDS, "record"),
        Named::Variables => (MOST_VARIABLES, "variable"),
    };
    let begun = place.begun;
    let count = most + 1;
    let name = Quoted(word_at(&names, most));
    write!(
        said,
        "{name} is {what} {count} of the session of line {begun}, which may have {most}"
    )
}

/// What the session names above this place, each once: no more than it may name, however long it is.
fn names_of<'a>(place: &Place<'a>, named: Named) -> Result<Vec<&'a [u8]>, AllocError> {
    let mut names: Vec<&[u8]> = Vec::new(place.alloc);
    for line in place.body.iter() {
        add_names(place.alloc, &mut names, *line, named)?;
    }
    Ok(names)
}

/// Adds what a line names, each name once.
fn add_names<'a>(
    alloc: Global,
    names: &mut Vec<&'a [u8]>,
    line: &'a [u8],
    named: Named,
) -> Result<(), AllocError> {
    for name in named_in(alloc, line, named)? {
        if !names.contains(&name) {
            names.push(name)?;
        }
    }
    Ok(())
}

fn named_in<'a>(alloc: Global, line: &'a [u8], named: Named) -> Result<Vec<&'a [u8]>, AllocError> {
    if named == Named::Records {
        return records_in(alloc, line);
    }
    let mut names = Vec::new(alloc);
    if keyword_in(line) == Keyword::Let {
        names.push(second_word(line))?;
    }
    Ok(names)
}
