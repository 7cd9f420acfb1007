//! What is said of offices that precede one another in a ring.

use crate::shown::{Lines, word_at};
use office_map::Ring;
use std::alloc::{AllocError, Global};
use text_lines::{name, words};

/// A pair of the ring: the line that declares it, its ends as they stand there, and the end that its fork would start at,
/// if it were turned.
#[derive(Clone, Copy)]
struct Turn<'a> {
    line: u64,
    a: &'a str,
    b: &'a str,
    start: &'a str,
    turned: &'a str,
}

/// What is said of the ring of a plan's text: its offices, and a fork that is turned for it to be gone. Each of its forks is
/// one; told is that of the pair which the text declares last.
pub fn of_ring(alloc: Global, text: &[u8], ring: &Ring) -> Result<String, AllocError> {
    let mut said = format!(in alloc; "{ring} (each precedes the next, and the last the first)")?;
    if let Some(turn) = last_turn(alloc, text, ring)? {
        let Turn {
            line,
            a,
            b,
            start,
            turned,
        } = turn;
        write!(
            said,
            "; turn a fork: with `pair {a} {b} fork {turned}` on line {line}, in place of `fork {start}`, this ring is gone"
        )?;
    }
    Ok(said)
}

fn last_turn<'a>(
    alloc: Global,
    text: &'a [u8],
    ring: &Ring,
) -> Result<Option<Turn<'a>>, AllocError> {
    let mut last = None;
    let mut lines = Lines { rest: text };
    for i in 0..text.len() {
        let Some(line) = lines.next() else {
            break;
        };
        if let Some(turn) = turn_in(&words(alloc, line)?, i as u64 + 1, ring) {
            last = Some(turn);
        }
    }
    Ok(last)
}

/// The pair that a line declares, if its ends come one after another in the ring.
fn turn_in<'a>(words: &[&'a [u8]], line: u64, ring: &Ring) -> Option<Turn<'a>> {
    if word_at(words, 0) != b"pair".as_slice() {
        return None;
    }
    let a = name(word_at(words, 1))?;
    let b = name(word_at(words, 2))?;
    let start = name(word_at(words, 4))?;
    let turned = if start == a { b } else { a };
    if !follows(ring, turned, start) {
        return None;
    }
    Some(Turn {
        line,
        a,
        b,
        start,
        turned,
    })
}

/// Whether an office comes right after another in the ring, or is its first where the other is its last.
fn follows(ring: &Ring, before: &str, office: &str) -> bool {
    let mut last = match ring.names.last() {
        Some(name) => name.as_str(),
        None => "",
    };
    for name in &ring.names {
        if last == before && name.as_str() == office {
            return true;
        }
        last = name.as_str();
    }
    false
}
