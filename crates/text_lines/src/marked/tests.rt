use crate::marked::{Words, next_words};
use crate::{Statements, first_word, is_plain};
use std::alloc::{AllocError, Global};

/// Whether a line's words are those that are found one by one.
fn are_words(line: &[u8], marked: Option<Words<'_>>) -> bool {
    let Some(marked) = marked else {
        return !is_plain(line);
    };
    let mut words = marked;
    let mut left = line;
    for _ in 0..50 {
        match (words.next(), first_word(left)) {
            (Some(word), Some((first, rest))) => {
                if word != first {
                    return false;
                }
                left = rest;
            }
            (None, None) => return is_plain(line),
            _ => return false,
        }
    }
    false
}

/// Whether the first line of a text that says something, and what is left after it, are those that are found one by one.
fn is_same(text: &[u8]) -> bool {
    let mut left = Statements {
        rest: text,
        number: 7,
    };
    let mut one_by_one = left;
    match (next_words(&mut left), one_by_one.next()) {
        (Some((number, line, words)), Some((at, statement))) => {
            number == at
                && line == statement
                && left.number == one_by_one.number
                && left.rest == one_by_one.rest
                && are_words(statement, words)
        }
        (None, None) => true,
        _ => false,
    }
}

/// Whether a word is so many of the letter a.
fn is_run(word: Option<&[u8]>, letters: usize) -> bool {
    match word {
        Some(word) => word.len() == letters && word.iter().all(|b| *b == b'a'),
        None => false,
    }
}

/// A line with a word of so many letters and two more, and then a line of so many letters.
fn two_lines(alloc: Global, letters: usize, more: usize) -> Result<Vec<u8>, AllocError> {
    let mut text = vec![in alloc; b'a'; letters]?;
    text.extend_from_slice(b" bc d\n")?;
    for _ in 0..more {
        text.push(b'e')?;
    }
    Ok(text)
}

#[test]
fn a_word_ends_at_each_place_of_a_block(rt: HostRuntime) -> Result<(), AllocError> {
    for letters in 1..200 {
        for more in [0, 1, 50, 64, 130] {
            let text = two_lines(rt.alloc(), letters, more)?;
            assert!(rt; is_same(&text), "{letters} and {more} letters");
            let mut left = Statements {
                rest: &text,
                number: 1,
            };
            let Some((1, _, Some(line))) = next_words(&mut left) else {
                panic!(rt; "no plain first line: {letters} and {more} letters");
            };
            let mut words = line;
            assert!(rt; is_run(words.next(), letters), "{letters} letters");
            assert_eq!(rt; words.next(), Some(&b"bc"[..]));
            assert_eq!(rt; words.next(), Some(&b"d"[..]));
            assert_eq!(rt; words.next(), None);
        }
    }
    Ok(())
}

#[test]
fn a_byte_that_may_not_stand_is_found_at_each_place(rt: HostRuntime) -> Result<(), AllocError> {
    for place in 1..200 {
        for byte in [0x00, 0x0b, 0x1f, 0x7f, 0x80, 0xff] {
            let mut text = two_lines(rt.alloc(), 200, 130)?;
            if place < text.len() {
                text[place] = byte;
            }
            assert!(rt; is_same(&text), "{byte} at {place}");
            let mut left = Statements {
                rest: &text,
                number: 1,
            };
            let Some((1, _, None)) = next_words(&mut left) else {
                panic!(rt; "a plain line: {byte} at {place}");
            };
        }
    }
    Ok(())
}
