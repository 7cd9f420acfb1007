//! One line.

ghost use Rattle.std.specs.Prelude.{◌≡◌, IfOk, MatchOption, None};
ghost use Rattle.text_lines.specs.Text.{words_of};
ghost use Rattle.datagram_seals.specs.texts.SecretText.{line_of, secret_line};

use crate::texts::key::{Key, key_in};
use std::alloc::{AllocError, Global};
use text_lines::{ShortName, first_word, is_same_word, short_name};

/// What a line says: the names of two offices, and the key that they share.
#[derive(Drop)]
pub struct SecretLine {
    pub a: ShortName,
    pub b: ShortName,
    pub key: Key,
}

/// The words of a line that has four.
#[derive(Clone, Copy)]
struct Words<'a> {
    keyword: &'a [u8],
    a: &'a [u8],
    b: &'a [u8],
    digits: &'a [u8],
}

/// What a line says, if it has the form.
pub(crate) fn line_in(alloc: Global, line: &[u8]) -> Result<Option<SecretLine>, AllocError>
    ensures { IfOk result (λ said. said ≡ line_of (words_of line.now)) }
{
    match four_words(line) {
        Some(words) => secret_line(alloc, words.keyword, words.a, words.b, words.digits),
        None => Ok(None),
    }
}

fn four_words(line: &[u8]) -> Option<Words<'_>>
    ensures { MatchOption result
        (line_of (words_of line.now) ≡ None)
        (λ w. line_of (words_of line.now) ≡ secret_line w.keyword.now w.a.now w.b.now w.digits.now) }
{
    let (keyword, left) = first_word(line)?;
    let (a, left) = first_word(left)?;
    let (b, left) = first_word(left)?;
    let (digits, left) = first_word(left)?;
    match first_word(left) {
        Some(_) => None,
        None => Some(Words {
            keyword,
            a,
            b,
            digits,
        }),
    }
}

fn secret_line(
    alloc: Global,
    keyword: &[u8],
    a: &[u8],
    b: &[u8],
    digits: &[u8],
) -> Result<Option<SecretLine>, AllocError>
    ensures { IfOk result (λ line. line ≡ secret_line keyword.now a.now b.now digits.now) }
{
    if !is_same_word(keyword, b"secret") {
        return Ok(None);
    }
    let Some(a) = short_name(a) else {
        return Ok(None);
    };
    let Some(b) = short_name(b) else {
        return Ok(None);
    };
    match key_in(alloc, digits)? {
        Some(key) => Ok(Some(SecretLine { a, b, key })),
        None => Ok(None),
    }
}
