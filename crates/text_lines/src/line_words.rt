//! The words of a line.

ghost use Rattle.std.specs.Prelude.{◌≡◌, ◌+◌, ◌≤◌, ◌∷◌, [], length, drop, map, IfOk, MatchOption, true};
ghost use Rattle.std.specs.Str.{bytes_eq};
ghost use Rattle.std.specs.List.{position_or_len};
ghost use Rattle.text_lines.specs.Text.{words_of, is_blank};

use memchr::memchr2;
use std::alloc::{AllocError, Global};

/// A word of so many bytes is looked through byte by byte.
const SHORT_WORD: usize = 8;

/// The words of a line, in order.
pub fn words(alloc: Global, line: &[u8]) -> Result<Vec<&[u8]>, AllocError>
    ensures { IfOk result (λ v. map (λ w. w.now) v.items ≡ words_of line.now) }
{
    line.split(|b| *b == b' ' || *b == b'\t')
        .filter(|w| !w.is_empty())
        .collect(alloc)
}

/// The first word of a line, and what stands after it.
pub fn first_word(line: &[u8]) -> Option<(&[u8], &[u8])>
    ensures { MatchOption result
        (words_of line.now ≡ [])
        (λ p. words_of line.now ≡ p.0.now ∷ words_of p.1.now) }
{
    let mut left = line;
    while let Some((first, next)) = left.split_first() {
        if !is_blank(*first) {
            return Some(left.split_at(blank_place(left)));
        }
        left = next;
    }
    None
}

/// The place of the first space or tab, or the length where there is none. Most words are short: a search of many bytes at once
/// begins only after the first few.
pub fn blank_place(line: &[u8]) -> usize
    ensures { result ≡ position_or_len is_blank line.now }
{
    let near = if line.len() < SHORT_WORD {
        line.len()
    } else {
        SHORT_WORD
    };
    for place in 0..near {
        if is_blank(line[place]) {
            return place;
        }
    }
    far_place(line, near)
}

/// The place of the first space or tab from this one on, or the length where there is none. By itself, so that a short word pays
/// nothing for it.
#[inline(never)]
fn far_place(line: &[u8], near: usize) -> usize
    requires { near ≤ length line.now }
    ensures { result ≡ near + position_or_len is_blank (drop near line.now) }
{
    let far = line.split_at(near).1;
    near + memchr2(b' ', b'\t', far).unwrap_or(far.len())
}

/// Whether a byte is a space or a tab. Most bytes are told by the first look.
pub fn is_blank(byte: u8) -> bool
    ensures { result ≡ is_blank byte }
{
    byte <= b' ' && (byte == b' ' || byte == b'\t')
}

/// Whether two words are one. Most that differ are told apart without a look at all their bytes.
pub fn is_same_word(a: &[u8], b: &[u8]) -> bool
    ensures { result ≡ bytes_eq a.now b.now }
{
    end_alike(a, b) && a == b
}

/// Whether two words have one length and one last byte.
fn end_alike(a: &[u8], b: &[u8]) -> bool
    ensures { bytes_eq a.now b.now ≡ true → result ≡ true }
{
    if a.len() != b.len() {
        return false;
    }
    a.is_empty() || a[a.len() - 1] == b[b.len() - 1]
}
