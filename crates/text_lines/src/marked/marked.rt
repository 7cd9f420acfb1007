//! A plain line that begins a text, with marks of the text's first bytes.

ghost use Rattle.std.specs.Prelude.{◌≡◌, ◌≤◌, ◌<◌, ◌+◌, ◌-◌, ◌∷◌, [], length, take, drop, true, MatchOption};
ghost use Rattle.std.specs.List.{list_all, position_or_len};
ghost use Rattle.text_lines.specs.Text.{is_blank, is_plain, words_of};
ghost use Rattle.text_lines.specs.marked.refinement.Marks.{IsMarked, put_before};

use crate::marked::marks::{BLOCK, low_marks};
use memchr::memchr2;

/// What is left of the line, and the marks.
#[derive(Clone, Copy)]
pub(crate) struct Marked<'a> {
    /// The text from the line's next byte on.
    pub text: &'a [u8],
    /// How many of its bytes are the line's.
    pub end: usize,
    /// Which of its first bytes are at most a space.
    pub low: u64,
    /// How many of them are marked.
    pub seen: usize,
}

/// The line's next word.
#[inline(always)]
#[tactic(auto, using(crate::proofs::marked_lemmas::Cuts::word_told, crate::proofs::marked_lemmas::Cuts::no_word_told))]
pub(crate) fn next_word<'a>(left: &mut Marked<'a>) -> Option<&'a [u8]>
    requires { IsMarked left.old.text.now left.old.end left.old.low left.old.seen }
    ensures marked { IsMarked left.new.text.now left.new.end left.new.low left.new.seen }
    ensures word { MatchOption result
        ((words_of (take left.old.end left.old.text.now) ≡ []) × (words_of (take left.new.end left.new.text.now) ≡ []))
        (λ w. words_of (take left.old.end left.old.text.now) ≡ w.now ∷ words_of (take left.new.end left.new.text.now)) }
{
    while left.end > 0 {
        let word = cut(left);
        if !word.is_empty() {
            return Some(word);
        }
    }
    None
}

/// What stands before the line's first blank. It and the blank are gone.
#[inline(always)]
fn cut<'a>(left: &mut Marked<'a>) -> &'a [u8]
    requires marked { IsMarked left.old.text.now left.old.end left.old.low left.old.seen }
    requires some { 0 < left.old.end }
    ensures marked { IsMarked left.new.text.now left.new.end left.new.low left.new.seen }
    ensures shorter { left.new.end < left.old.end }
    ensures words { words_of (take left.old.end left.old.text.now) ≡ put_before result.now (words_of (take left.new.end left.new.text.now)) }
{
    if left.low == 0 {
        let (word, rest) = cut_unmarked(*left);
        *left = rest;
        return word;
    }
    let at = marked_place(*left);
    cut_at(left, at)
}

/// The same of a line of which no mark is left: the text is looked at again. By value, so that the marks of other lines needn't stand
/// in memory.
#[inline(never)]
fn cut_unmarked<'a>(line: Marked<'a>) -> (&'a [u8], Marked<'a>)
    requires marked { IsMarked line.text.now line.end line.low line.seen }
    requires some { 0 < line.end }
    ensures marked { IsMarked result.1.text.now result.1.end result.1.low result.1.seen }
    ensures shorter { result.1.end < line.entry.end }
    ensures words { words_of (take line.entry.end line.entry.text.now) ≡ put_before result.0.now (words_of (take result.1.end result.1.text.now)) }
{
    let mut left = look(line.text, line.end);
    let at = place(left);
    let word = cut_at(&mut left, at);
    (word, left)
}

/// The bytes before the line's first blank, where that has this place.
#[inline(always)]
fn cut_at<'a>(left: &mut Marked<'a>, at: usize) -> &'a [u8]
    requires marked { IsMarked left.old.text.now left.old.end left.old.low left.old.seen }
    requires some { 0 < left.old.end }
    requires there { at ≡ position_or_len is_blank (take left.old.end left.old.text.now) }
    ensures marked { IsMarked left.new.text.now left.new.end left.new.low left.new.seen }
    ensures shorter { left.new.end < left.old.end }
    ensures words { words_of (take left.old.end left.old.text.now) ≡ put_before result.now (words_of (take left.new.end left.new.text.now)) }
{
    let word = left.text.split_at(at).0;
    *left = after(*left, at);
    word
}

/// What is left of the line after this place.
#[inline(always)]
#[tactic(auto, using(crate::proofs::marked_lemmas::Places::unmarked_left, crate::proofs::marked_lemmas::Places::nothing_left, crate::proofs::marked_lemmas::Places::line_left))]
fn after<'a>(line: Marked<'a>, at: usize) -> Marked<'a>
    requires marked { IsMarked line.text.now line.end line.low line.seen }
    requires inside { at ≤ line.end }
    requires some { 0 < line.end }
    ensures marked { IsMarked result.text.now result.end result.low result.seen }
    ensures shorter { result.end < line.entry.end }
    ensures left { take result.end result.text.now ≡ drop (at + 1) (take line.entry.end line.entry.text.now) }
{
    if at == line.end {
        return Marked {
            text: line.text,
            end: 0,
            low: line.low,
            seen: line.seen,
        };
    }
    let text = line.text.split_at(at + 1).1;
    let end = line.end - (at + 1);
    if at < line.seen {
        return Marked {
            text,
            end,
            low: (line.low >> 1) >> at,
            seen: line.seen - (at + 1),
        };
    }
    Marked {
        text,
        end,
        low: 0,
        seen: 0,
    }
}

/// The place of the line's first blank, or how many bytes it has, where a mark tells it.
#[inline(always)]
fn marked_place(line: Marked<'_>) -> usize
    requires marked { IsMarked line.text.now line.end line.low line.seen }
    requires told { line.low ≡ 0 → line.end ≤ line.seen }
    ensures { result ≡ position_or_len is_blank (take line.entry.end line.entry.text.now) }
{
    let at = line.low.trailing_zeros() as usize;
    if at < line.end { at } else { line.end }
}

/// The same, whether a mark tells it or not.
fn place(line: Marked<'_>) -> usize
    requires { IsMarked line.text.now line.end line.low line.seen }
    ensures { result ≡ position_or_len is_blank (take line.entry.end line.entry.text.now) }
{
    if line.low == 0 && line.seen < line.end {
        return blank_place(line.text.split_at(line.end).0);
    }
    marked_place(line)
}

/// The place of a line's first blank, or how many bytes it has.
fn blank_place(line: &[u8]) -> usize
    ensures { result ≡ position_or_len is_blank line.now }
{
    memchr2(b' ', b'\t', line).unwrap_or(line.len())
}

/// The marks of a text that begins with a plain line of so many bytes.
#[inline(always)]
#[tactic(auto, using(crate::proofs::marked_lemmas::Places::unmarked))]
pub(crate) fn look<'a>(text: &'a [u8], end: usize) -> Marked<'a>
    requires within { end ≤ length text.now }
    requires plain { list_all is_plain (take end text.now) ≡ true }
    ensures marked { IsMarked result.text.now result.end result.low result.seen }
    ensures end { result.end ≡ end }
    ensures text { result.text.now ≡ text.entry.now }
{
    if text.len() < BLOCK {
        return Marked {
            text,
            end,
            low: 0,
            seen: 0,
        };
    }
    Marked {
        text,
        end,
        low: low_marks(text),
        seen: BLOCK,
    }
}
