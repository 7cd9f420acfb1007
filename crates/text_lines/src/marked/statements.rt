//! The lines of a text that say something, each with its words.

ghost use Rattle.std.specs.Prelude.{◌≡◌, ◌∷◌, [], ◌<◌, ◌+◌, ◌^◌, ℕ, length, take, drop, MatchOption, OnSome, IfSome};
ghost use Rattle.text_lines.specs.Text.{statements_from, lines, plain_words};
ghost use Rattle.text_lines.specs.marked.refinement.Marks.{BeginsPlain};

use crate::marked::marks::printable_run;
use crate::marked::words::Words;
use crate::{Statements, is_plain};

/// The next line that says something, with its number, and with its words if it is plain.
pub fn next_words<'a>(left: &mut Statements<'a>) -> Option<(u64, &'a [u8], Option<Words<'a>>)>
    requires { left.old.number + length left.old.rest.now < 2 ^ 64 }
    ensures gives { MatchOption result
        (statements_from left.old.number (lines left.old.rest.now) ≡ [])
        (λ l. statements_from left.old.number (lines left.old.rest.now) ≡ (l.0, l.1.now) ∷ statements_from left.new.number (lines left.new.rest.now)) }
    ensures words { IfSome result (λ l. l.2 ≡ plain_words l.1.now) }
    ensures shorter { OnSome result (length left.new.rest.now < length left.old.rest.now) }
    ensures fits { left.new.number + length left.new.rest.now < 2 ^ 64 }
{
    let text = left.rest;
    if let Some(end) = plain_end(text) {
        let number = left.number;
        left.number += 1;
        left.rest = text.split_at(end + 1).1;
        return Some((number, text.split_at(end).0, Some(Words::of(text, end))));
    }
    let (number, line) = left.next()?;
    Some((number, line, words_if_plain(line)))
}

/// Where the line ends that begins a text, if it is found by blocks, is plain and says something.
#[inline(always)]
fn plain_end(text: &[u8]) -> Option<usize>
    ensures { IfSome result (BeginsPlain text.now) }
{
    let end = printable_run(text);
    if end < text.len() && text[end] == b'\n' && text[0] > b'#' {
        return Some(end);
    }
    None
}

#[tactic(auto, using(crate::proofs::marked_lemmas::PlainLines::words_there, crate::proofs::marked_lemmas::PlainLines::no_words_there))]
fn words_if_plain<'a>(line: &'a [u8]) -> Option<Words<'a>>
    ensures { result ≡ plain_words line.entry.now }
{
    if !is_plain(line) {
        return None;
    }
    Some(Words::of(line, line.len()))
}
