//! The words of a line, one after the other.

ghost use Rattle.std.specs.Prelude.{◌≡◌, ◌≤◌, ◌∷◌, [], ℕ, List, true, length, take, MatchOption};
ghost use Rattle.std.specs.List.{list_all};
ghost use Rattle.text_lines.specs.Text.{is_plain, words_of};
ghost use Rattle.text_lines.specs.marked.refinement.Marks.{IsMarked};

use crate::marked::marked::{Marked, look, next_word};
use std::marker::Model;

/// The words of a plain line that are left.
#[derive(Drop)]
pub struct Words<'a> {
    line: Marked<'a>,
}

impl<'a> Model for Words<'a> {
    ghost use Rattle.std.specs.Prelude.{ℕ, List, take};
    ghost use Rattle.text_lines.specs.Text.{words_of};
    ghost use Rattle.text_lines.specs.marked.refinement.Marks.{IsMarked};

    ghost Value = { List (List ℕ) };

    ghost view = { λ w. words_of (take w.line.end w.line.text.now) };

    ghost invariant = { λ w. IsMarked w.line.text.now w.line.end w.line.low w.line.seen };
}

impl<'a> Words<'a> {
    /// Those of the line of so many bytes that begins a text.
    #[inline(always)]
    pub(crate) fn of(text: &'a [u8], end: usize) -> Words<'a>
        requires within { end ≤ length text.now }
        requires plain { list_all is_plain (take end text.now) ≡ true }
        ensures { result ≡ words_of (take end text.entry.now) }
    {
        Words {
            line: look(text, end),
        }
    }

    /// The next word.
    #[inline(always)]
    pub fn next(&mut self) -> Option<&'a [u8]>
        ensures { MatchOption result ((self.old ≡ []) × (self.new ≡ [])) (λ w. self.old ≡ w.now ∷ self.new) }
    {
        next_word(&mut self.line)
    }
}
