//! The lines of a text that say something: those that are neither blank nor comments.

ghost use Rattle.std.specs.Prelude.{◌≡◌, ◌∷◌, [], ◌<◌, length, MatchOption, OnSome, ℕ, ◌+◌, ◌^◌};
ghost use Rattle.text_lines.specs.Text.{is_blank, says_something, statements_from, lines};

use crate::lines::first_line;

/// What is left of a text, and the number of the line that comes next: 1 at the start of
/// the text.
#[derive(Clone, Copy)]
pub struct Statements<'a> {
    pub rest: &'a [u8],
    pub number: u64,
}

impl<'a> Statements<'a> {
    /// The next line that says something, with its number.
    pub fn next(&mut self) -> Option<(u64, &'a [u8])>
        requires { self.old.number + length self.old.rest.now < 2 ^ 64 }
        ensures gives { MatchOption result
            (statements_from self.old.number (lines self.old.rest.now) ≡ [])
            (λ l. statements_from self.old.number (lines self.old.rest.now) ≡ (l.0, l.1.now) ∷ statements_from self.new.number (lines self.new.rest.now)) }
        ensures shorter { OnSome result (length self.new.rest.now < length self.old.rest.now) }
        ensures fits { self.new.number + length self.new.rest.now < 2 ^ 64 }
    {
        while let Some((first, next)) = self.rest.split_first() {
            let number = self.number;
            self.number += 1;
            if *first == b'\n' {
                self.rest = next;
            } else {
                let (line, after) = first_line(self.rest);
                self.rest = after;
                if says_something(line) {
                    return Some((number, line));
                }
            }
        }
        None
    }
}

fn says_something(line: &[u8]) -> bool
    ensures { result ≡ says_something line.now }
{
    for b in line {
        if *b != b' ' && *b != b'\t' {
            return *b != b'#';
        }
    }
    false
}
