//! The words of a plan's line.

ghost use Rattle.std.specs.Prelude.{◌≡◌, ◌∷◌, ◌<◌, [], length, map, IfOk, IfSome, MatchOption};
ghost use Rattle.office_map.specs.PlanWords.{others_of, plan_words};

use std::alloc::{AllocError, Global};
use text_lines::{blank_place, is_blank, place_of};

/// The words of a line of a plan, in order.
pub fn plan_words(alloc: Global, line: &[u8]) -> Result<Vec<&[u8]>, AllocError>
    ensures { IfOk result (λ v. map (λ w. w.now) v.items ≡ plan_words line.now) }
{
    let mut words = Vec::new(alloc);
    let mut left = line;
    while let Some((word, next)) = first_plan_word(left) {
        words.push(word)?;
        left = next;
    }
    Ok(words)
}

/// The first word of a line of a plan, and what stands after it.
pub fn first_plan_word(line: &[u8]) -> Option<(&[u8], &[u8])>
    ensures cut { MatchOption result
        (plan_words line.now ≡ [])
        (λ p. plan_words line.now ≡ p.0.now ∷ plan_words p.1.now) }
    ensures shorter { IfSome result (λ p. length p.1.now < length line.now) }
{
    let mut left = line;
    while let Some((first, next)) = left.split_first() {
        if !is_blank(*first) {
            let others = others_of(*first, next).min(next.len());
            return Some(left.split_at(others + 1));
        }
        left = next;
    }
    None
}

/// How many of these bytes belong to the word that this one begins; more than there are where a `"` has no other.
fn others_of(first: u8, next: &[u8]) -> usize
    ensures { result ≡ others_of first next.now }
{
    if first != b'"' {
        return blank_place(next);
    }
    let quoted = place_of(next, b'"') + 1;
    if quoted > next.len() {
        return quoted;
    }
    quoted + blank_place(next.split_at(quoted).1)
}
