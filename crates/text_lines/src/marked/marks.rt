//! Marks of 64 bytes at once.

ghost use Rattle.std.specs.Prelude.{◌≡◌, ◌≤◌, ◌<◌, ◌+◌, ℕ, length, take, drop, get_or, true};
ghost use Rattle.std.specs.Simd.Lanes.{mask_l};
ghost use Rattle.text_lines.specs.marked.refinement.Marks.{low_marks, is_printable};

use std::simd::prelude::*;

/// So many bytes are looked at together.
pub(crate) const BLOCK: usize = 64;

/// Which of a text's first 64 bytes are at most a space, the first in the lowest bit.
#[inline(always)]
pub(crate) fn low_marks(text: &[u8]) -> u64
    requires { BLOCK ≤ length text.now }
    ensures { result ≡ low_marks (take 64 text.now) }
{
    u8x64::from_slice(text)
        .simd_lt(u8x64::splat(33))
        .to_bitmask()
}

/// So many printable bytes begin the text for sure: those before the first other one, as far as whole blocks tell.
#[inline(always)]
#[tactic(auto, using(crate::proofs::marked_lemmas::Blocks::printable_more))]
pub(crate) fn printable_run(text: &[u8]) -> usize
    ensures within { result ≤ length text.now }
    ensures printable { (k : ℕ) → k < result → is_printable (get_or text.now k 0) ≡ true }
{
    let mut run = 0;
    while text.len() - run >= BLOCK {
        let more = printable_of_block(text.split_at(run).1);
        run += more;
        if more < BLOCK {
            return run;
        }
    }
    run
}

/// How many of 64 bytes come before the first control byte, or none where one of them isn't ASCII.
#[inline(always)]
fn printable_of_block(text: &[u8]) -> usize
    requires { BLOCK ≤ length text.now }
    ensures few { result ≤ BLOCK }
    ensures printable { (k : ℕ) → k < result → is_printable (get_or text.now k 0) ≡ true }
{
    let bytes = u8x64::from_slice(text);
    let high = bytes.simd_gt(u8x64::splat(b'~')).to_bitmask();
    if high != 0 {
        return 0;
    }
    let control = bytes.simd_lt(u8x64::splat(b' ')).to_bitmask();
    if control == 0 {
        return BLOCK;
    }
    control.trailing_zeros() as usize
}
