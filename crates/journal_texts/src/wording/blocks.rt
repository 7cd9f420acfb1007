//! Digits, sixteen at a time.

ghost use Rattle.std.specs.Prelude.{◌≡◌, ◌+◌, ◌*◌, ◌/◌, ◌%◌, ◌<◌, ◌≤◌, ℕ, length, true, false, slice_index, Some};
ghost use Rattle.std.specs.List.{list_all};
ghost use Rattle.std.specs.Simd.Lanes.{chunk};
ghost use Rattle.hex.specs.Hex.{hex_digit_value, is_hex_digit};
ghost use Rattle.journal_texts.specs.wording.Digits.{bytes_in};
ghost use Rattle.journal_texts.specs.wording.refinement.Blocks.{AreWorth, Joins, IsWritten};

use std::simd::prelude::*;

/// So many digits are looked at together.
pub(crate) const BLOCK: usize = 16;

/// The bytes of a word of digits, twice as many as there is room for; whether it is one.
///
/// Where the digits don't fill the last block, it begins before the end of the one before, and writes some bytes again.
pub(crate) fn bytes_by_blocks(word: &[u8], bytes: &mut [u8]) -> bool
    requires long { BLOCK ≤ length word.now }
    requires twice { length word.now ≡ 2 * length bytes.old }
    ensures bytes { result ≡ true → bytes_in word.now ≡ Some bytes.new }
    ensures none { result ≡ false → list_all is_hex_digit word.now ≡ false }
{
    let mut all = true;
    for k in 0..word.len() / BLOCK {
        all &= block(word, BLOCK * k, bytes);
    }
    all & block(word, word.len() - BLOCK, bytes)
}

/// Sixteen digits, from an even place on, are eight bytes; whether all are digits.
#[inline(always)]
fn block(word: &[u8], at: usize, bytes: &mut [u8]) -> bool
    requires within { at + BLOCK ≤ length word.now }
    requires even { at % 2 ≡ 0 }
    requires twice { length word.now ≡ 2 * length bytes.old }
    ensures digits { result ≡ list_all is_hex_digit (chunk at 16 word.now) }
    ensures written { IsWritten word.now (at / 2) bytes.old bytes.new result }
{
    let (values, all) = values_of(u8x16::from_slice(&word[at..]));
    joined(values).copy_to_slice(&mut bytes[at / 2..]);
    all
}

/// What sixteen digits are worth, and whether all are digits.
#[inline(always)]
fn values_of(digits: u8x16) -> (u8x16, bool)
    ensures values { AreWorth digits result.0 }
    ensures all { result.1 ≡ list_all is_hex_digit digits }
{
    let digit = digits - u8x16::splat(b'0');
    let letter = (digits | u8x16::splat(0x20)) - u8x16::splat(b'a');
    let is_digit = digit.simd_lt(u8x16::splat(10));
    let is_letter = letter.simd_lt(u8x16::splat(6));
    let values = is_digit.select(digit, letter + u8x16::splat(10));
    (values, (is_digit | is_letter).to_bitmask() == 0xffff)
}

/// The bytes of which these are the halves, the upper one first.
#[inline(always)]
fn joined(values: u8x16) -> u8x8
    ensures { Joins values result }
{
    let upper = values.swizzle([0, 2, 4, 6, 8, 10, 12, 14]);
    let lower = values.swizzle([1, 3, 5, 7, 9, 11, 13, 15]);
    upper * u8x8::splat(16) + lower
}
