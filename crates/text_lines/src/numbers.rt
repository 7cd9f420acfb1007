//! Words that are numbers.

ghost use Rattle.std.specs.Prelude.{◌≡◌, ◌∷◌, [], length, true, ◌≤◌};
ghost use Rattle.std.specs.List.{list_all};
ghost use Rattle.std.specs.Char.{is_ascii_digit};
ghost use Rattle.text_lines.specs.Text.{number_of, decimal};

use crate::limits::{MOST_DIGITS, NUMBERS_END};

/// The value of a NUMBER: one to nineteen digits, at most the largest i64.
pub fn number(word: &[u8]) -> Option<u64>
    ensures { result ≡ number_of word.now }
{
    if let [digit] = word {
        return one_digit(*digit);
    }
    if word.is_empty() || word.len() > MOST_DIGITS || !has_only_digits(word) {
        return None;
    }
    let value = digits(word);
    if value < NUMBERS_END {
        Some(value)
    } else {
        None
    }
}

fn one_digit(digit: u8) -> Option<u64>
    ensures { result ≡ number_of (digit ∷ []) }
{
    if digit.is_ascii_digit() {
        Some((digit - b'0') as u64)
    } else {
        None
    }
}

/// Whether a word has no byte but decimal digits.
pub fn has_only_digits(word: &[u8]) -> bool
    ensures { result ≡ list_all is_ascii_digit word.now }
{
    word.iter().all(|b| b.is_ascii_digit())
}

fn digits(word: &[u8]) -> u64
    requires short { length word.now ≤ 19 }
    requires digits { list_all is_ascii_digit word.now ≡ true }
    ensures { result ≡ decimal word.now }
{
    let mut value: u64 = 0;
    for b in word {
        value = 10 * value + (*b - b'0') as u64;
    }
    value
}
