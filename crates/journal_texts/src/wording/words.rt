//! The words of offices, records and numbers.

ghost use Rattle.std.specs.Prelude.{◌≡◌, ◌≤◌, IfSome};
ghost use Rattle.std.specs.Str.{bytes_eq};
ghost use Rattle.journal_texts.specs.wording.Words.{office_by, record_by, count_by};

use office_map::{OfficeId, Plan, RecordId};
pub use session_reports::names::{office_name, record_name};
pub use session_reports::numbers::add_number;
use text_lines::{number, short_name};

/// Whether a word is this text.
pub fn is(word: &[u8], text: &str) -> bool
    ensures { result ≡ bytes_eq word.now text.now }
{
    word == text.as_bytes()
}

/// The office that a word names.
pub fn office_by(plan: &Plan, word: &[u8]) -> Option<OfficeId>
    ensures { result ≡ office_by plan.now word.now }
{
    let name = short_name(word)?;
    plan.office_of_name(&name)
}

/// The record that a word names.
pub fn record_by(plan: &Plan, word: &[u8]) -> Option<RecordId>
    ensures { result ≡ record_by plan.now word.now }
{
    let name = short_name(word)?;
    plan.record_of_name(&name)
}

/// A number from 1 to the most.
pub fn count_by(most: u16, word: &[u8]) -> Option<u16>
    ensures { result ≡ count_by most word.now }
{
    let n = counted(u64::from(most), word)?;
    Some(n as u16)
}

/// The same, where the most is greater.
pub fn great_count_by(most: u32, word: &[u8]) -> Option<u32>
    ensures { result ≡ count_by most word.now }
{
    let n = counted(u64::from(most), word)?;
    Some(n as u32)
}

fn counted(most: u64, word: &[u8]) -> Option<u64>
    ensures number { result ≡ count_by most word.now }
    ensures few { IfSome result (λ n. n ≤ most) }
{
    let n = number(word)?;
    if n < 1 || n > most {
        return None;
    }
    Some(n)
}
