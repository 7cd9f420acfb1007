//! Words that are names.

ghost use Rattle.std.specs.Prelude.{◌≡◌};
ghost use Rattle.std.specs.Option.{option_copied};
ghost use Rattle.std.specs.List.{list_all};
ghost use Rattle.text_lines.specs.Text.{is_name, name_of, is_keyword, is_name_byte};

use crate::limits::MOST_LETTERS;
use crate::line_words::is_same_word;
use crate::short::ShortName;

/// A word as text, if it is a NAME.
pub fn name(word: &[u8]) -> Option<&str>
    ensures { option_copied result ≡ name_of word.now }
{
    if is_name(word) {
        str::from_utf8(word).ok()
    } else {
        None
    }
}

/// A word as a NAME, if it is one. Its letters are looked at once.
#[tactic(auto, using(crate::specs::TextLaws::name_is_short))]
pub fn short_name(word: &[u8]) -> Option<ShortName>
    ensures { result ≡ name_of word.now }
{
    if is_name(word) {
        Some(ShortName::packed(word))
    } else {
        None
    }
}

/// Whether a word is a NAME.
#[inline(always)]
pub fn is_name(word: &[u8]) -> bool
    ensures { result ≡ is_name word.now }
{
    match word {
        [only] => only.is_ascii_alphabetic(),
        _ => is_longer_name(word),
    }
}

/// The same, for words of all lengths.
fn is_longer_name(word: &[u8]) -> bool
    ensures { result ≡ is_name word.now }
{
    match word {
        [] => false,
        [first, ..] => {
            if !first.is_ascii_alphabetic() || word.len() > MOST_LETTERS {
                return false;
            }
            has_name_bytes(word) && !is_keyword(word)
        }
    }
}

fn has_name_bytes(word: &[u8]) -> bool
    ensures { result ≡ list_all is_name_byte word.now }
{
    word.iter().all(|b| b.is_ascii_alphanumeric() || *b == b'_')
}

/// The words that lines of sessions have of their own.
const KEYWORDS: [&str; 10] = [
    "session", "let", "set", "give", "require", "else", "if", "repeat", "end", "read",
];

fn is_keyword(word: &[u8]) -> bool
    ensures { result ≡ is_keyword word.now }
{
    KEYWORDS
        .iter()
        .any(|keyword| is_same_word(keyword.as_bytes(), word))
}
