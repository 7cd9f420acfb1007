//! A text of at most 64 bytes.

ghost use Rattle.std.specs.Prelude.{◌≡◌, ◌≤◌, ◌++◌, [], IsTrue, Some, None, if◌then◌else◌, length};
ghost use Rattle.std.specs.List.{list_all};
ghost use Rattle.std.specs.Str.{bytes_eq};
ghost use Rattle.bottle_values.specs.Texts.{is_text, is_text_byte};
ghost use Rattle.bottle_values.specs.Printed.{quoted};

use std::fmt;
use std::marker::Model;

/// The most bytes that a text has.
pub const MAX_TEXT: usize = 64;

/// A text: 0 to 64 bytes, each a visible one or a space, but no quotation mark. Contracts see the bytes.
///
/// It prints between two quotation marks.
///
/// Its bytes stand in place, with zeros behind them, so that it is copied as a number is, and two texts are the same
/// where their fields are.
#[derive(Clone, Copy, Debug, PartialEq, Eq, Hash)]
pub struct Text {
    len: u8,
    bytes: [u8; MAX_TEXT],
}

impl Model for Text {
    ghost use Rattle.std.specs.Prelude.{◌≡◌, ℕ, List, take, length, IsTrue};
    ghost use Rattle.bottle_values.specs.Texts.{is_text};
    ghost use Rattle.bottle_values.specs.refinement.Padding.{padded, given_back};

    ghost Value = { List ℕ };

    ghost view = { λ t. take t.len t.bytes };

    ghost invariant = { λ t. (length (take t.len t.bytes) ≡ t.len) × (t.bytes ≡ padded (take t.len t.bytes)) × IsTrue (is_text (take t.len t.bytes)) };

    ghost inverse = { λ bytes. record { len = length bytes; bytes = padded bytes } };

    ghost inverse_ok = { λ a h. given_back a h };
}

impl Text {
    /// No byte.
    pub fn empty() -> Text
        ensures { result ≡ [] }
    {
        Text {
            len: 0,
            bytes: [0; MAX_TEXT],
        }
    }

    /// The bytes as a text, if they are one.
    pub fn of(bytes: &[u8]) -> Option<Text>
        ensures { result ≡ (if is_text bytes.now then Some bytes.now else None) }
    {
        if !are_text_bytes(bytes) {
            return None;
        }
        Text::empty().with(bytes)
    }

    /// The bytes.
    pub fn as_bytes(&self) -> &[u8]
        ensures bytes { result.now ≡ self.now }
        ensures text { IsTrue (is_text self.now) }
    {
        &self.bytes[..self.len as usize]
    }

    /// The bytes as ASCII, which they are.
    pub fn as_str(&self) -> &str
        ensures { result.now ≡ self.now }
    {
        let bytes = self.as_bytes();
        match str::from_utf8(bytes) {
            Ok(text) => text,
            Err(_) => unreachable!(),
        }
    }

    /// The two texts one after the other, if that is no longer than a text may be.
    pub fn join(self, other: Text) -> Option<Text>
        ensures { result ≡ (if is_text (self ++ other) then Some (self ++ other) else None) }
    {
        self.with(other.as_bytes())
    }

    /// Whether two texts are the same.
    pub fn equals(self, other: Text) -> bool
        ensures { result ≡ bytes_eq self other }
    {
        self.as_bytes() == other.as_bytes()
    }

    /// The text with more bytes, if that is no longer than a text may be.
    fn with(self, more: &[u8]) -> Option<Text>
        requires { IsTrue (list_all is_text_byte more.now) }
        ensures { result ≡ (if is_text (self ++ more.now) then Some (self ++ more.now) else None) }
    {
        let len = self.len as usize;
        let grown = len + more.len();
        if grown > MAX_TEXT {
            return None;
        }
        let mut bytes = self.bytes;
        bytes[len..grown].copy_from_slice(more);
        Some(Text {
            len: grown as u8,
            bytes,
        })
    }
}

impl fmt::Display for Text {
    ghost output = { λ text. Some (quoted text) };

    fn fmt<W: fmt::Write>(&self, f: &mut fmt::Formatter<W>) -> fmt::Result {
        write!(f, "\"{}\"", self.as_str())
    }
}

/// Whether a byte may stand in a text.
pub fn is_text_byte(b: u8) -> bool
    ensures { result ≡ is_text_byte b }
{
    (32..=126).contains(&b) && b != b'"'
}

/// Whether these bytes are a text.
pub fn is_text(bytes: &[u8]) -> bool
    ensures { result ≡ is_text bytes.now }
{
    bytes.len() <= MAX_TEXT && are_text_bytes(bytes)
}

fn are_text_bytes(bytes: &[u8]) -> bool
    ensures { result ≡ list_all is_text_byte bytes.now }
{
    let mut all = true;
    for b in bytes {
        // Each byte is looked at, also behind a faulty one: so many are looked at at once.
        all &= is_text_byte(*b);
    }
    all
}
