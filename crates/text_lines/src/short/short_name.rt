//! A name of at most sixteen bytes.

ghost use Rattle.std.specs.Prelude.{◌≡◌, ◌≤◌, ◌&&◌, ◌==◌, length, IsTrue};
ghost use Rattle.std.specs.List.{list_all};
ghost use Rattle.std.specs.Str.{bytes_eq};
ghost use Rattle.text_lines.specs.short.Names.{most_bytes, is_short, is_short_byte, short_of};
ghost use Rattle.text_lines.specs.short.refinement.Packing.{padded, first_eight, last_eight, key_of};

use std::marker::Model;

/// The most bytes of a name.
pub const MOST_BYTES: usize = 16;

/// An odd number of 64 bits without a rule, by which words are mixed.
const MIXER: u64 = 0x9E37_79B9_7F4A_7C15;

/// A name of at most sixteen bytes, ASCII and none of them zero. Contracts see these bytes as a list.
#[derive(Clone, Copy)]
pub struct ShortName {
    // The bytes, and zeros after them.
    bytes: [u8; MOST_BYTES],
    count: u8,
}

impl Model for ShortName {
    ghost use Rattle.std.specs.Prelude.{List, ℕ, length, take};
    ghost use Rattle.text_lines.specs.short.refinement.Packing.{padded, IsPacked};
    ghost use Rattle.text_lines.specs.short.refinement.PackingLaws.{count_again};

    ghost Value = { List ℕ };

    ghost view = { λ n. take n.count n.bytes };

    ghost invariant = { λ n. IsPacked n.bytes n.count };

    ghost inverse = { λ name. record { bytes = padded name; count = length name } };

    ghost inverse_ok = { λ n packed i. record { bytes = packed.filled i; count = count_again n.bytes n.count packed i } };
}

impl ShortName {
    /// A name of these bytes, or none where they can't be one.
    pub fn of(bytes: &[u8]) -> Option<ShortName>
        ensures { result ≡ short_of bytes.now }
    {
        if is_short(bytes) {
            Some(ShortName::packed(bytes))
        } else {
            None
        }
    }

    /// A name of these bytes. Whether they can be one isn't looked at again.
    pub fn packed(bytes: &[u8]) -> ShortName
        requires { IsTrue (is_short bytes.now) }
        ensures { result ≡ bytes.now }
    {
        ShortName {
            bytes: padded(bytes),
            count: bytes.len() as u8,
        }
    }

    /// How many bytes it has.
    pub fn len(&self) -> usize
        ensures count { result ≡ length self.now }
        ensures few { result ≤ most_bytes }
    {
        usize::from(self.count)
    }

    /// Whether it has no byte.
    pub fn is_empty(&self) -> bool
        ensures { result ≡ (length self.now == 0) }
    {
        self.count == 0
    }

    /// Its bytes.
    pub fn as_bytes(&self) -> &[u8]
        ensures bytes { result.now ≡ self.now }
        ensures short { IsTrue (is_short result.now) }
    {
        &self.bytes[..self.count as usize]
    }

    /// Its bytes as text.
    ///
    /// They are ASCII, so that they always are text; a loan looks at each of them once more.
    pub fn as_str(&self) -> &str
        ensures { result.now ≡ self.now }
    {
        let bytes = self.as_bytes();
        match str::from_utf8(bytes) {
            Ok(text) => text,
            Err(_) => unreachable!(),
        }
    }

    /// A number that different names seldom share, above all in its upper half.
    pub fn key(&self) -> u64
        ensures { result ≡ key_of self.now }
    {
        (first_eight(&self.bytes) ^ last_eight(&self.bytes)).wrapping_mul(MIXER)
    }

    /// Whether two names are one.
    pub fn is(&self, other: &ShortName) -> bool
        ensures { result ≡ bytes_eq self.now other.now }
    {
        are_equal(
            first_eight(&self.bytes),
            first_eight(&other.bytes),
            last_eight(&self.bytes),
            last_eight(&other.bytes),
        )
    }
}

/// The bytes of a name, and zeros after them.
fn padded(name: &[u8]) -> [u8; MOST_BYTES]
    requires { length name.now ≤ most_bytes }
    ensures { result ≡ padded name.now }
{
    let mut all = [0; MOST_BYTES];
    all[..name.len()].copy_from_slice(name);
    all
}

/// Whether bytes can be a name.
fn is_short(bytes: &[u8]) -> bool
    ensures { result ≡ is_short bytes.now }
{
    bytes.len() <= MOST_BYTES && has_short_bytes(bytes)
}

fn has_short_bytes(bytes: &[u8]) -> bool
    ensures { result ≡ list_all is_short_byte bytes.now }
{
    bytes.iter().all(|b| 0 < *b && *b < 128)
}

fn first_eight(bytes: &[u8; MOST_BYTES]) -> u64
    ensures { result ≡ first_eight bytes.now }
{
    u64::from_le_bytes([
        bytes[0], bytes[1], bytes[2], bytes[3], bytes[4], bytes[5], bytes[6], bytes[7],
    ])
}

fn last_eight(bytes: &[u8; MOST_BYTES]) -> u64
    ensures { result ≡ last_eight bytes.now }
{
    u64::from_le_bytes([
        bytes[8], bytes[9], bytes[10], bytes[11], bytes[12], bytes[13], bytes[14], bytes[15],
    ])
}

fn are_equal(a: u64, b: u64, c: u64, d: u64) -> bool
    ensures { result ≡ (a == b && c == d) }
{
    a == b && c == d
}
