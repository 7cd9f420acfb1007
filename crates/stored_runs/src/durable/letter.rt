//! A datagram in a place of its own.

ghost use Rattle.std.specs.Prelude.{◌≡◌, ◌≤◌, length, take};

use std::marker::Model;

/// The most bytes of a datagram.
pub(crate) const MOST_BYTES: usize = 128;

/// A copy of the bytes of a datagram. Contracts see them as a list.
#[derive(Drop)]
pub(crate) struct Letter {
    bytes: [u8; MOST_BYTES],
    length: usize,
}

impl Model for Letter {
    ghost use Rattle.std.specs.Prelude.{ℕ, List, take, ◌≤◌};

    ghost Value = { List ℕ };

    ghost view = { λ l. take l.length l.bytes };

    ghost invariant = { λ l. l.length ≤ 128 };
}

impl Letter {
    /// A copy of these bytes.
    pub(crate) fn of(bytes: &[u8]) -> Letter
        requires { length bytes.now ≤ 128 }
        ensures { result ≡ bytes.now }
    {
        let mut copy = [0; MOST_BYTES];
        copy[..bytes.len()].copy_from_slice(bytes);
        Letter {
            bytes: copy,
            length: bytes.len(),
        }
    }

    pub(crate) fn bytes(&self) -> &[u8]
        ensures value { result.now ≡ self.now }
        ensures short { length result.now ≤ 128 }
    {
        &self.bytes[..self.length]
    }

    /// The bytes are put at the beginning of the buffer. How many they are.
    pub(crate) fn put(&self, buffer: &mut [u8; MOST_BYTES]) -> usize
        ensures within { result ≤ 128 }
        ensures put { take result buffer.new ≡ self.now }
    {
        buffer[..self.length].copy_from_slice(&self.bytes[..self.length]);
        self.length
    }
}

impl Default for Letter {
    fn default() -> Letter {
        Letter {
            bytes: [0; MOST_BYTES],
            length: 0,
        }
    }
}
