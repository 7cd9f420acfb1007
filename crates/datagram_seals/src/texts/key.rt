//! Keys.

ghost use Rattle.std.specs.Prelude.{◌≡◌, IfOk};
ghost use Rattle.datagram_seals.specs.texts.SecretText.{key_of, of_good_length};

use crate::texts::limits::{FEWEST_BYTES, MOST_BYTES};
use hex::FromHexError;
use std::alloc::{AllocError, Global};
use std::marker::Model;

/// What two neighbours share, seen as its bytes.
#[derive(Drop)]
pub struct Key {
    bytes: Vec<u8>,
}

impl Model for Key {
    ghost use Rattle.std.specs.Prelude.{List, ℕ};

    ghost Value = { List ℕ };

    ghost view = { λ k. k.bytes.items };
}

impl Key {
    /// The bytes.
    pub fn bytes(&self) -> &[u8]
        ensures { result.now ≡ self.now }
    {
        self.bytes.as_slice()
    }
}

/// The key that a word spells, if it spells one.
pub(crate) fn key_in(alloc: Global, word: &[u8]) -> Result<Option<Key>, AllocError>
    ensures { IfOk result (λ key. key ≡ key_of word.now) }
{
    match hex::decode(alloc, word) {
        Ok(bytes) => Ok(of_good_length(bytes)),
        Err(FromHexError::OutOfMemory) => Err(AllocError),
        Err(_) => Ok(None),
    }
}

fn of_good_length(bytes: Vec<u8>) -> Option<Key>
    ensures { result ≡ of_good_length bytes.items }
{
    if FEWEST_BYTES <= bytes.len() && bytes.len() <= MOST_BYTES {
        Some(Key { bytes })
    } else {
        None
    }
}
