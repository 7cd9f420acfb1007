//! HMAC over SHA-256.

ghost use Rattle.std.specs.Prelude.{◌≡◌, ◌≤◌, length};
ghost use Rattle.datagram_seals.specs.frames.Hmac.{filled_up, hmac as hmac_of, key_block, keyed_digest as keyed_digest_of, masked as masked_by};

use sha2::{Digest, Sha256};

/// How many bytes SHA-256 takes at once.
pub const BLOCK_BYTES: usize = 64;

const INNER: u8 = 0x36;

const OUTER: u8 = 0x5c;

/// HMAC-SHA-256 of the message under the key.
pub fn hmac(key: &[u8], message: &[u8]) -> [u8; 32]
    ensures { result ≡ hmac_of key.now message.now }
{
    keyed_digest(&block_of_key(key), message)
}

/// A key as a block: a key that is longer than a block goes by its digest.
pub fn block_of_key(key: &[u8]) -> [u8; BLOCK_BYTES]
    ensures { result ≡ key_block key.now }
{
    if key.len() <= BLOCK_BYTES {
        block_of(key)
    } else {
        block_of(&Sha256::digest(key))
    }
}

// A block that begins with these bytes, and has zeros behind them.
fn block_of(bytes: &[u8]) -> [u8; BLOCK_BYTES]
    requires { length bytes.now ≤ 64 }
    ensures { result ≡ filled_up bytes.now }
{
    let mut block = [0; BLOCK_BYTES];
    block[..bytes.len()].copy_from_slice(bytes);
    block
}

/// The digest of a message under a key's block.
#[tactic(auto, unfolding(crate::specs::frames::Hmac::keyed_digest))]
pub fn keyed_digest(block: &[u8; BLOCK_BYTES], message: &[u8]) -> [u8; 32]
    ensures { result ≡ keyed_digest_of block.now message.now }
{
    let mut inner = Sha256::new();
    inner.update(masked(block, INNER));
    inner.update(message);
    let digest = inner.finalize();
    let mut outer = Sha256::new();
    outer.update(masked(block, OUTER));
    outer.update(digest);
    outer.finalize()
}

// The block with the bits of the mask turned over in each byte.
fn masked(block: &[u8; BLOCK_BYTES], mask: u8) -> [u8; BLOCK_BYTES]
    ensures { result ≡ masked_by mask block.now }
{
    let mut turned = *block;
    'bytes: for i in 0..BLOCK_BYTES {
        turned[i] ^= mask;
    }
    turned
}
