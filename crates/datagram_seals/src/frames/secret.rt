//! What two neighbours share, and frames under its seal.

ghost use Rattle.std.specs.Prelude.{◌≡◌, ◌≢◌, ◌+◌, ◌≤◌, ℕ, List, length, take, drop, IfSome, IfNone};
ghost use Rattle.datagram_seals.specs.frames.Hmac.{key_block};
ghost use Rattle.datagram_seals.specs.frames.Seals.{differing_bits, seal_of, sealed};

use crate::frames::digest::{BLOCK_BYTES, block_of_key, keyed_digest};
use std::marker::Model;

/// How many bytes a seal has.
pub const SEAL_BYTES: usize = 16;

/// The longest frame with its seal.
pub const MAX_SEALED_BYTES: usize = 128;

/// What two neighbours share and nobody else has. A contract sees it as its key's block.
#[derive(Drop)]
pub struct Secret {
    block: [u8; BLOCK_BYTES],
}

impl Model for Secret {
    ghost Value = { List ℕ };

    ghost view = { λ s. s.block };
}

impl Secret {
    /// The secret of this key.
    pub fn of_key(key: &[u8]) -> Secret
        ensures { result ≡ key_block key.now }
    {
        Secret {
            block: block_of_key(key),
        }
    }

    /// Writes the frame and its seal to the front of `out`, and returns how many bytes they are. The bytes behind them stay as
    /// they were.
    pub fn seal(&self, frame: &[u8], out: &mut [u8; MAX_SEALED_BYTES]) -> usize
        requires { length frame.now + 16 ≤ 128 }
        ensures written { take result out.new ≡ sealed self.now frame.now }
        ensures length { result ≡ length frame.now + 16 }
        ensures rest { drop result out.new ≡ drop result out.old }
    {
        let end = frame.len() + SEAL_BYTES;
        let seal = self.seal_of(frame);
        out[..frame.len()].copy_from_slice(frame);
        out[frame.len()..end].copy_from_slice(&seal);
        end
    }

    /// The frame of which the datagram is the sealed form, and nothing where it is none's.
    pub fn open<'a>(&self, datagram: &'a [u8]) -> Option<&'a [u8]>
        ensures opened { IfSome result (λ frame. datagram.now ≡ sealed self.now frame.now) }
        ensures no_frame { IfNone result ((frame : List ℕ) → datagram.now ≢ sealed self.now frame) }
    {
        if datagram.len() < SEAL_BYTES {
            return None;
        }
        let (frame, seal) = datagram.split_at(datagram.len() - SEAL_BYTES);
        let bits = differing(&self.seal_of(frame), seal);
        if bits == 0 { Some(frame) } else { None }
    }

    // The frame's seal.
    fn seal_of(&self, frame: &[u8]) -> [u8; SEAL_BYTES]
        ensures { result ≡ seal_of self.now frame.now }
    {
        first_bytes(&keyed_digest(&self.block, frame))
    }
}

// The bytes that a digest begins with.
fn first_bytes(digest: &[u8; 32]) -> [u8; SEAL_BYTES]
    ensures { result ≡ take 16 digest.now }
{
    let mut first = [0; SEAL_BYTES];
    first.copy_from_slice(&digest[..SEAL_BYTES]);
    first
}

// The bits that differ between two seals at any of their places. It looks at each place, whatever differed before it.
fn differing(ours: &[u8], theirs: &[u8]) -> u8
    requires { length ours.now ≡ length theirs.now }
    ensures { result ≡ differing_bits ours.now theirs.now }
{
    let count = ours.len();
    let mut bits = 0;
    'places: for i in 0..count {
        let place = count - 1 - i;
        bits |= ours[place] ^ theirs[place];
    }
    bits
}
