//! Numbers that are drawn from a seed.

ghost use Rattle.std.specs.Prelude.{◌<◌};

use rand_core::utils::NextWord;
use rand_pcg::Pcg32;

/// Which of the generator's sequences is taken.
const SEQUENCE: u64 = 54;

/// Numbers that are drawn from a seed.
#[derive(Drop)]
pub(crate) struct Draws {
    words: Pcg32,
}

impl Draws {
    pub(crate) fn from_seed(seed: u64) -> Draws {
        Draws {
            words: Pcg32::new(seed, SEQUENCE),
        }
    }

    /// A number below another.
    pub(crate) fn below(&mut self, limit: usize) -> usize
        requires { 0 < limit }
        ensures { result < limit }
    {
        self.words.next_word() as usize % limit
    }
}
