//! A store of bytes.

ghost use Rattle.std.specs.Prelude.{◌≡◌, ℕ, List, Option, OnOk, OnErr, true, false, Bool};
ghost use Rattle.journal_stores.specs.Stores.{Stands, Keeps, IsFound, Finds};

use thiserror::Error;

/// The bytes couldn't be appended, or it isn't known whether they stand.
///
/// A failed sync may have dropped what was written, so whether it stands is only known by a start that looks.
#[derive(Clone, Copy, Debug, PartialEq, Eq, Error)]
#[error("U4 StoreFailed")]
pub struct StoreFailed;

/// Where bytes stand.
pub trait Store {
    /// The bytes that stand, where that is known: those of each append that was answered by an `Ok`.
    ghost stood: { Self → Option (List ℕ) };

    /// The bytes that a start finds, where that is known.
    ghost found: { Self → Option (List ℕ) };

    /// Whether an append failed. Then a beginning of its bytes may be found after those that stand.
    ghost failed: { Self → Bool };

    /// Whether an append failed.
    fn has_failed(&self) -> bool
        ensures { result ≡ failed self.now };

    /// The bytes stand from now on, after those that stand: what opens the store after whatever loss finds them.
    ///
    /// # Errors
    /// Where that isn't sure. Nothing more is to be appended then, since it would come after a part of these bytes.
    fn append(&mut self, bytes: &[u8]) -> Result<(), StoreFailed>
        requires { failed self.old ≡ false }
        ensures stands { OnOk result (Stands (stood self.old) bytes.now (stood self.new)) }
        ensures keeps { OnErr result (Keeps (stood self.old) (stood self.new)) }
        ensures whole { OnOk result (IsFound (stood self.new) (found self.new)) }
        ensures finds { OnErr result (Finds (stood self.old) bytes.now (found self.new)) }
        ensures usable { OnOk result (failed self.new ≡ false) }
        ensures broken { OnErr result (failed self.new ≡ true) };
}
