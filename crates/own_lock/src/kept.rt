//! States with a history.

ghost use Rattle.std.specs.Prelude.{ℕ, List};

/// A state that has the list of all entries ever made in it. Only contracts see the members.
pub trait Kept: Drop {
    /// Whose state it is: it never changes.
    type Key;

    type Entry;

    ghost key: { Self → Self.Key };

    // All entries so far, the oldest first.
    ghost entries: { Self → List Self.Entry };

    // The tag of the pass that made an entry.
    ghost tag_of: { Self.Entry → ℕ };

    // The state is what its key and its entries make of it.
    ghost fits: { Self → Type 0 };
}
