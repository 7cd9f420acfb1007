//! What a running session gave.

ghost use Rattle.std.specs.Prelude.{◌≡◌, ◌≤◌, ◌++◌, [], ◌∷◌, length, nat_lt, if◌then◌else◌};
ghost use Rattle.std.specs.Vec.{vec_capacity};

/// Values that a session gives at most.
pub const MOST_GIVES: usize = 64;

/// Adds a value where fewer than `most` are there. There is room for so many.
pub fn push<T: Copy>(values: &mut Vec<T>, value: T, most: usize)
    requires { most ≤ vec_capacity values.old }
    ensures items { values.new.items ≡ (if nat_lt (length values.old.items) most then values.old.items ++ value ∷ [] else values.old.items) }
    ensures room { vec_capacity values.old ≤ vec_capacity values.new }
{
    if values.len() < most {
        values.push_reserved(value);
    }
}
