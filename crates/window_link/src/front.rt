//! The front of a vector of fixed room.

ghost use Rattle.std.specs.Prelude.{◌≡◌, ◌≤◌, drop, length};

use arrayvec::ArrayVec;

/// So many in front leave it, and the others move there.
///
/// By one copy: a drain turns the whole vector, each item three times.
pub(crate) fn drop_front<T: Copy + Default, const N: usize>(items: &mut ArrayVec<T, N>, many: usize)
    requires { many ≤ length items.old.items }
    ensures { items.new.items ≡ drop many items.old.items }
{
    let left = items.len() - many;
    items.copy_within(many.., 0);
    items.truncate(left);
}
