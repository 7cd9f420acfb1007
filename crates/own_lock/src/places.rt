//! The places of the lock's table: one word and one slot are used, each amid others that keep its cache line free.

ghost use Rattle.std.specs.Prelude.{◌≡◌, ◌≢◌, ◌<◌, ℕ, true, false, None, Some, IfOk, slice_index_or};
ghost use Rattle.std.specs.Slots.{slots_len, slots_filled};
ghost use Rattle.own_lock.specs.Rule.{room, place, amid};

use crate::boxed::Boxed;
use atomic_table::Closed;
use std::alloc::{AllocError, Global};

/// How many words the table has, and as many slots: 56 bytes lie on each side of the one that is used, so at any address
/// it has a line of 64 bytes to itself.
pub(crate) const ROOM: usize = 15;

/// The word and the slot that are used.
pub(crate) const PLACE: usize = 7;

/// The slots at the opening: the state lies in the one that is used.
pub(crate) fn slots_with<S: Drop>(
    alloc: Global,
    state: Boxed<S>,
) -> Result<Vec<Option<Boxed<S>>>, AllocError>
    ensures { IfOk result (λ slots. slots.items ≡ amid None (Some state)) }
{
    Ok(vec![in alloc;
        None,
        None,
        None,
        None,
        None,
        None,
        None,
        Some(state),
        None,
        None,
        None,
        None,
        None,
        None,
        None,
    ]?)
}

/// Empties the other slots of a table that nobody shares any more, and gives its memory back.
pub(crate) fn free_rest<S: Drop>(mut closed: Closed<Option<Boxed<S>>, Global>)
    requires room { slots_len closed.slots ≡ room }
    requires empty { slice_index_or (slots_filled closed.slots) place false ≡ false }
    requires others { (k : ℕ) → k ≢ place → k < room → slice_index_or (slots_filled closed.slots) k false ≡ true }
{
    for slot in 0..ROOM {
        if slot == PLACE {
            continue;
        }
        drop(closed.take(slot));
    }
    closed.free();
}
