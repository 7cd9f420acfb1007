//! What a caller steps with at a lock.

ghost use Rattle.std.specs.Prelude.{◌≡◌, ◌<◌};
ghost use Rattle.own_lock.specs.Entries.{tagged};

use crate::boxed::Boxed;
use crate::kept::Kept;
use crate::seat_view::SeatView;
use atomic_table::Seat;
use crossbeam_utils::sync::Parker;
use std::marker::Model;

/// One of the passes that a lock was opened with. It may be handed from thread to thread. Contracts see
/// its lock, its tag, whether it holds the state, the entries that it has seen, and its own among them.
///
/// One that is let go stays in the rule with what it knew, and nobody waits for it. One that is let go while it holds
/// leaves the lock taken, and `close` answers `None`.
#[derive(Drop)]
pub struct Pass<S: Kept> {
    pub(crate) tag: u8,
    pub(crate) seat: Seat<Option<Boxed<S>>, SeatView<S::Key, S::Entry>>,
    pub(crate) parker: Parker,
}

impl<S: Kept> Model for Pass<S> {
    ghost use Rattle.own_lock.specs.Passes.{PassView};
    ghost use Rattle.own_lock.specs.refinement.Seats.{pass_view, HasOnePass};

    ghost Value = { PassView S.Key S.Entry };

    ghost view = { λ p. pass_view p.seat.table_id p.seat.me };

    ghost invariant = { λ p. HasOnePass S.tag_of p.tag p.seat.me };
}

impl<S: Kept> Pass<S> {
    /// The tag of the pass, which its entries have.
    pub fn tag(&self) -> u8
        ensures value { result ≡ self.now.tag }
        ensures range { result < 16 }
        ensures mine { self.now.mine ≡ tagged S.tag_of self.now.tag self.now.seen }
    {
        self.tag
    }
}
