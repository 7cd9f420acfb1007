//! A lock round one state, whose history each caller knows by a pass of its own.
//!
//! - A state is [`Kept`]: it has a key, a list of entries with tags, and whether it fits.
//! - [`OwnLock::open`] gives the lock and 1 to 16 passes. [`OwnLock::try_take`] and [`OwnLock::take`] hand
//!   out the state as a [`Held`], and [`OwnLock::give`] puts it back.
//! - A [`Pass`] knows a beginning of the history (`seen`), and all of its own entries in it (`mine`):
//!   taking leaves `mine` as it was, so nobody else adds, drops or changes an entry of this pass (clauses
//!   `begins` and `mine`). [`OwnLock::meet`] tells one pass what another has seen, and
//!   [`OwnLock::close`] ends the lock and gives the state.
//! - Between any two atomic steps the rule of the lock holds (`LockRule`, in `specs/Rule.antt`): [`laws`]
//!   says that each kind of step keeps it (`specs/Steps.antt`), and that it holds after every list of them.
//!   The rule says "word not 0" where a pass holds the state, so it doesn't ask whether others wait.
//! - The word is 0, 1, or 2 where passes may wait. A pass that finds the state taken tries a while. Then it
//!   enters itself among those that wait, sets the word to 2 and parks. One that gives the state back and
//!   finds 2 wakes the next of those that wait: going round in order of tags, the first after its own.
//!   Proved is that whoever gives the state back finds 2 where a pass set it since the state was taken
//!   (`WordLeftIsFound`), which tag comes next (`IsNextAfter`, in `specs/Waking.antt`), and that the lock
//!   keeps an unparker for each pass. That a pass that waits wakes isn't proved: it is argued where it waits
//!   (`take_later`, in `lock.rt`), and tests show it.
//!
//! No call but [`OwnLock::open`] takes memory, and none but [`OwnLock::take`] waits. Nothing is said of who
//! gets the state first: one that tries may come before the one that was woken. It stands on `atomic_table`
//! and `crossbeam_utils`, with no `unsafe`.
//!
//! What three threads see of an office, each by its pass. The third one has the office at this moment:
//!
//! ```text
//! the lock's word      1: a pass has the office            (2: and others may wait; 0: it lies in the slot)
//!
//! the history          [ e1  e2  e3  e4  e5  e6  e7  e8 ]  all that the office accepted, the oldest first
//! tags                   0   1   1   0   2   0   1   2
//!
//! pass 0  has seen     [ e1  e2  e3  e4  e5  e6 ]          the journal as it was when it last had the office
//!         its own        e1          e4      e6            all entries of its tag that there are
//! pass 1  has seen     [ e1  e2  e3  e4  e5  e6  e7 ]
//!         its own            e2  e3              e7
//! pass 2  has seen     [ e1  e2  e3  e4  e5  e6  e7  e8 ]  the whole journal, for it has the office
//!         its own                        e5          e8
//! ```
//!
//! The contracts of threads speak of no moment: a pass knows a list of entries that it has seen, and the state's list
//! never loses any. What a pass has seen begins the history, and stays so, since only a pass that has the state adds to
//! it, and only at its end. Between two holdings of a pass entries of others may come, and none of its own: nobody else
//! has its tag. Knowledge goes from pass to pass in two ways: by taking the state, and by `meet`, where one of them is
//! given up.
//!
//! The lock is a table of which one word and one slot are used: the word says whether the state is there, and the slot has
//! it. The others keep their cache lines free of what threads do elsewhere. The rule ties the views of all seats to one
//! history. Seven kinds of steps change them, and each keeps the rule by a lemma of its own (`proofs/StepsKeepRule.antt`);
//! there is no logic of memory above the table.
//!
//! Not said: that `take` returns, or who is next; that a pass which sleeps is woken; that `Busy`, and the `None` of
//! `close`, come only with a holder. Tests show the last three.
#![tactic(auto)]

mod boxed;
mod held;
mod kept;
pub mod laws;
mod lock;
mod pass;
mod places;
mod seat_view;
mod table_rule;
mod waking;

pub use held::Held;
pub use kept::Kept;
pub use lock::{Busy, OwnLock};
pub use pass::Pass;
pub use seat_view::{Opening, Part, SeatView};

#[cfg(test)]
mod tests;
