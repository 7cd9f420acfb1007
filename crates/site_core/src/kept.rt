//! An office as a state with a history.

ghost use Rattle.site_core.specs.Journals.{IsLegal};

use crate::office::Office;
use office_journal::Entry;
use office_map::{OfficeId, Plan};
use own_lock::Kept;

/// Its key is its plan and its number, and its entries are those of its journal. It fits where the journal is legal; that it
/// is the office at that journal's end is the invariant of its type, so nobody has to show it.
impl Kept for Office {
    type Key = (Plan, OfficeId);

    type Entry = Entry;

    ghost key = { λ o. (o.plan, o.me) };

    ghost entries = { λ o. o.entries };

    ghost tag_of = { λ e. e.tag };

    ghost fits = { IsLegal };
}
