//! Who gets the entries of a journal as they are read.

ghost use Rattle.std.specs.Prelude.{◌≡◌, ◌<◌, ◌++◌, ◌∷◌, [], ℕ, List, Bool, true, false, length, IfOk, OnOk};
ghost use Rattle.office_map.specs.PlanValue.{PlanValue};
ghost use Rattle.office_journal.specs.declared.event.Entry.{Entry};

use office_map::{OfficeId, Plan};
use site_core::Entry;
use std::alloc::{AllocError, Global};

/// What gets the entries of a journal's text, one after another, the oldest first. So an entry needs to stand nowhere but where it
/// is used.
pub trait Entries: Sized + Drop {
    // What holds once these entries of an office of the plan were told; and, where the journal doesn't end with them, that it doesn't.
    ghost holds: { Self → PlanValue → ℕ → List Entry → Bool → Type 0 };

    /// Before the first entry of that office's journal.
    fn begin(alloc: Global, plan: &Plan, office: OfficeId) -> Result<Self, AllocError>
        requires { office < length plan.now.offices }
        ensures { IfOk result (λ e. holds e plan.now office [] true) };

    /// The next entry.
    fn add(&mut self, entry: Entry) -> Result<(), AllocError>
        ensures { OnOk result ((plan : PlanValue) (office : ℕ) (entries : List Entry) → holds self.old plan office entries true → holds self.new plan office (entries ++ entry ∷ []) true) };

    /// A line of which the digits spell no frame. No entry comes after it.
    fn end(&mut self)
        ensures { (plan : PlanValue) (office : ℕ) (entries : List Entry) → holds self.old plan office entries true → holds self.new plan office entries false };
}
