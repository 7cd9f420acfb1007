//! What a text of a journal holds.

use crate::entries::Entries;
use office_map::{OfficeId, Plan};
use site_core::Entry;
use std::alloc::{AllocError, Global};

/// The journal that a text is.
#[derive(Drop)]
pub struct JournalText {
    /// Whose journal it is.
    pub office: OfficeId,
    /// Its entries, up to the first line whose digits spell no frame.
    pub entries: Vec<Entry>,
    /// Whether there is no such line.
    pub ends: bool,
}

impl Entries for JournalText {
    ghost use Rattle.std.specs.Prelude.{◌≡◌};

    ghost holds = { λ j _ office entries ends. (j.office ≡ office) × (j.entries.items ≡ entries) × (j.ends ≡ ends) };

    fn begin(alloc: Global, _plan: &Plan, office: OfficeId) -> Result<JournalText, AllocError> {
        Ok(JournalText {
            office,
            entries: Vec::new(alloc),
            ends: true,
        })
    }

    fn add(&mut self, entry: Entry) -> Result<(), AllocError> {
        self.entries.push(entry)?;
        Ok(())
    }

    fn end(&mut self) {
        self.ends = false;
    }
}
