//! An office that follows its journal as the text is read.

ghost use Rattle.std.specs.Prelude.{IfOk};

use journal_texts::Entries;
use journal_weave::Replay;
use office_map::{OfficeId, Plan};
use site_core::Entry;
use std::alloc::{AllocError, Global};

/// An office to which its journal's entries are told as they are read: each takes its step at once.
#[derive(Drop)]
pub(crate) struct Follower {
    pub replay: Replay,
}

impl Entries for Follower {
    ghost use Rattle.journal_weave.specs.Replays.{IsReplay};

    ghost holds = { λ f plan office entries ends. IsReplay plan office entries ends f.replay };

    fn begin(alloc: Global, plan: &Plan, office: OfficeId) -> Result<Follower, AllocError> {
        let replay = Replay::open(alloc, plan, office)?;
        Ok(Follower { replay })
    }

    // Where the entry is made it is lent at once, and not copied.
    #[inline(always)]
    fn add(&mut self, entry: Entry) -> Result<(), AllocError> {
        self.replay.add(&entry)
    }

    fn end(&mut self) {
        self.replay.end();
    }
}
