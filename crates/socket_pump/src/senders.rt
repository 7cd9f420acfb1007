//! Whom an office owes a count in a turn.

ghost use Rattle.std.specs.Prelude.{◌<◌, ◌↔◌, ℕ, IsTrue};
ghost use Rattle.socket_pump.specs.Chains.{BringsMessage};
ghost use Rattle.socket_pump.specs.refinement.Counts.{Owed, Gets, Notes};

use frame_codec::{Frame, FrameFault};
use office_map::OfficeId;
use site_core::{Refusal, Reply};
use std::marker::Model;

/// Whom an office owes a count: who brought a message in this turn, and got none. Of each number whether, and one more than the
/// greatest of them; contracts see the first.
#[derive(Drop)]
pub(crate) struct Senders {
    owed: [bool; 16],
    end: usize,
}

impl Model for Senders {
    ghost use Rattle.std.specs.Prelude.{ℕ, ◌<◌, Bool, List};
    ghost use Rattle.socket_pump.specs.refinement.Counts.{Owed};

    ghost Value = { List Bool };

    ghost view = { λ s. s.owed };

    ghost invariant = { λ s. (v : ℕ) → Owed s.owed v → v < s.end };
}

impl Senders {
    /// Nobody yet.
    pub(crate) fn none() -> Senders
        ensures { (v : ℕ) → Owed result v → ⊥ }
    {
        Senders {
            owed: [false; 16],
            end: 0,
        }
    }

    /// Whether it is owed one.
    pub(crate) fn has(&self, v: OfficeId) -> bool
        requires { v < 16 }
        ensures { IsTrue result ↔ Owed self.now v }
    {
        self.owed[v.index()]
    }

    /// All that are owed one are below.
    pub(crate) fn end(&self) -> usize
        ensures { (v : ℕ) → Owed self.now v → v < result }
    {
        self.end
    }

    /// Who got a message is owed none.
    pub(crate) fn got(&mut self, v: OfficeId, messages: u32)
        requires { v < 16 }
        ensures { Gets v messages self.old self.new }
    {
        if messages > 0 {
            self.owed[v.index()] = false;
        }
    }

    /// Who brought a message is owed one, if only once more or before its turn.
    pub(crate) fn note(&mut self, read: &Result<Frame, FrameFault>, answer: &Result<Reply, Refusal>)
        ensures { Notes read.now answer.now self.old self.new }
    {
        let Ok(frame) = read else { return };
        if !brings_message(answer) {
            return;
        }
        let from = usize::from(frame.from());
        if from < self.owed.len() {
            self.owed[from] = true;
            self.end = self.end.max(from + 1);
        }
    }
}

// Whether what was answered is answered to a message.
fn brings_message(answer: &Result<Reply, Refusal>) -> bool
    ensures { IsTrue result ↔ BringsMessage answer.now }
{
    matches!(
        answer,
        Ok(Reply::Taken | Reply::Repeat | Reply::Kept | Reply::Early)
    )
}
