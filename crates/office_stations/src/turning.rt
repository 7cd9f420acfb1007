//! By which of its calls a pump is turned.

ghost use Rattle.std.specs.Prelude.{◌≡◌, false, MatchResult};
ghost use Rattle.own_lock.specs.Passes.{IsOf};
ghost use Rattle.locked_office.specs.Calls.{Stays};
ghost use Rattle.socket_pump.specs.Last.{last_of};
ghost use Rattle.office_stations.specs.Rounds.{TurnedBy, StageBy};

use locked_office::Desk;
use own_lock::Pass;
use site_core::Office;
use socket_pump::{Pump, PumpFault, Turn, Wire};
use std::sync::Wait;

/// By which of its calls a pump is turned: [`Pump::turn`], or [`Pump::adaptive_turn`], which answers what it hears at once and
/// spares a neighbour that it doesn't hear.
#[derive(Clone, Copy, Debug, PartialEq, Eq)]
pub enum Turning {
    Plain,
    Adaptive,
}

impl Turning {
    pub(crate) fn turn<R: Wait, W: Wire>(
        self,
        rt: &R,
        pump: &mut Pump,
        wire: &mut W,
        desk: &Desk,
        pass: &mut Pass<Office>,
        now: u64,
    ) -> Result<Turn, PumpFault>
        requires key { desk.now.key ≡ pump.old.key }
        requires of { IsOf desk.now pass.old }
        requires idle { pass.old.holds ≡ false }
        ensures key { pump.new.key ≡ pump.old.key }
        ensures stays { Stays desk.now pass.old pass.new }
        ensures turned { MatchResult result
            (λ t. TurnedBy self W.tells pass.old.tag desk.now.key (last_of pump.old.lasts) now pass.old (W.account wire.old) t (W.account wire.new) pass.new (last_of pump.new.lasts))
            (λ f. StageBy self W.tells pass.old.tag desk.now.key (last_of pump.old.lasts) now pass.old (W.account wire.old) f (W.account wire.new) pass.new (last_of pump.new.lasts)) }
    {
        match self {
            Turning::Plain => pump.turn(rt, wire, desk, pass, now),
            Turning::Adaptive => pump.adaptive_turn(rt, wire, desk, pass, now),
        }
    }
}
