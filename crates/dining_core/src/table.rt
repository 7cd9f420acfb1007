//! One office's forks.

ghost use Rattle.std.specs.Prelude.{◌≡◌, ◌<◌, length, IfOk, All, true, false, ◌==◌};
ghost use Rattle.std.specs.List.{list_any};
ghost use Rattle.dining_core.specs.Diners.{BecomeHungry, AskFork, GiveFork, Eat, Leave, may, act, with_token, with_fork, diner_at_start};
ghost use Rattle.dining_core.specs.refinement.Tables.{DoesRule, diner_of, holds, has_clean, has_token};

use crate::fault::NotNow;
use crate::phase::Phase;
use crate::places;
use crate::shared_fork::{Fork, SharedFork};
use office_map::{OfficeId, Plan};
use std::alloc::{AllocError, Global};
use std::marker::Model;

/// Who of an office and its neighbours eats first: the forks that are here, and how far the office is.
///
/// It keeps a place for each office of the plan, not for each neighbour, so that a rule about one neighbour is one
/// look; only `eat` goes through the neighbours. An office that is no neighbour has neither fork nor token there, so
/// its rules are refused.
#[derive(Drop)]
pub struct Table {
    neighbours: Vec<OfficeId>,
    phase: Phase,
    places: Vec<SharedFork>,
}

impl Model for Table {
    ghost use Rattle.std.specs.Prelude.{◌<◌, length, All};
    ghost use Rattle.dining_core.specs.refinement.Tables.{TableValue};

    ghost Value = { TableValue };

    ghost view = { λ t. record { neighbours = t.neighbours.items; phase = t.phase; places = t.places.items } };

    ghost invariant = { λ t. All (λ v. v < length t.places.items) t.neighbours.items };
}

impl Table {
    /// The table of an office as the plan starts.
    pub fn open(alloc: Global, plan: &Plan, id: OfficeId) -> Result<Table, AllocError>
        requires { id < length plan.now.offices }
        ensures { IfOk result (λ t. diner_of t ≡ diner_at_start plan.now id) }
    {
        let neighbours = plan.neighbours(id).to_vec(alloc)?;
        let places = places::open(alloc, plan, id)?;
        Ok(Table {
            neighbours,
            phase: Phase::Thinking,
            places,
        })
    }

    /// The offices with which this one shares a fork, the least number first.
    pub fn neighbours(&self) -> &[OfficeId]
        ensures { result.now ≡ (diner_of self.now).neighbours }
    {
        &self.neighbours
    }

    pub fn phase(&self) -> Phase
        ensures { result ≡ (diner_of self.now).phase }
    {
        self.phase
    }

    /// Whether the fork that is shared with `v` is here.
    pub fn holds(&self, v: OfficeId) -> bool
        ensures { result ≡ (diner_of self.now).held v }
    {
        places::at(&self.places, v).fork.is_held()
    }

    /// Whether that fork is here and wasn't used since it came.
    pub fn is_clean(&self, v: OfficeId) -> bool
        ensures { result ≡ (diner_of self.now).clean v }
    {
        places::at(&self.places, v).fork.is_clean()
    }

    /// Whether the request token of that fork is here.
    pub fn has_token(&self, v: OfficeId) -> bool
        ensures { result ≡ (diner_of self.now).token v }
    {
        places::at(&self.places, v).token
    }

    /// Whether [`Table::hungry`] would be done now.
    pub fn may_be_hungry(&self, thirsty: bool) -> bool
        ensures { result ≡ may (diner_of self.now) (BecomeHungry thirsty) }
    {
        matches!(self.phase, Phase::Thinking) && thirsty
    }

    /// Whether [`Table::ask_fork`] would be done now.
    pub fn may_ask_fork(&self, v: OfficeId) -> bool
        ensures { result ≡ may (diner_of self.now) (AskFork v) }
    {
        matches!(self.phase, Phase::Hungry) && places::at(&self.places, v).is_askable()
    }

    /// Whether [`Table::give_fork`] would be done now.
    pub fn may_give_fork(&self, v: OfficeId) -> bool
        ensures { result ≡ may (diner_of self.now) (GiveFork v) }
    {
        !matches!(self.phase, Phase::Eating) && places::at(&self.places, v).is_owed()
    }

    /// Whether [`Table::eat`] would be done now.
    pub fn may_eat(&self) -> bool
        ensures { result ≡ may (diner_of self.now) Eat }
    {
        matches!(self.phase, Phase::Hungry) && places::hold_all(&self.places, self.neighbours())
    }

    /// Whether [`Table::leave`] would be done now.
    pub fn may_leave(&self, thirsty: bool) -> bool
        ensures { result ≡ may (diner_of self.now) (Leave thirsty) }
    {
        matches!(self.phase, Phase::Eating) && !thirsty
    }

    /// A thinking office that is thirsty becomes hungry.
    pub fn hungry(&mut self, thirsty: bool) -> Result<(), NotNow>
        ensures { DoesRule (BecomeHungry thirsty) result self.old self.new }
    {
        if !self.may_be_hungry(thirsty) {
            return Err(NotNow);
        }
        self.phase = Phase::Hungry;
        Ok(())
    }

    /// A hungry office sends the request token of a fork that isn't here.
    pub fn ask_fork(&mut self, v: OfficeId) -> Result<(), NotNow>
        ensures { DoesRule (AskFork v) result self.old self.new }
    {
        let place = places::at(&self.places, v);
        if !(matches!(self.phase, Phase::Hungry) && place.is_askable()) {
            return Err(NotNow);
        }
        self.places[v.index()] = SharedFork {
            token: false,
            ..place
        };
        Ok(())
    }

    /// An office that doesn't eat sends a dirty fork to the neighbour who asked for it.
    pub fn give_fork(&mut self, v: OfficeId) -> Result<(), NotNow>
        ensures { DoesRule (GiveFork v) result self.old self.new }
    {
        if matches!(self.phase, Phase::Eating) {
            return Err(NotNow);
        }
        if !places::at(&self.places, v).is_owed() {
            return Err(NotNow);
        }
        self.places[v.index()].fork = Fork::Away;
        Ok(())
    }

    /// A hungry office that has all its forks eats, and each of them is dirty.
    pub fn eat(&mut self) -> Result<(), NotNow>
        ensures { DoesRule Eat result self.old self.new }
    {
        if !self.may_eat() {
            return Err(NotNow);
        }
        self.begin_to_eat();
        Ok(())
    }

    // The office eats, whatever its guard says, and each of its forks is dirty.
    pub(crate) fn begin_to_eat(&mut self)
        ensures { diner_of self.new ≡ act (diner_of self.old) Eat }
    {
        self.phase = Phase::Eating;
        places::use_all(&mut self.places);
    }

    /// An eating office that isn't thirsty thinks again.
    pub fn leave(&mut self, thirsty: bool) -> Result<(), NotNow>
        ensures { DoesRule (Leave thirsty) result self.old self.new }
    {
        if !self.may_leave(thirsty) {
            return Err(NotNow);
        }
        self.phase = Phase::Thinking;
        Ok(())
    }

    /// The request token that is shared with `v` came.
    pub fn got_token(&mut self, v: OfficeId)
        requires ours { list_any (λ u. u == v) (diner_of self.old).neighbours ≡ true }
        requires away { (diner_of self.old).token v ≡ false }
        ensures { diner_of self.new ≡ with_token (diner_of self.old) v }
    {
        self.places[v.index()].token = true;
    }

    /// The fork that is shared with `v` came.
    pub fn got_fork(&mut self, v: OfficeId)
        requires ours { list_any (λ u. u == v) (diner_of self.old).neighbours ≡ true }
        requires away { (diner_of self.old).held v ≡ false }
        ensures { diner_of self.new ≡ with_fork (diner_of self.old) v }
    {
        self.places[v.index()].fork = Fork::Clean;
    }
}
