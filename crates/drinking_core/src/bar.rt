//! One office's bottles.

ghost use Rattle.std.specs.Prelude.{◌≡◌, ◌<◌, length, IfOk, All, true, false, ◌&&◌, ◌||◌};
ghost use Rattle.std.specs.List.{list_all};
ghost use Rattle.std.specs.Option.{ForSome, option_copied};
ghost use Rattle.dining_core.specs.refinement.Tables.{diner_of};
ghost use Rattle.drinking_core.specs.Drinkers.{Start, AskBottle, GiveBottle, Drink, Finish, Withdraw, may, with_token, with_bottle, is_served, is_drinking, holds, opened};
ghost use Rattle.drinking_core.specs.refinement.Bars.{DoesRule, drinker_of};
ghost use Rattle.drinking_core.specs.refinement.Masks.{IsSpot, Tells};
ghost use Rattle.bottle_values.specs.Lists.{is_among};

use crate::phase::Phase;
use crate::shared_bottle::SharedBottle;
use crate::{places, spots};
use bottle_values::Value;
use dining_core::masks::Mask128;
use dining_core::{NotNow, Table};
use office_map::{OfficeId, Plan, RecordId};
use std::alloc::{AllocError, Global};
use std::marker::Model;

/// The bottles of an office: which are here with their values, and how far the office is with its current session.
///
/// It keeps a place for each record of the plan, and of its own records, as bits, which are needed and whose bottles
/// are here. So the guard of `drink` is one comparison, and the end of a session one store: else each would look at up
/// to 120 records. Whether a record is needed stands in its bit alone. That its bottle is here stands in the place too:
/// the invariant ties the bit to it, and no contract mentions that bit. A bottle and its value are one thing: an office
/// has a value only where it has the bottle, so none that is out of date can be told or sent.
#[derive(Drop)]
pub struct Bar {
    records: Vec<RecordId>,
    spots: Vec<u8>,
    phase: Phase,
    needed: Mask128,
    held: Mask128,
    places: Vec<SharedBottle>,
}

impl Model for Bar {
    ghost use Rattle.drinking_core.specs.refinement.Bars.{BarValue, IsBarOf};

    ghost Value = { BarValue };

    ghost view = { λ b. record { records = b.records.items; spots = b.spots.items; phase = b.phase; needed = b.needed; places = b.places.items } };

    ghost invariant = { λ b. IsBarOf b.records.items b.spots.items b.needed b.held b.places.items };
}

impl Bar {
    /// The bar of an office as the plan starts.
    pub fn open(alloc: Global, plan: &Plan, id: OfficeId) -> Result<Bar, AllocError>
        requires { id < length plan.now.offices }
        ensures { IfOk result (λ b. drinker_of b ≡ opened plan.now id) }
    {
        let ours = plan.records_of(id);
        let records = ours.to_vec(alloc)?;
        let spots = spots::open(alloc, plan.records(), ours)?;
        let places = places::open(alloc, plan, id)?;
        let held = places::held_in(&places, ours);
        Ok(Bar {
            records,
            spots,
            phase: Phase::Tranquil,
            needed: Mask128::empty(),
            held,
            places,
        })
    }

    /// The records that this office shares with its neighbours, the least number first.
    pub fn records(&self) -> &[RecordId]
        ensures { result.now ≡ (drinker_of self.now).records }
    {
        &self.records
    }

    pub fn phase(&self) -> Phase
        ensures { result ≡ (drinker_of self.now).phase }
    {
        self.phase
    }

    /// Whether the current session needs the record.
    pub fn needs(&self, r: RecordId) -> bool
        ensures { result ≡ (drinker_of self.now).needed r }
    {
        spots::has(&self.spots, self.needed, r)
    }

    /// Whether no bottle is missing that the current session needs.
    pub fn has_needed(&self) -> bool
        ensures { result ≡ list_all (is_served (drinker_of self.now)) (drinker_of self.now).records }
    {
        self.needed.and_not(self.held).first().is_none()
    }

    /// The value of a bottle that is here.
    pub fn value(&self, r: RecordId) -> Option<Value>
        ensures { result ≡ (drinker_of self.now).bottle r }
    {
        places::at(&self.places, r).bottle
    }

    /// Whether the record's bottle is here.
    pub fn holds(&self, r: RecordId) -> bool
        ensures { result ≡ holds (drinker_of self.now) r }
    {
        self.value(r).is_some()
    }

    /// Whether the request token of the record's bottle is here.
    pub fn has_token(&self, r: RecordId) -> bool
        ensures { result ≡ (drinker_of self.now).token r }
    {
        places::at(&self.places, r).token
    }

    /// The other end of a record of this office: whom it asks for the bottle, and to whom it gives it. Of another
    /// record the answer means nothing.
    pub fn peer(&self, r: RecordId) -> OfficeId
        ensures { result ≡ (drinker_of self.now).peer r }
    {
        places::at(&self.places, r).peer
    }

    /// Where a record stands among the office's own.
    pub(crate) fn spot(&self, r: RecordId) -> u32
        ensures { IsSpot (drinker_of self.now).records r result }
    {
        spots::spot(&self.spots, r)
    }

    /// The bits of the records that the session needs.
    pub(crate) fn needed(&self) -> Mask128
        ensures { Tells (drinker_of self.now).records result (drinker_of self.now).needed }
    {
        self.needed
    }

    /// The bits of the bottles that are here.
    pub(crate) fn held(&self) -> Mask128
        ensures { Tells (drinker_of self.now).records result (holds (drinker_of self.now)) }
    {
        self.held
    }

    /// Whether [`Bar::ask_bottle`] would be done now.
    pub fn may_ask_bottle(&self, r: RecordId) -> bool
        ensures { result ≡ may (drinker_of self.now) (AskBottle r) }
    {
        self.phase.is_thirsty() && self.needs(r) && places::at(&self.places, r).is_askable()
    }

    /// Whether [`Bar::give_bottle`] would be done now.
    pub fn may_give_bottle(&self, r: RecordId, table: &Table) -> bool
        ensures { result ≡ may (drinker_of self.now) (GiveBottle r (diner_of table.now).held) }
    {
        places::at(&self.places, r).is_owed() && !self.keeps(r, table)
    }

    /// Whether [`Bar::drink`] would be done now.
    pub fn may_drink(&self) -> bool
        ensures { result ≡ may (drinker_of self.now) Drink }
    {
        self.phase.is_thirsty() && self.has_needed()
    }

    /// Whether [`Bar::withdraw`] would be done now.
    pub fn may_withdraw(&self) -> bool
        ensures { result ≡ may (drinker_of self.now) Withdraw }
    {
        self.phase.is_thirsty()
    }

    /// A tranquil office begins with the first waiting session, which needs these records; none where no session waits.
    ///
    /// The records are the office's, by condition: one of others could be missing forever, since its bottle could never
    /// come. Whether a session waits, and of `finish` whether its work has ended, is the caller's to know and part of
    /// the guard: `None` is `NotNow`, and no check is made twice.
    pub fn start(&mut self, session: Option<&[RecordId]>) -> Result<(), NotNow>
        requires { ForSome session (λ rs. All (λ r. is_among (drinker_of self.old).records r ≡ true) rs.now) }
        ensures { DoesRule (Start (option_copied session.entry)) result self.old self.new }
    {
        let Some(records) = session else {
            return Err(NotNow);
        };
        if !self.phase.is_tranquil() {
            return Err(NotNow);
        }
        self.phase = Phase::Thirsty;
        self.needed = spots::mask_of(&self.spots, records);
        Ok(())
    }

    /// A thirsty office sends the request token of a bottle that its session needs and that isn't here.
    pub fn ask_bottle(&mut self, r: RecordId) -> Result<(), NotNow>
        ensures { DoesRule (AskBottle r) result self.old self.new }
    {
        if !self.phase.is_thirsty() {
            return Err(NotNow);
        }
        if !self.needs(r) {
            return Err(NotNow);
        }
        let place = places::at(&self.places, r);
        if !place.is_askable() {
            return Err(NotNow);
        }
        self.places[r.index()] = SharedBottle {
            token: false,
            ..place
        };
        Ok(())
    }

    /// An office sends a bottle that is asked for, with its value, unless its session needs the bottle and works, or
    /// needs it and has the fork.
    pub fn give_bottle(&mut self, r: RecordId, table: &Table) -> Result<(), NotNow>
        ensures { DoesRule (GiveBottle r (diner_of table.now).held) result self.old self.new }
    {
        let place = places::at(&self.places, r);
        if !place.is_owed() {
            return Err(NotNow);
        }
        if self.keeps(r, table) {
            return Err(NotNow);
        }
        self.held.clear(spots::spot(&self.spots, r));
        self.places[r.index()] = SharedBottle {
            bottle: None,
            ..place
        };
        Ok(())
    }

    // Whether the office keeps a bottle that is asked for.
    fn keeps(&self, r: RecordId, table: &Table) -> bool
        ensures { result ≡ ((drinker_of self.now).needed r && (is_drinking (drinker_of self.now).phase || (diner_of table.now).held ((drinker_of self.now).peer r))) }
    {
        let place = places::at(&self.places, r);
        let is_drinking = self.phase.is_drinking();
        self.needs(r) && (is_drinking || table.holds(place.peer))
    }

    /// A thirsty office that has all bottles that its session needs begins to work.
    pub fn drink(&mut self) -> Result<(), NotNow>
        ensures { DoesRule Drink result self.old self.new }
    {
        if !self.may_drink() {
            return Err(NotNow);
        }
        self.phase = Phase::Drinking;
        Ok(())
    }

    /// A drinking office ends its session with what the session's work wrote, each record with its value; none where
    /// the work hasn't ended. Where a record is written twice, the last value counts. What is written to a record
    /// whose bottle isn't here is lost.
    ///
    /// A drinking office has all bottles that its session needs, so nothing of a session is lost. A write to a record
    /// that the session doesn't need goes into its bottle, if it is here: sessions write only what they need, so a
    /// refusal would have no case, and the caller has nothing to show. It takes a slice, as `RecordValues::as_slice`
    /// lends it: nothing is copied.
    pub fn finish(&mut self, writes: Option<&[(RecordId, Value)]>) -> Result<(), NotNow>
        ensures { DoesRule (Finish (option_copied writes.entry)) result self.old self.new }
    {
        let Some(writes) = writes else {
            return Err(NotNow);
        };
        if !self.phase.is_drinking() {
            return Err(NotNow);
        }
        self.phase = Phase::Tranquil;
        places::write_all(&mut self.places, writes);
        self.needed = Mask128::empty();
        Ok(())
    }

    /// A thirsty office's session is withdrawn: the office is tranquil again and needs no record. A bottle that was asked
    /// for still comes.
    pub fn withdraw(&mut self) -> Result<(), NotNow>
        ensures { DoesRule Withdraw result self.old self.new }
    {
        if !self.may_withdraw() {
            return Err(NotNow);
        }
        self.phase = Phase::Tranquil;
        self.needed = Mask128::empty();
        Ok(())
    }

    /// The request token of a record's bottle came.
    pub fn got_token(&mut self, r: RecordId)
        requires ours { is_among (drinker_of self.old).records r ≡ true }
        requires away { (drinker_of self.old).token r ≡ false }
        ensures { drinker_of self.new ≡ with_token (drinker_of self.old) r }
    {
        let place = places::at(&self.places, r);
        self.places[r.index()] = SharedBottle {
            token: true,
            ..place
        };
    }

    /// A record's bottle came with this value.
    pub fn got_bottle(&mut self, r: RecordId, value: Value)
        requires ours { is_among (drinker_of self.old).records r ≡ true }
        requires away { holds (drinker_of self.old) r ≡ false }
        ensures { drinker_of self.new ≡ with_bottle (drinker_of self.old) r value }
    {
        let place = places::at(&self.places, r);
        self.held.set(spots::spot(&self.spots, r));
        self.places[r.index()] = SharedBottle {
            bottle: Some(value),
            ..place
        };
    }
}
