//! A bar with masks beside it: what is done next of it, without a look at each record.

ghost use Rattle.std.specs.Prelude.{◌≡◌, ◌<◌, ◌≤◌, ℕ, length, find, IfOk, All, true, false};
ghost use Rattle.std.specs.Option.{ForSome, option_copied};
ghost use Rattle.dining_core.specs.masks.Sets.{is_in128};
ghost use Rattle.bottle_values.specs.Lists.{is_among};
ghost use Rattle.dining_core.specs.refinement.Tables.{diner_of};
ghost use Rattle.drinking_core.specs.Drinkers.{Start, AskBottle, GiveBottle, Drink, Finish, Withdraw, may, with_token, with_bottle, holds, opened};
ghost use Rattle.drinking_core.specs.refinement.Bars.{DoesRule, drinker_of};
ghost use Rattle.drinking_core.specs.refinement.Masks.{record_at, Tells};

use crate::bar::Bar;
use bottle_values::Value;
use dining_core::masks::Mask128;
use dining_core::{NotNow, Table};
use office_map::{OfficeId, Plan, RecordId};
use std::alloc::{AllocError, Global};
use std::marker::Model;

/// A [`Bar`], and of the office's own records, each at its place among them, as bits: which request tokens are here.
///
/// The bar itself has the bits of the records that are needed and of the bottles that are here. With those of the tokens
/// what comes next is found in a word.
#[derive(Drop)]
pub struct MaskedBar {
    bar: Bar,
    tokens: Mask128,
}

impl Model for MaskedBar {
    ghost use Rattle.drinking_core.specs.refinement.Bars.{BarValue, drinker_of};
    ghost use Rattle.drinking_core.specs.refinement.Masks.{AreMasks};

    ghost Value = { BarValue };

    ghost view = { λ b. b.bar };

    ghost invariant = { λ b. AreMasks (drinker_of b.bar) b.tokens };
}

impl MaskedBar {
    /// The bar of an office as the plan starts.
    pub fn open(alloc: Global, plan: &Plan, id: OfficeId) -> Result<MaskedBar, AllocError>
        requires { id < length plan.now.offices }
        ensures { IfOk result (λ b. drinker_of b ≡ opened plan.now id) }
    {
        let bar = Bar::open(alloc, plan, id)?;
        let tokens = tokens_in(&bar, plan.records_of(id));
        Ok(MaskedBar { bar, tokens })
    }

    /// The bar.
    pub fn bar(&self) -> &Bar
        ensures { result.now ≡ self.now }
    {
        &self.bar
    }

    /// The least of the office's records whose bottle may be given now.
    ///
    /// The guard of each bottle that is here and asked for is asked. A mask of those that a fork keeps would tie
    /// bottles to forks; but a thirsty office that was asked for all that it needs looks at each.
    pub fn first_given(&self, table: &Table) -> Option<RecordId>
        ensures { result ≡ find (λ r. may (drinker_of self.now) (GiveBottle r (diner_of table.now).held)) (drinker_of self.now).records }
    {
        let owed = self.bar.held().and(self.tokens);
        if self.bar.phase().is_drinking() {
            first_given_of(&self.bar, owed.and_not(self.bar.needed()), table)
        } else {
            first_given_of(&self.bar, owed, table)
        }
    }

    /// The least of the office's records whose bottle may be asked for now.
    pub fn first_asked(&self) -> Option<RecordId>
        ensures { result ≡ find (λ r. may (drinker_of self.now) (AskBottle r)) (drinker_of self.now).records }
    {
        if !self.bar.phase().is_thirsty() {
            return None;
        }
        let asked = self.bar.needed().and(self.tokens).and_not(self.bar.held());
        let Some(k) = asked.first() else {
            return None;
        };
        match self.bar.records().get(k as usize) {
            Some(r) => Some(*r),
            None => None,
        }
    }

    /// A tranquil office begins with the first waiting session, which needs these records; none where no session waits.
    pub fn start(&mut self, session: Option<&[RecordId]>) -> Result<(), NotNow>
        requires { ForSome session (λ rs. All (λ r. is_among (drinker_of self.old).records r ≡ true) rs.now) }
        ensures { DoesRule (Start (option_copied session.entry)) result self.old self.new }
    {
        self.bar.start(session)?;
        Ok(())
    }

    /// A thirsty office sends the request token of a bottle that its session needs and that isn't here.
    pub fn ask_bottle(&mut self, r: RecordId) -> Result<(), NotNow>
        ensures { DoesRule (AskBottle r) result self.old self.new }
    {
        self.bar.ask_bottle(r)?;
        self.tokens.clear(self.bar.spot(r));
        Ok(())
    }

    /// An office sends a bottle that is asked for, with its value, unless its session needs the bottle and works, or
    /// needs it and has the fork.
    pub fn give_bottle(&mut self, r: RecordId, table: &Table) -> Result<(), NotNow>
        ensures { DoesRule (GiveBottle r (diner_of table.now).held) result self.old self.new }
    {
        self.bar.give_bottle(r, table)?;
        Ok(())
    }

    /// A thirsty office that has all bottles that its session needs begins to work.
    pub fn drink(&mut self) -> Result<(), NotNow>
        ensures { DoesRule Drink result self.old self.new }
    {
        self.bar.drink()?;
        Ok(())
    }

    /// A drinking office ends its session with what the session's work wrote, each record with its value; none where
    /// the work hasn't ended. Where a record is written twice, the last value counts. What is written to a record
    /// whose bottle isn't here is lost.
    pub fn finish(&mut self, writes: Option<&[(RecordId, Value)]>) -> Result<(), NotNow>
        ensures { DoesRule (Finish (option_copied writes.entry)) result self.old self.new }
    {
        self.bar.finish(writes)?;
        Ok(())
    }

    /// A thirsty office's session is withdrawn: the office is tranquil again and needs no record. A bottle that was asked
    /// for still comes.
    pub fn withdraw(&mut self) -> Result<(), NotNow>
        ensures { DoesRule Withdraw result self.old self.new }
    {
        self.bar.withdraw()?;
        Ok(())
    }

    /// The request token of a record's bottle came.
    pub fn got_token(&mut self, r: RecordId)
        requires ours { is_among (drinker_of self.old).records r ≡ true }
        requires away { (drinker_of self.old).token r ≡ false }
        ensures { drinker_of self.new ≡ with_token (drinker_of self.old) r }
    {
        self.bar.got_token(r);
        self.tokens.set(self.bar.spot(r));
    }

    /// A record's bottle came with this value.
    pub fn got_bottle(&mut self, r: RecordId, value: Value)
        requires ours { is_among (drinker_of self.old).records r ≡ true }
        requires away { holds (drinker_of self.old) r ≡ false }
        ensures { drinker_of self.new ≡ with_bottle (drinker_of self.old) r value }
    {
        self.bar.got_bottle(r, value);
    }
}

/// The bits of the request tokens that are here.
fn tokens_in(bar: &Bar, records: &[RecordId]) -> Mask128
    requires { length records.now ≤ 128 }
    ensures { Tells records.now result (drinker_of bar.now).token }
{
    let mut mask = Mask128::empty();
    for k in 0..records.len() {
        mask.put(k as u32, bar.has_token(records[k]));
    }
    mask
}

/// The least of these records whose bottle may be given now; of no other it may.
fn first_given_of(bar: &Bar, among: Mask128, table: &Table) -> Option<RecordId>
    requires others { (k : ℕ) → k < length (drinker_of bar.now).records → k < 128 → is_in128 among k ≡ false → may (drinker_of bar.now) (GiveBottle (record_at (drinker_of bar.now).records k) (diner_of table.now).held) ≡ false }
    requires few { length (drinker_of bar.now).records ≤ 128 }
    ensures { result ≡ find (λ r. may (drinker_of bar.now) (GiveBottle r (diner_of table.now).held)) (drinker_of bar.now).records }
{
    let mut left = among;
    'left: while let Some(k) = left.first() {
        let Some(r) = bar.records().get(k as usize) else {
            return None;
        };
        if bar.may_give_bottle(*r, table) {
            return Some(*r);
        }
        left.clear(k);
    }
    None
}
