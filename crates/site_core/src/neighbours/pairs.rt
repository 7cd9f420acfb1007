//! What an office shares with its neighbours.

ghost use Rattle.std.specs.Prelude.{◌≡◌, ◌<◌, ◌≤◌, ◌↔◌, ℕ, Some, None, true, length, option_map, is_some, IsSome, IfSome, IfOk, All, if◌then◌else◌, find};
ghost use Rattle.std.specs.Option.{ForSome, option_copied};
ghost use Rattle.std.specs.Result.{result_err};
ghost use Rattle.office_map.specs.PlanValue.{are_neighbours, is_end, peer, records_of, neighbours_of};
ghost use Rattle.bottle_values.specs.Lists.{is_among};
ghost use Rattle.window_link.specs.Windows.{used};
ghost use Rattle.window_link.specs.Limits.{greatest};
ghost use Rattle.dining_core.specs.Diners as forks;
ghost use Rattle.dining_core.specs.refinement.Tables.{diner_of};
ghost use Rattle.drinking_core.specs.Drinkers as bottles;
ghost use Rattle.drinking_core.specs.refinement.Bars.{drinker_of};
ghost use Rattle.site_core.specs.neighbours.Pairs.{Pairs, opened, frame_on, is_thirsty, frame_fault, arrival_of, after_taking, fork_came, bottle_came};
ghost use Rattle.site_core.specs.neighbours.refinement.PairsOfCode.{pairs_of, IsOf, DoesForkRule, DoesBottleRule, HaveRoom, HaveValues, MayBring, MayAllBring, forks_came, bottles_came};

use crate::neighbours::channels::Channels;
use bottle_values::Value;
use dining_core::{MaskedTable, NotNow, Table};
use drinking_core::{Bar, MaskedBar};
use frame_codec::{Frame, Msg};
use office_map::{OfficeId, Plan, RecordId};
use std::alloc::{AllocError, Global};
use std::marker::Model;
use token_channel::laws::{
    opens_as_the_plan_starts, what_comes_is_held, what_comes_was_away, what_follows_is_held,
    what_follows_was_away, what_is_shared_stays,
};
use token_channel::{Channel, ChannelFault, Messages};
use window_link::{Arrival, LinkFault};

/// The forks and bottles of an office, and the channels to its neighbours.
#[derive(Drop)]
pub struct Pairs {
    plan: Plan,
    me: OfficeId,
    table: MaskedTable,
    bar: MaskedBar,
    channels: Channels,
    /// The messages that were taken with the last frame. It is room that is used again, and no contract sees it.
    taken: Messages,
}

impl Model for Pairs {
    ghost use Rattle.site_core.specs.neighbours.refinement.PairsOfCode.{PairsValue, ArePairs};

    ghost Value = { PairsValue };

    ghost view = { λ p. record { plan = p.plan; me = p.me; table = p.table; bar = p.bar; channels = p.channels } };

    ghost invariant = { λ p. ArePairs (record { plan = p.plan; me = p.me; table = p.table; bar = p.bar; channels = p.channels }) };
}

impl Pairs {
    /// The pairs of an office as the plan starts. A copy of the plan is kept.
    pub fn open(alloc: Global, plan: &Plan, me: OfficeId) -> Result<Pairs, AllocError>
        requires { me < length plan.now.offices }
        ensures office { IfOk result (IsOf plan.now me) }
        ensures opened { IfOk result (λ p. pairs_of p ≡ opened plan.now me) }
    {
        opens_as_the_plan_starts();
        let _ = plan.offices();
        let plan = plan.copy(alloc)?;
        let table = MaskedTable::open(alloc, &plan, me)?;
        let bar = MaskedBar::open(alloc, &plan, me)?;
        let channels = Channels::open(alloc, &plan, me)?;
        Ok(Pairs {
            plan,
            me,
            table,
            bar,
            channels,
            taken: Messages::none(),
        })
    }

    /// The plan.
    pub fn plan(&self) -> &Plan
        ensures { result.now ≡ self.now.plan }
    {
        &self.plan
    }

    /// The office's number.
    pub fn me(&self) -> OfficeId
        ensures number { result ≡ self.now.me }
        ensures office { result < length self.now.plan.offices }
    {
        let _ = &self.channels;
        self.me
    }

    /// The forks.
    pub fn table(&self) -> &Table
        ensures { result.now ≡ self.now.table }
    {
        self.table.table()
    }

    /// The bottles.
    pub fn bar(&self) -> &Bar
        ensures { result.now ≡ self.now.bar }
    {
        self.bar.bar()
    }

    /// The records that the office shares with its neighbours, the least number first.
    pub fn records(&self) -> &[RecordId]
        ensures { result.now ≡ records_of self.now.plan self.now.me }
    {
        self.bar.bar().records()
    }

    /// The least of its records whose bottle may be given now.
    pub fn first_given(&self) -> Option<RecordId>
        ensures { result ≡ find (λ r. bottles.may (pairs_of self.now).drinker (bottles.GiveBottle r (pairs_of self.now).diner.held)) (records_of self.now.plan self.now.me) }
    {
        self.bar.first_given(self.table.table())
    }

    /// The least of its records whose bottle may be asked for now.
    pub fn first_asked(&self) -> Option<RecordId>
        ensures { result ≡ find (λ r. bottles.may (pairs_of self.now).drinker (bottles.AskBottle r)) (records_of self.now.plan self.now.me) }
    {
        self.bar.first_asked()
    }

    /// The least neighbour to whom a fork may be given now.
    pub fn first_fork_given(&self) -> Option<OfficeId>
        ensures { result ≡ find (λ v. forks.may (pairs_of self.now).diner (forks.GiveFork v)) (neighbours_of self.now.plan self.now.me) }
    {
        match self.table.first_given() {
            Some(v) => Some(office(v)),
            None => None,
        }
    }

    /// The least neighbour who may be asked for a fork now.
    pub fn first_fork_asked(&self) -> Option<OfficeId>
        ensures { result ≡ find (λ v. forks.may (pairs_of self.now).diner (forks.AskFork v)) (neighbours_of self.now.plan self.now.me) }
    {
        match self.table.first_asked() {
            Some(v) => Some(office(v)),
            None => None,
        }
    }

    /// Whether [`Pairs::eat`] would be done now.
    pub fn may_eat(&self) -> bool
        ensures { result ≡ forks.may (pairs_of self.now).diner forks.Eat }
    {
        self.table.may_eat()
    }

    /// The offices with which this one shares a fork, the least number first.
    pub fn neighbours(&self) -> &[OfficeId]
        ensures { result.now ≡ neighbours_of self.now.plan self.now.me }
    {
        self.table.table().neighbours()
    }

    /// The request token of a neighbour's fork is sent.
    pub fn ask_fork(&mut self, v: OfficeId) -> Result<(), NotNow>
        requires room { HaveRoom self.old }
        ensures { DoesForkRule (are_neighbours self.old.plan self.old.me v) (forks.AskFork v) result self.old self.new }
    {
        if !self.channels.has(v) {
            return Err(NotNow);
        }
        self.table.ask_fork(v)?;
        self.channels.send(v, Msg::AskFork);
        Ok(())
    }

    /// A dirty fork is sent to the neighbour who asked for it.
    pub fn give_fork(&mut self, v: OfficeId) -> Result<(), NotNow>
        requires room { HaveRoom self.old }
        ensures { DoesForkRule (are_neighbours self.old.plan self.old.me v) (forks.GiveFork v) result self.old self.new }
    {
        if !self.channels.has(v) {
            return Err(NotNow);
        }
        self.table.give_fork(v)?;
        self.channels.send(v, Msg::Fork);
        Ok(())
    }

    /// The request token of a needed record's bottle is sent to the record's other end.
    pub fn ask_bottle(&mut self, r: RecordId) -> Result<(), NotNow>
        requires room { HaveRoom self.old }
        ensures { DoesBottleRule (is_end self.old.plan r self.old.me) (bottles.AskBottle r) result self.old self.new }
    {
        if !self.plan.has_end(r, self.me) {
            return Err(NotNow);
        }
        let v = self.plan.other_end(r, self.me);
        self.bar.ask_bottle(r)?;
        self.channels.send(v, Msg::AskBottle(r.number()));
        Ok(())
    }

    /// A record's bottle is sent to the record's other end, with its value.
    pub fn give_bottle(&mut self, r: RecordId) -> Result<(), NotNow>
        requires room { HaveRoom self.old }
        requires values { HaveValues self.old }
        ensures { DoesBottleRule (is_end self.old.plan r self.old.me) (bottles.GiveBottle r (pairs_of self.old).diner.held) result self.old self.new }
    {
        if !self.plan.has_end(r, self.me) {
            return Err(NotNow);
        }
        let Some(value) = self.bar.bar().value(r) else {
            return Err(NotNow);
        };
        let v = self.plan.other_end(r, self.me);
        self.bar.give_bottle(r, self.table.table())?;
        self.channels.send(v, Msg::Bottle(r.number(), value));
        Ok(())
    }

    /// A thinking office that is thirsty becomes hungry.
    pub fn hungry(&mut self) -> Result<(), NotNow>
        ensures { DoesForkRule true (forks.BecomeHungry (is_thirsty (pairs_of self.old))) result self.old self.new }
    {
        let thirsty = self.bar.bar().phase().is_thirsty();
        self.table.hungry(thirsty)?;
        Ok(())
    }

    /// A hungry office that has all its forks eats.
    pub fn eat(&mut self) -> Result<(), NotNow>
        ensures { DoesForkRule true forks.Eat result self.old self.new }
    {
        self.table.eat()?;
        Ok(())
    }

    /// An eating office that isn't thirsty thinks again.
    pub fn leave(&mut self) -> Result<(), NotNow>
        ensures { DoesForkRule true (forks.Leave (is_thirsty (pairs_of self.old))) result self.old self.new }
    {
        let thirsty = self.bar.bar().phase().is_thirsty();
        self.table.leave(thirsty)?;
        Ok(())
    }

    /// A tranquil office begins with the first waiting session, which needs these records; none where no session waits.
    pub fn start(&mut self, session: Option<&[RecordId]>) -> Result<(), NotNow>
        requires { ForSome session (λ rs. All (λ r. is_end self.old.plan r self.old.me ≡ true) rs.now) }
        ensures { DoesBottleRule true (bottles.Start (option_copied session.entry)) result self.old self.new }
    {
        self.bar.start(session)?;
        Ok(())
    }

    /// A thirsty office that has all bottles that its session needs begins to work.
    pub fn drink(&mut self) -> Result<(), NotNow>
        ensures { DoesBottleRule true bottles.Drink result self.old self.new }
    {
        self.bar.drink()?;
        Ok(())
    }

    /// A drinking office ends its session with what the session's work wrote; none where the work hasn't ended.
    pub fn finish(&mut self, writes: Option<&[(RecordId, Value)]>) -> Result<(), NotNow>
        ensures { DoesBottleRule true (bottles.Finish (option_copied writes.entry)) result self.old self.new }
    {
        self.bar.finish(writes)?;
        Ok(())
    }

    /// A thirsty office's session is withdrawn.
    pub fn withdraw(&mut self) -> Result<(), NotNow>
        ensures { DoesBottleRule true bottles.Withdraw result self.old self.new }
    {
        self.bar.withdraw()?;
        Ok(())
    }

    /// The channel to that office, if it is a neighbour.
    pub fn channel(&self, v: OfficeId) -> Option<&Channel>
        ensures near { IsSome result ↔ (are_neighbours self.now.plan self.now.me v ≡ true) }
        ensures link { ForSome result (λ c. c.now.link ≡ (pairs_of self.now).link v) }
    {
        self.channels.get(v)
    }

    /// The channel to the other end of a record, if the office is one of its ends.
    pub fn channel_of(&self, r: RecordId) -> Option<&Channel>
        ensures near { IsSome result ↔ (is_end self.now.plan r self.now.me ≡ true) }
        ensures link { ForSome result (λ c. c.now.link ≡ (pairs_of self.now).link (peer self.now.plan self.now.me r)) }
    {
        if !self.plan.has_end(r, self.me) {
            return None;
        }
        let v = self.plan.other_end(r, self.me);
        self.channel(v)
    }

    /// The frame of the `i`-th message that waits for an office, from 1, or with 0 one of the count alone; none where there
    /// is no such neighbour or message.
    pub fn frame(&self, v: OfficeId, i: usize) -> Option<Frame>
        ensures frame { result ≡ (if are_neighbours self.now.plan self.now.me v then frame_on ((pairs_of self.now).link v) i else None) }
        ensures few { IfSome result (λ _. i ≤ 18) }
    {
        let channel = self.channel(v)?;
        if i == 0 {
            return Some(channel.ack_frame());
        }
        if i <= channel.waiting().len() {
            Some(channel.frame(i))
        } else {
            None
        }
    }

    /// Whether a frame that comes can be taken in.
    ///
    /// # Errors
    /// `Stranger` where no neighbour sent it, or else the channel's faults.
    pub fn check(&self, frame: &Frame) -> Result<(), ChannelFault>
        ensures fault { result_err result ≡ frame_fault self.now.plan self.now.me (pairs_of self.now) frame.now }
    {
        match self.channels.get(OfficeId::new(frame.from())) {
            Some(channel) => channel.check(frame),
            None => Err(ChannelFault::Link(LinkFault::Stranger)),
        }
    }

    /// Takes in a frame that [`Pairs::check`] passes. What it brings is held, and after it what was kept, up to the first
    /// gap or breach.
    pub fn take(&mut self, frame: &Frame) -> Arrival
        requires passes { frame_fault self.old.plan self.old.me (pairs_of self.old) frame.now ≡ None }
        ensures office { IsOf self.old.plan self.old.me self.new }
        ensures arrival { result ≡ arrival_of (pairs_of self.old) frame.now }
        ensures taken { pairs_of self.new ≡ after_taking self.old.plan self.old.me (pairs_of self.old) frame.now }
    {
        what_comes_was_away();
        what_comes_is_held();
        what_follows_was_away();
        what_follows_is_held();
        what_is_shared_stays();
        let v = OfficeId::new(frame.from());
        let arrival = self.channels.accept(v, frame, &mut self.taken);
        take_in(&mut self.table, &mut self.bar, v, self.taken.as_slice());
        arrival
    }
}

fn office(v: u32) -> OfficeId
    requires { v < 16 }
    ensures { result ≡ v }
{
    OfficeId::new(v as u8)
}

/// What these messages of a neighbour bring is held, one after the other.
fn take_in(table: &mut MaskedTable, bar: &mut MaskedBar, v: OfficeId, messages: &[Msg])
    requires { MayAllBring (diner_of table.old) (drinker_of bar.old) v messages.now }
    ensures forks { diner_of table.new ≡ forks_came (diner_of table.old) v messages.now }
    ensures bottles { drinker_of bar.new ≡ bottles_came (drinker_of bar.old) messages.now }
{
    for msg in messages {
        hold(table, bar, v, msg);
    }
}

/// What a message of a neighbour brings is held.
fn hold(table: &mut MaskedTable, bar: &mut MaskedBar, v: OfficeId, msg: &Msg)
    requires { MayBring (diner_of table.old) (drinker_of bar.old) v msg.now }
    ensures forks { diner_of table.new ≡ fork_came (diner_of table.old) v msg.now }
    ensures bottles { drinker_of bar.new ≡ bottle_came (drinker_of bar.old) msg.now }
{
    match *msg {
        Msg::AskFork => table.got_token(v),
        Msg::Fork => table.got_fork(v),
        Msg::AskBottle(r) => bar.got_token(RecordId::new(r)),
        Msg::Bottle(r, value) => bar.got_bottle(RecordId::new(r), value),
    }
}
