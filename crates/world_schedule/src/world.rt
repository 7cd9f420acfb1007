//! All offices of a plan, and what happens to them.

ghost use Rattle.std.specs.Prelude.{◌≡◌, ◌<◌, ◌^◌, ◌↔◌, ◌∷◌, [], List, Err, IsTrue, length, map, slice_get, IfOk, OnOk, IfErr};
ghost use Rattle.std.specs.Option.{option_copied};
ghost use Rattle.site_core.specs.agendas.Agenda.{unfinished};
ghost use Rattle.site_core.specs.Journals.{office_of, IsLegal};
ghost use Rattle.office_journal.specs.declared.reply.Refusal.TheVariants as refused;
ghost use Rattle.frame_world.specs.declared.refusal.WorldRefusal.TheVariants as refusals;
ghost use Rattle.frame_world.specs.declared.event.WorldEvent.{WorldEvent};
ghost use Rattle.frame_world.specs.declared.event.WorldEvent.TheVariants as events;
ghost use Rattle.frame_world.specs.Worlds.{opening, run_of, replies_of, Applies, Stops, site_at, frame_at};
ghost use Rattle.frame_world.specs.Ways.{bottles_of, pairs_at, tables_of};
ghost use Rattle.frame_world.specs.Headline.{programs, outcomes, IsReached, HasSerialSessions, HasSerialValues, HasOnePlaceEach, NeighboursEatApart, EatersHaveTheirForks, DrinkersHaveTheirBottles, FramesAreTaken, NoneIsEarly, FramesGoByBytes, CountsAreTimely};
ghost use Rattle.frame_world.specs.Standstill.{next_step, place_of, IsStep, IsNextMessage};
ghost use Rattle.frame_world.specs.Strict.{IsStrict};
ghost use Rattle.frame_world.specs.Termination.{RunsEnd, WhoGoesOnFinishes};
ghost use Rattle.frame_world.specs.Tickets.{HaveTheirTickets, TicketsRise, TellsEachOffice};
ghost use Rattle.dining_core.specs.Worlds.{HasNoRing};
ghost use Rattle.serial_replay.specs.Serial.{start_map, map_of};
ghost use Rattle.frame_world.specs.EveryWorld.{HasHeadline};
ghost use Rattle.world_schedule.specs.Readers.{unfinished_in, listed_as};
ghost use Rattle.world_schedule.specs.Records.{IsLeftBy};
ghost use Rattle.world_schedule.specs.Resting.{RestIn, RestAfter};

use crate::finished::Finished;
use crate::opening::offices_of;
use crate::recording::{are_legal, marks_of};
use crate::resting::Resting;
use crate::sought::Sought;
use crate::values::bottle_between;
use crate::{happening, next};
use bottle_values::Value;
use frame_codec::Frame;
use frame_world::laws::{
    bottles_are_serial, counts_are_timely, each_office_is_told, every_run_ends,
    finished_have_their_tickets, frames_go_by_bytes, neighbours_never_eat_at_once, never_stuck,
    none_is_early, order_is_strict, precedence_has_no_ring, sent_frames_are_taken,
    sessions_are_serial, things_have_one_place, tickets_rise, who_drinks_has_its_bottles,
    who_eats_has_its_forks, who_goes_on_finishes,
};
use frame_world::{NextStep, SentAt, WorldEvent, WorldRefusal};
use office_map::{OfficeId, Plan, RecordId};
use session_meaning::Outcome;
use session_programs::Program;
use site_core::laws::sessions_go_in_order;
use site_core::{Journal, Office, Reply, Rule};
use std::alloc::{AllocError, Global};
use std::marker::Model;

/// Where a run stopped for want of memory.
#[derive(Clone, Copy, Debug, PartialEq, Eq)]
pub struct Stopped {
    /// How many events were done.
    pub done: usize,
}

/// All offices of a plan with their journals, every frame that they sent, and which sessions finished.
///
/// Of a frame it keeps which entry of which office tells it, as of a finished session: the frame is in that journal. It is no
/// bytes, but that each is in the format's ranges is the world's invariant; so each has its one spelling, and who hands on the
/// bytes hands on the frame.
#[derive(Drop)]
pub struct World {
    alloc: Global,
    plan: Plan,
    offices: Vec<Office>,
    sent: Vec<SentAt>,
    finished: Vec<Finished>,
}

impl Model for World {
    ghost use Rattle.std.specs.Coded.{Coded, codes};
    ghost use Rattle.session_meaning.specs.declared.node.Node.{Node};
    ghost use Rattle.session_meaning.specs.refinement.TreeEncoding.{Mark, term_code, block_code};
    ghost use Rattle.frame_world.specs.Worlds as worlds;
    ghost use Rattle.world_schedule.specs.refinement.WorldOfCode.{world_in, frames_in, IsWorld, AreTold};

    ghost Value = { worlds.World };

    ghost coded = { let nodes : Coded Node = Prim.hlevel codes in let marks : Coded Mark = Prim.hlevel (codes, term_code nodes) in Prim.hlevel (codes, block_code marks) };

    ghost view = { λ w. world_in w.plan w.offices.items (frames_in w.plan w.offices.items w.sent.items) w.finished.items };

    ghost invariant = { λ w. IsWorld w.plan w.offices.items (frames_in w.plan w.offices.items w.sent.items) w.finished.items × AreTold w.plan w.offices.items w.sent.items };
}

impl World {
    /// The world as a plan starts it.
    pub fn open(alloc: Global, plan: Plan) -> Result<World, AllocError>
        ensures { IfOk result (λ w. w ≡ opening plan) }
    {
        let _ = plan.offices();
        let offices = offices_of(alloc, &plan)?;
        Ok(World {
            alloc,
            plan,
            offices,
            sent: Vec::new(alloc),
            finished: Vec::new(alloc),
        })
    }

    /// The world to which events led that left these offices, in order of number, sent the frames that these entries tell, and by
    /// which sessions finished at the offices of this order. No event is done again.
    pub fn of_record(
        alloc: Global,
        plan: Plan,
        offices: Vec<Office>,
        sent: Vec<SentAt>,
        order: &[OfficeId],
    ) -> Result<World, AllocError>
        requires { (events : List WorldEvent) × IsLeftBy plan events offices.items sent.items order.now }
        ensures { IfOk result (λ w. (events : List WorldEvent) → IsLeftBy plan events offices.items sent.items order.now → w ≡ run_of (opening plan) events) }
    {
        each_office_is_told();
        sessions_go_in_order();
        // There are at most 16 offices.
        let _ = plan.offices();
        are_legal(&offices);
        let finished = marks_of(alloc, &offices, order)?;
        Ok(World {
            alloc,
            plan,
            offices,
            sent,
            finished,
        })
    }

    /// The plan that it was opened with.
    pub fn plan(&self) -> &Plan
        ensures { result.now ≡ self.now.plan }
    {
        &self.plan
    }

    /// One event. A refused one leaves the world as it was.
    ///
    /// # Errors
    /// `NoOffice` where the plan hasn't the office, `NoFrame` where so many frames weren't sent; then what the office
    /// refuses. `Memory` only where the event would be accepted.
    pub fn apply(&mut self, event: &WorldEvent) -> Result<Reply, WorldRefusal>
        ensures { Applies self.old event.now result self.new }
    {
        match event {
            WorldEvent::Submit(at, program) => self.submit(*at, program),
            WorldEvent::Withdraw(at, ticket) => self.withdraw(*at, *ticket),
            WorldEvent::Do(at, rule) => self.act(*at, rule),
            WorldEvent::Send(from, to, i) => self.send(*from, *to, *i),
            WorldEvent::Deliver(k) => self.deliver(*k),
        }
    }

    /// The event that a session is submitted at an office. Its program is copied where it is taken.
    ///
    /// # Errors
    /// As [`World::apply`].
    #[inline(always)]
    pub fn submit(&mut self, at: OfficeId, program: &Program) -> Result<Reply, WorldRefusal>
        ensures { Applies self.old (events.Submit at program.now) result self.new }
    {
        happening::submit(&mut self.offices, at, program)
    }

    /// The event that the session with this ticket is withdrawn at an office. It is neither finished nor unfinished then.
    ///
    /// # Errors
    /// As [`World::apply`].
    #[inline(always)]
    pub fn withdraw(&mut self, at: OfficeId, ticket: u32) -> Result<Reply, WorldRefusal>
        ensures { Applies self.old (events.Withdraw at ticket) result self.new }
    {
        happening::withdraw(&mut self.offices, at, ticket)
    }

    /// The event that an office does a rule.
    ///
    /// # Errors
    /// As [`World::apply`].
    #[inline(always)]
    pub fn act(&mut self, at: OfficeId, rule: &Rule) -> Result<Reply, WorldRefusal>
        ensures { Applies self.old (events.Do at rule.now) result self.new }
    {
        if let Rule::Finish = rule {
            // Tickets rise, so what is listed is found again by its ticket.
            sessions_go_in_order();
            return happening::finish(&mut self.offices, &mut self.finished, at);
        }
        happening::act(&mut self.offices, at, rule)
    }

    /// The event that an office makes a frame: of the `i`-th message that waits for a neighbour, from 1, or with 0 of the
    /// count alone.
    ///
    /// # Errors
    /// As [`World::apply`].
    #[inline(always)]
    pub fn send(&mut self, from: OfficeId, to: OfficeId, i: usize) -> Result<Reply, WorldRefusal>
        ensures { Applies self.old (events.Send from to i) result self.new }
    {
        happening::send(&mut self.offices, &mut self.sent, from, to, i)
    }

    /// The event that the frame which was sent as the `k`-th of all, from 1, comes to its addressee.
    ///
    /// # Errors
    /// As [`World::apply`].
    #[inline(always)]
    pub fn deliver(&mut self, k: usize) -> Result<Reply, WorldRefusal>
        ensures { Applies self.old (events.Deliver k) result self.new }
    {
        let Some(frame) = self.frame(k) else {
            return Err(WorldRefusal::NoFrame);
        };
        happening::deliver(&mut self.offices, &frame)
    }

    /// Events in order. A refused one leaves the world as it was, and the run goes on. Of the world then all holds that
    /// [`World::headline`] tells.
    ///
    /// Room for all replies is made first. So where it stops later, it is at an event that is accepted there.
    ///
    /// # Errors
    /// `Stopped` where memory runs out, with the world after the events before: before the first one, where there is no room
    /// for the replies, or at one that is accepted there.
    pub fn run(
        &mut self,
        events: &[WorldEvent],
    ) -> Result<Vec<Result<Reply, WorldRefusal>>, Stopped>
        ensures headline { HasHeadline self.new }
        ensures replies { IfOk result (λ replies. replies.items ≡ replies_of self.old events.now) }
        ensures world { OnOk result (self.new ≡ run_of self.old events.now) }
        ensures stopped { IfErr result (λ s. Stops self.old events.now s.done self.new) }
    {
        let replies = self.run_all(events);
        self.headline();
        replies
    }

    fn run_all(
        &mut self,
        events: &[WorldEvent],
    ) -> Result<Vec<Result<Reply, WorldRefusal>>, Stopped>
        ensures replies { IfOk result (λ replies. replies.items ≡ replies_of self.old events.now) }
        ensures world { OnOk result (self.new ≡ run_of self.old events.now) }
        ensures stopped { IfErr result (λ s. Stops self.old events.now s.done self.new) }
    {
        let Ok(mut replies) = Vec::with_capacity(self.alloc, events.len()) else {
            return Err(Stopped { done: 0 });
        };
        for event in events {
            let done = replies.len();
            let reply = self.apply(event);
            if is_memory(&reply) {
                return Err(Stopped { done });
            }
            replies.push_reserved(reply);
        }
        Ok(replies)
    }

    /// What holds of every world: some events led to it from its plan; the finished sessions ended as they do in the serial
    /// run of these sessions in finishing order, and each record's one bottle has the value of that run; whatever happens,
    /// they stay first in that order, before each session that is submitted from now on; each of them has the ticket that
    /// was answered when it was submitted, and those of an office rise; each fork, bottle and request token is at one
    /// place; neighbours eat apart, who eats has its forks, who works has its bottles, and precedence has no ring. Nor will
    /// a frame that was sent be refused for what it says, or come too early to be kept, and each has bytes that are read as
    /// that frame by every office; its count is no older than its message. And whatever happens, no more steps are made than
    /// there is work left, until a session is submitted; whoever goes on making steps finishes every session.
    pub fn headline(&self)
        ensures reached { IsReached self.now }
        ensures sessions { HasSerialSessions self.now }
        ensures strict { IsStrict self.now }
        ensures tickets { HaveTheirTickets self.now }
        ensures rise { TicketsRise self.now }
        ensures offices { TellsEachOffice self.now }
        ensures bottles { HasSerialValues self.now }
        ensures places { HasOnePlaceEach self.now }
        ensures apart { NeighboursEatApart self.now }
        ensures eaters { EatersHaveTheirForks self.now }
        ensures drinkers { DrinkersHaveTheirBottles self.now }
        ensures order { HasNoRing self.now.plan (tables_of (pairs_at self.now)) }
        ensures frames { FramesAreTaken self.now }
        ensures early { NoneIsEarly self.now }
        ensures bytes { FramesGoByBytes self.now }
        ensures counts { CountsAreTimely self.now }
        ensures ends { RunsEnd self.now }
        ensures finishes { WhoGoesOnFinishes self.now }
    {
        sessions_are_serial();
        order_is_strict();
        finished_have_their_tickets();
        tickets_rise();
        each_office_is_told();
        bottles_are_serial();
        things_have_one_place();
        neighbours_never_eat_at_once();
        who_eats_has_its_forks();
        who_drinks_has_its_bottles();
        precedence_has_no_ring();
        sent_frames_are_taken();
        none_is_early();
        frames_go_by_bytes();
        counts_are_timely();
        every_run_ends();
        who_goes_on_finishes();
        let _ = &self.plan;
    }

    /// All offices, in order of number.
    pub fn offices(&self) -> &[Office]
        ensures all { result.now ≡ self.now.sites }
        ensures one_each { length result.now ≡ length self.now.plan.offices }
    {
        let _ = &self.plan;
        self.offices.as_slice()
    }

    /// An office.
    pub fn office(&self, id: OfficeId) -> &Office
        requires { id < length self.now.plan.offices }
        ensures site { result.now ≡ site_at self.now id }
        ensures plan { result.now.plan ≡ self.now.plan }
        ensures number { result.now.me ≡ id }
    {
        &self.offices[id.index()]
    }

    /// All that an office accepted.
    pub fn journal(&self, id: OfficeId) -> &Journal
        requires { id < length self.now.plan.offices }
        ensures entries { result.now.entries ≡ (site_at self.now id).entries }
        ensures legal { IsLegal (site_at self.now id) }
    {
        self.office(id).journal()
    }

    /// How many frames were ever sent.
    pub fn frames(&self) -> usize
        ensures { result ≡ length self.now.frames }
    {
        self.sent.len()
    }

    /// The frame that was sent as the `k`-th of all, from 1.
    pub fn frame(&self, k: usize) -> Option<Frame>
        ensures { result ≡ frame_at self.now k }
    {
        if k == 0 {
            return None;
        }
        let sent = self.sent.get(k - 1)?;
        happening::frame_told(&self.offices[sent.office.index()], sent.entry)
    }

    /// Which sessions finished, in finishing order. Each has the ticket that was answered when it was submitted, and those
    /// of an office rise. [`World::outcome`] tells how they ended.
    pub fn finished(&self) -> &[Finished]
        ensures listed { result.now ≡ map listed_as self.now.finished }
        ensures tickets { HaveTheirTickets self.now }
        ensures rise { TicketsRise self.now }
        ensures offices { TellsEachOffice self.now }
    {
        self.headline();
        self.finished.as_slice()
    }

    /// How the session ended that finished as the `i`-th of all, from 0.
    pub fn outcome(&self, i: usize) -> Option<&Outcome>
        ensures { option_copied result ≡ slice_get (outcomes self.now) i }
    {
        let finished = self.finished.get(i)?;
        let office = &self.offices[finished.office.index()];
        office.outcome(finished.ticket)
    }

    /// The value of a record: that of its bottle, which an office holds, or which is on the way.
    pub fn value_of(&self, r: RecordId) -> Value
        requires { r < length self.now.plan.records }
        ensures bottle { bottles_of self.now r ≡ result ∷ [] }
        ensures serial { result ≡ map_of (start_map self.now.plan) (programs self.now) r }
    {
        bottles_are_serial();
        let (a, b) = self.plan.ends(r);
        let first = &self.offices[a.index()];
        let second = &self.offices[b.index()];
        bottle_between(first, second, r).unwrap()
    }

    /// How many sessions were submitted, and have neither finished nor been withdrawn.
    pub fn unfinished(&self) -> usize
        ensures { result ≡ unfinished_in self.now }
    {
        let mut unfinished = 0;
        for office in &self.offices {
            unfinished += unfinished_at(office);
        }
        unfinished
    }

    /// What it does next, left to itself: the next rule of the least office that has one, or else the next message of the
    /// least office that has one, to the least neighbour; nothing only where no session is left. That is there to be done:
    /// the rule's guard holds, and the message waits, one past those that were taken. Precedence has no ring then.
    pub fn next_step(&self) -> NextStep
        ensures step { result ≡ next_step self.now }
        ensures stands { IsStep self.now result }
        ensures order { HasNoRing self.now.plan (tables_of (pairs_at self.now)) }
    {
        self.next_step_asking(&mut Resting::new())
    }

    /// The same, asking only the offices that aren't known to rest. What is known then is known of the world after the step.
    pub fn next_step_asking(&self, resting: &mut Resting) -> NextStep
        requires { RestIn self.now resting.old }
        ensures step { result ≡ next_step self.now }
        ensures stands { IsStep self.now result }
        ensures order { HasNoRing self.now.plan (tables_of (pairs_at self.now)) }
        ensures rest { RestAfter self.now result resting.new }
    {
        self.headline();
        let step = self.found_step(resting);
        next::wake(self, &step, resting);
        step
    }

    fn found_step(&self, resting: &mut Resting) -> NextStep
        requires { RestIn self.now resting.old }
        ensures step { result ≡ next_step self.now }
        ensures stands { IsStep self.now result }
        ensures rest { RestIn self.now resting.new }
    {
        never_stuck();
        // Steps hold rules, and the check finds that type of another crate by a local of it.
        let _rule: Option<Rule> = None;
        let _ = &self.plan;
        if self.unfinished() == 0 {
            return NextStep::AllFinished;
        }
        if let Some(rule) = next::next_of(self, Sought::Rule, resting) {
            return rule;
        }
        // A session is left, so where no rule is next a message is.
        next::next_of(self, Sought::Message, resting).unwrap_or(NextStep::AllFinished)
    }

    /// Where the message of that number, which is next for a neighbour, stands among those that wait for it, from 1.
    pub fn place_of(&self, from: OfficeId, to: OfficeId, number: u64) -> usize
        requires { IsNextMessage self.now from to number }
        ensures { result ≡ place_of self.now from to number }
    {
        // The plan is consistent, so neighbours are offices of it.
        let _ = self.plan().offices();
        let (first, _) = self.office(from).waiting(to).unwrap();
        number.saturating_sub(first - 1) as usize
    }
}

/// How many sessions of an office are current or wait.
fn unfinished_at(office: &Office) -> usize
    ensures sessions { result ≡ unfinished (office_of office.now).agenda }
    ensures few { result < 2 ^ 32 }
{
    // Their tickets rise, so they are no more than the tickets that were given.
    sessions_go_in_order();
    let _ = office.tickets();
    office.unfinished()
}

/// Whether it is want of memory.
fn is_memory(reply: &Result<Reply, WorldRefusal>) -> bool
    ensures { IsTrue result ↔ (reply.now ≡ Err (refusals.Office refused.Memory)) }
{
    matches!(reply, Err(WorldRefusal::Office(site_core::Refusal::Memory)))
}
