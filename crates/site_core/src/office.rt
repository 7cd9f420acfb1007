//! An office.

ghost use Rattle.std.specs.Prelude.{◌≡◌, ◌+◌, ◌<◌, ◌≤◌, Some, None, true, false, [], length, IfOk, IfSome, IfNone, if◌then◌else◌};
ghost use Rattle.std.specs.Option.{option_copied};
ghost use Rattle.office_journal.specs.declared.event.Event.TheVariants as events;
ghost use Rattle.office_map.specs.PlanValue.{are_neighbours, is_end, peer};
ghost use Rattle.token_channel.specs.declared.thing.Thing.TheVariants as things;
ghost use Rattle.token_channel.specs.Things.{count_carrying};
ghost use Rattle.token_channel.specs.WaitingBottle.{TellsBottle};
ghost use Rattle.site_core.specs.Limits.{most_entries};
ghost use Rattle.site_core.specs.agendas.Agenda.{unfinished};
ghost use Rattle.site_core.specs.Offices.{may};
ghost use Rattle.site_core.specs.RuleOrder.{next_rule, IsAtRest};
ghost use Rattle.site_core.specs.Readers.{outcome_with, waiting_on};
ghost use Rattle.site_core.specs.Journals.{office_of, IsLegal, Steps, TakesRead, Receives};

use crate::agendas::Agenda;
use crate::laws::{none_next_is_at_rest, sessions_go_in_order, what_is_read_is_received};
use crate::neighbours::Pairs;
use crate::{order, rules};
use bottle_values::Value;
use frame_codec::{Frame, FrameFault, decode};
use office_journal::{Event, Journal, Refusal, Reply, Rule, packing};
use office_map::{OfficeId, Plan, RecordId};
use session_meaning::Outcome;
use session_meaning::laws::values_fit;
use session_programs::Program;
use std::alloc::{AllocError, Global};
use std::marker::Model;
use token_channel::waiting_bottle;

/// An office of a plan: its pairs, its sessions, and all that it accepted.
///
/// The calls of its events are inlined: an answer has room for the longest frame, so it is made where it is told, and never
/// copied.
#[derive(Drop)]
pub struct Office {
    alloc: Global,
    pairs: Pairs,
    agenda: Agenda,
    journal: Journal,
}

impl Model for Office {
    ghost use Rattle.std.specs.Coded.{Coded, codes};
    ghost use Rattle.session_meaning.specs.declared.node.Node.{Node};
    ghost use Rattle.session_meaning.specs.refinement.TreeEncoding.{Mark, term_code, block_code};
    ghost use Rattle.site_core.specs.Journals.{Site};
    ghost use Rattle.site_core.specs.refinement.OfficeOfCode.{site_of, IsAtEnd};

    ghost Value = { Site };

    ghost coded = { let nodes : Coded Node = Prim.hlevel codes in let marks : Coded Mark = Prim.hlevel (codes, term_code nodes) in Prim.hlevel (codes, block_code marks) };

    ghost view = { λ o. site_of o.pairs o.journal.entries };

    ghost invariant = { λ o. IsAtEnd o.pairs o.agenda o.journal.entries };
}

impl Office {
    /// The office with that number as the plan starts it. It keeps a copy of the plan.
    pub fn open(alloc: Global, plan: &Plan, me: OfficeId) -> Result<Office, AllocError>
        requires { me < length plan.now.offices }
        ensures plan { IfOk result (λ o. o.plan ≡ plan.now) }
        ensures number { IfOk result (λ o. o.me ≡ me) }
        ensures empty { IfOk result (λ o. o.entries ≡ []) }
    {
        // The plan is consistent.
        let _ = plan.offices();
        let pairs = Pairs::open(alloc, plan, me)?;
        Ok(Office {
            alloc,
            pairs,
            agenda: Agenda::new(alloc),
            journal: Journal::new(alloc),
        })
    }

    /// Does a rule.
    ///
    /// # Errors
    /// `NotNow` where its guard is false, then `JournalFull`, then `Memory`. Nothing changed.
    #[inline(always)]
    pub fn act(&mut self, tag: u8, rule: Rule) -> Result<Reply, Refusal>
        requires { tag < 16 }
        ensures { Steps self.old tag (events.Do rule) result self.new }
    {
        let room = self.journal.make_room();
        if let Err(refusal) = room {
            let enabled = rules::may(&self.pairs, &self.agenda, &rule);
            return Err(rules::unless_guarded(enabled, refusal));
        }
        values_fit();
        rules::do_rule(self.alloc, &mut self.pairs, &mut self.agenda, &rule)?;
        let entry = packing::of_rule(tag, rule);
        self.journal.push(entry);
        Ok(Reply::Done)
    }

    /// Whether a rule may be done now.
    pub fn enabled(&self, rule: Rule) -> bool
        ensures { result ≡ may self.now.plan self.now.me (office_of self.now) rule }
    {
        rules::may(&self.pairs, &self.agenda, &rule)
    }

    /// Submits a session.
    ///
    /// # Errors
    /// `NotOurs`, then `QueueFull`, then `JournalFull`, then `Memory`. Nothing changed.
    #[inline(always)]
    pub fn submit(&mut self, tag: u8, program: &Program) -> Result<Reply, Refusal>
        requires { tag < 16 }
        ensures { Steps self.old tag (events.Submit program.now) result self.new }
    {
        if !rules::is_ours(&self.pairs, program) {
            return Err(Refusal::NotOurs);
        }
        if self.agenda.is_full() {
            return Err(Refusal::QueueFull);
        }
        self.journal.make_room()?;
        self.journal.make_room_for_program()?;
        let copy = program.copy()?;
        let ticket = self.agenda.submit(program)?;
        self.journal.push_session(tag, copy, ticket);
        Ok(Reply::Ticket(ticket))
    }

    /// Withdraws the session with that ticket, which waits, or waits for its bottles. It is neither finished nor unfinished then.
    ///
    /// # Errors
    /// `NotNow` where no session with that ticket waits, and the current one isn't that or drinks; then `JournalFull`, then
    /// `Memory`. Nothing changed.
    #[inline(always)]
    pub fn withdraw(&mut self, tag: u8, ticket: u32) -> Result<Reply, Refusal>
        requires { tag < 16 }
        ensures { Steps self.old tag (events.Withdraw ticket) result self.new }
    {
        let room = self.journal.make_room();
        if let Err(refusal) = room {
            let withdrawable = rules::may_withdraw(&self.pairs, &self.agenda, ticket);
            return Err(rules::unless_guarded(withdrawable, refusal));
        }
        rules::withdraw(&mut self.pairs, &mut self.agenda, ticket)?;
        let entry = packing::of_withdrawal(tag, ticket);
        self.journal.push(entry);
        Ok(Reply::Done)
    }

    /// Makes a frame for a neighbour: of the `i`-th message that waits for it, from 1, or with 0 of the count alone.
    ///
    /// # Errors
    /// `NotNow` where there is no such neighbour or message, then `JournalFull`, then `Memory`. Nothing changed.
    #[inline(always)]
    pub fn send(&mut self, tag: u8, v: OfficeId, i: usize) -> Result<Reply, Refusal>
        requires { tag < 16 }
        ensures { Steps self.old tag (events.Send v i) result self.new }
    {
        let Some(frame) = self.pairs.frame(v, i) else {
            return Err(Refusal::NotNow);
        };
        self.journal.make_room()?;
        self.journal.make_room_for_text(&frame)?;
        self.journal.push_sent(tag, v, i, &frame);
        Ok(Reply::Frame(frame))
    }

    /// Takes in a frame that comes.
    ///
    /// # Errors
    /// What the channel to its sender refuses, or `Stranger` where that is no neighbour; then `JournalFull`, then
    /// `Memory`. Nothing changed.
    #[inline(always)]
    pub fn take(&mut self, tag: u8, frame: &Frame) -> Result<Reply, Refusal>
        requires { tag < 16 }
        ensures { Steps self.old tag (events.Took frame.now) result self.new }
    {
        let checked = self.pairs.check(frame);
        if let Err(fault) = checked {
            return Err(Refusal::Channel(fault));
        }
        self.journal.make_room()?;
        self.journal.make_room_for_text(frame)?;
        // A frame carries what its version can.
        let _ = frame.msg();
        let arrival = self.pairs.take(frame);
        self.journal.push_arrival(tag, frame, &arrival);
        Ok(Reply::to(&arrival))
    }

    /// Takes in what was read of bytes that come: a frame, or what is wrong with them.
    ///
    /// # Errors
    /// What is wrong with them; else as [`Office::take`].
    pub fn take_read(&mut self, tag: u8, read: &Result<Frame, FrameFault>) -> Result<Reply, Refusal>
        requires { tag < 16 }
        ensures { TakesRead self.old tag read.now result self.new }
    {
        match read {
            Ok(frame) => self.take(tag, frame),
            Err(fault) => Err(Refusal::Frame(*fault)),
        }
    }

    /// Takes in bytes that come.
    ///
    /// One relation of three parts tells of bytes (`Receives`): what the frame that they spell does, what is said of
    /// bytes that are no frame, and which entry is there afterwards. So who hands in bytes needs no law to know what
    /// was noted.
    ///
    /// # Errors
    /// What is wrong with bytes that are no frame; else as [`Office::take`].
    pub fn receive(&mut self, tag: u8, bytes: &[u8]) -> Result<Reply, Refusal>
        requires { tag < 16 }
        ensures { Receives self.old tag bytes.now result self.new }
    {
        what_is_read_is_received();
        let read = decode(bytes);
        self.take_read(tag, &read)
    }

    /// Any event.
    ///
    /// # Errors
    /// As [`Office::submit`], [`Office::act`], [`Office::send`], [`Office::take`] and [`Office::withdraw`].
    pub fn step(&mut self, tag: u8, event: &Event) -> Result<Reply, Refusal>
        requires { tag < 16 }
        ensures { Steps self.old tag event.now result self.new }
    {
        match event {
            Event::Submit(program) => self.submit(tag, program),
            Event::Do(rule) => self.act(tag, *rule),
            Event::Send(v, i) => self.send(tag, *v, *i),
            Event::Took(frame) => self.take(tag, frame),
            Event::Withdraw(ticket) => self.withdraw(tag, *ticket),
        }
    }

    /// The plan.
    pub fn plan(&self) -> &Plan
        ensures { result.now ≡ self.now.plan }
    {
        self.pairs.plan()
    }

    /// The office's number.
    pub fn number(&self) -> OfficeId
        ensures { result ≡ self.now.me }
    {
        self.pairs.me()
    }

    /// All that it accepted.
    pub fn journal(&self) -> &Journal
        ensures entries { result.now.entries ≡ self.now.entries }
        ensures legal { IsLegal self.now }
        ensures few { length result.now.entries ≤ most_entries }
    {
        let _ = &self.pairs;
        &self.journal
    }

    /// How the sessions ended that finished, in finishing order.
    pub fn outcomes(&self) -> &[Outcome]
        ensures { result.now ≡ (office_of self.now).agenda.outcomes }
    {
        self.agenda.outcomes()
    }

    /// How the session with that ticket ended; none where it hasn't finished, or was withdrawn. Tickets have gaps, so no place is
    /// reckoned from the number: it is looked for, by halving.
    pub fn outcome(&self, ticket: u32) -> Option<&Outcome>
        ensures { option_copied result ≡ outcome_with (office_of self.now).agenda.outcomes ticket }
    {
        sessions_go_in_order();
        let outcomes = self.outcomes();
        match outcomes.binary_search_by_key(&ticket, |outcome| outcome.ticket) {
            Ok(i) => outcomes.get(i),
            Err(_) => None,
        }
    }

    /// How many sessions were submitted, and have neither finished nor been withdrawn.
    pub fn unfinished(&self) -> usize
        ensures { result ≡ unfinished (office_of self.now).agenda }
    {
        self.agenda.unfinished()
    }

    /// How many sessions were submitted.
    pub fn tickets(&self) -> u32
        ensures { result ≡ (office_of self.now).agenda.tickets }
    {
        self.agenda.tickets()
    }

    /// The number of the first message that waits for a neighbour, if one waits, which is one more than the count that is
    /// known to be taken; and how many wait, at most 18.
    pub fn waiting(&self, v: OfficeId) -> Option<(u64, usize)>
        ensures waiting { result ≡ (if are_neighbours self.now.plan self.now.me v then Some (waiting_on ((office_of self.now).pairs.link v)) else None) }
        ensures few { IfSome result (λ w. w.1 ≤ 18) }
        ensures range { IfSome result (λ w. w.0 + w.1 ≤ most_entries + 1) }
    {
        let channel = self.pairs.channel(v)?;
        Some((channel.acked() + 1, channel.waiting().len()))
    }

    /// How many messages of a neighbour were taken.
    pub fn taken(&self, v: OfficeId) -> Option<u64>
        ensures { result ≡ (if are_neighbours self.now.plan self.now.me v then Some ((office_of self.now).pairs.link v).receiving.taken else None) }
    {
        let channel = self.pairs.channel(v)?;
        Some(channel.taken())
    }

    /// The value of a record's bottle, if that is here.
    pub fn held_value(&self, r: RecordId) -> Option<Value>
        ensures { result ≡ (office_of self.now).pairs.drinker.bottle r }
    {
        self.pairs.bar().value(r)
    }

    /// The number and the value of the message with a record's bottle that waits for the record's other end, if one waits.
    pub fn waiting_value(&self, r: RecordId) -> Option<(u64, Value)>
        ensures told { is_end self.now.plan r self.now.me ≡ true → TellsBottle ((office_of self.now).pairs.link (peer self.now.plan self.now.me r)) r result }
        ensures once { is_end self.now.plan r self.now.me ≡ true → count_carrying (things.Bottle r) ((office_of self.now).pairs.link (peer self.now.plan self.now.me r)).sending.waiting ≤ 1 }
        ensures of_others { is_end self.now.plan r self.now.me ≡ false → result ≡ None }
    {
        waiting_bottle(self.pairs.channel_of(r)?, r)
    }

    /// The rule that the office does next, left to itself: the first that may be done, in the order of `rules_in_order`.
    /// None only where no rule may be done, of whatever neighbour or record, and with a piece of whatever size.
    pub fn next_rule(&self) -> Option<Rule>
        ensures first { result ≡ next_rule self.now.plan self.now.me (office_of self.now) }
        ensures none { IfNone result (IsAtRest self.now.plan self.now.me (office_of self.now)) }
    {
        none_next_is_at_rest();
        // The plan is consistent.
        let _ = self.plan().offices();
        order::next_rule(&self.pairs, &self.agenda)
    }
}
