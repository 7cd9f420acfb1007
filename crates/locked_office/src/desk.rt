//! The desk of an office.

ghost use Rattle.std.specs.Prelude.{◌≡◌, ◌≢◌, ◌+◌, ◌<◌, ◌≤◌, ◌↔◌, IsTrue, false, None, [], IfOk, IfErr, IfSome, OnErr, take, drop};
ghost use mathlib.Core.List.{IsPrefix};
ghost use Rattle.own_lock.specs.Entries.{longer, tagged};
ghost use Rattle.own_lock.specs.Passes.{IsOf, AreFresh, AreIdle};
ghost use Rattle.office_journal.specs.declared.event.Event.TheVariants as events;
ghost use Rattle.site_core.specs.Journals.{IsLegal, Steps, TakesRead, Receives};
ghost use Rattle.site_core.specs.Limits.{most_entries};
ghost use Rattle.locked_office.specs.Calls.{Stays, Does, Looks, tag_of, office_with};
ghost use Rattle.locked_office.specs.Advance.{Advances};
ghost use Rattle.locked_office.specs.Outcomes.{outcome_of, waiting_for};
ghost use Rattle.locked_office.specs.Sends.{SomeWaits, SendsNumber};
ghost use Rattle.locked_office.specs.refinement.Holding.{Holds, Came};

use crate::advance::Stopped;
use crate::calls;
use frame_codec::{Frame, FrameFault, decode};
use office_map::OfficeId;
use own_lock::{Busy, Held, OwnLock, Pass};
use session_meaning::Outcome;
use session_programs::Program;
use site_core::laws::what_is_read_is_received;
use site_core::{Entry, Office, Refusal, Reply};
use std::alloc::{AllocError, Global};
use std::marker::Model;
use std::sync::Wait;

/// An office that several passes share. Contracts see which lock it is under, and the office's plan and number.
#[derive(Drop)]
pub struct Desk {
    alloc: Global,
    lock: OwnLock<Office>,
}

impl Model for Desk {
    ghost use Rattle.own_lock.specs.Passes.{LockView};
    ghost use Rattle.locked_office.specs.Calls.{Key};

    ghost Value = { LockView Key };

    ghost view = { λ d. d.lock };
}

impl Desk {
    /// A desk of this office, and 1 to 16 passes with the tags from 0 on, which have seen the office's journal.
    ///
    /// # Errors
    /// Where memory runs out, the office is dropped.
    pub fn open(
        alloc: Global,
        office: Office,
        passes: u8,
    ) -> Result<(Desk, Vec<Pass<Office>>), AllocError>
        requires some { 0 < passes }
        requires few { passes ≤ 16 }
        ensures key { IfOk result (λ r. r.0.key ≡ (office.plan, office.me)) }
        ensures fresh { IfOk result (λ r. AreFresh r.0 tag_of office.entries passes r.1.items) }
        ensures idle { IfOk result (λ r. AreIdle r.0 r.1.items) }
        ensures legal { IsLegal office }
    {
        // Its journal is legal.
        let _ = office.journal();
        let (lock, all) = OwnLock::open(alloc, office, passes)?;
        Ok((Desk { alloc, lock }, all))
    }

    /// The lock, to take the office oneself.
    pub fn lock(&self) -> &OwnLock<Office>
        ensures { result.now ≡ self.now }
    {
        &self.lock
    }

    /// Ends the desk, and gives its office. There is none where a pass holds it.
    pub fn close(self, pass: Pass<Office>) -> Option<Office>
        requires of { IsOf self pass }
        ensures legal { IfSome result IsLegal }
        ensures key { IfSome result (λ o. (o.plan, o.me) ≡ self.key) }
        ensures begins { IfSome result (λ o. IsPrefix pass.seen o.entries) }
        ensures mine { IfSome result (λ o. tagged tag_of pass.tag o.entries ≡ pass.mine) }
    {
        let Desk { alloc: _, lock } = self;
        lock.close(pass)
    }

    /// The second pass learns what the first one has seen: one of them has seen the beginning of what the other has, and the
    /// longer journal is the second one's now. The first one is given up.
    pub fn meet(&self, first: Pass<Office>, second: &mut Pass<Office>)
        requires first_of { IsOf self.now first }
        requires second_of { IsOf self.now second.old }
        requires first_idle { first.holds ≡ false }
        requires second_idle { second.old.holds ≡ false }
        ensures seen { second.new ≡ record second.old { seen = longer second.old.seen first.seen } }
        ensures stays { Stays self.now second.old second.new }
        ensures first { IsPrefix first.seen second.new.seen }
        ensures second { IsPrefix second.old.seen second.new.seen }
        ensures first_mine { tagged tag_of first.tag second.new.seen ≡ first.mine }
        ensures mine { tagged tag_of second.old.tag second.new.seen ≡ second.old.mine }
        ensures legal { IsLegal (office_with self.now.key first.seen) → IsLegal (office_with self.now.key second.old.seen) → IsLegal (office_with self.now.key second.new.seen) }
    {
        self.lock.meet(first, second);
    }

    // Goes by `OwnLock::take`, which tries again and then parks: nothing here knows of it.
    fn hold<R: Wait>(&self, rt: &R, pass: &mut Pass<Office>) -> Held<Office>
        requires of { IsOf self.now pass.old }
        requires idle { pass.old.holds ≡ false }
        ensures holds { Holds self.now pass.new result }
        ensures came { Came pass.old pass.new }
    {
        self.lock.take(rt, pass)
    }

    fn try_hold(&self, pass: &mut Pass<Office>) -> Result<Held<Office>, Busy>
        requires of { IsOf self.now pass.old }
        requires idle { pass.old.holds ≡ false }
        ensures holds { IfOk result (λ held. Holds self.now pass.new held) }
        ensures came { IfOk result (λ _. Came pass.old pass.new) }
        ensures busy { IfErr result (λ _. pass.new ≡ pass.old) }
    {
        self.lock.try_take(pass)
    }

    /// Submits a session.
    ///
    /// # Errors
    /// As [`Office::submit`].
    pub fn submit<R: Wait>(
        &self,
        rt: &R,
        pass: &mut Pass<Office>,
        program: &Program,
    ) -> Result<Reply, Refusal>
        requires of { IsOf self.now pass.old }
        requires idle { pass.old.holds ≡ false }
        ensures stays { Stays self.now pass.old pass.new }
        ensures submitted { Does (λ s s'. Steps s pass.old.tag (events.Submit program.now) result s') self.now.key pass.old pass.new }
    {
        let held = self.hold(rt, pass);
        calls::submit(&self.lock, pass, held, program)
    }

    /// Submits a session, if no other pass has the office.
    ///
    /// A refusal and `Busy` are two layers: what an office refuses stays its own type, and a caller that tries again
    /// looks at one of them.
    ///
    /// # Errors
    /// `Busy` where another pass has it. Nothing changed.
    pub fn try_submit(
        &self,
        pass: &mut Pass<Office>,
        program: &Program,
    ) -> Result<Result<Reply, Refusal>, Busy>
        requires of { IsOf self.now pass.old }
        requires idle { pass.old.holds ≡ false }
        ensures stays { Stays self.now pass.old pass.new }
        ensures submitted { IfOk result (λ answer. Does (λ s s'. Steps s pass.old.tag (events.Submit program.now) answer s') self.now.key pass.old pass.new) }
        ensures busy { IfErr result (λ _. pass.new ≡ pass.old) }
    {
        let held = self.try_hold(pass)?;
        Ok(calls::submit(&self.lock, pass, held, program))
    }

    /// Withdraws the session with that ticket.
    ///
    /// # Errors
    /// As [`Office::withdraw`].
    pub fn withdraw<R: Wait>(
        &self,
        rt: &R,
        pass: &mut Pass<Office>,
        ticket: u32,
    ) -> Result<Reply, Refusal>
        requires of { IsOf self.now pass.old }
        requires idle { pass.old.holds ≡ false }
        ensures stays { Stays self.now pass.old pass.new }
        ensures withdrawn { Does (λ s s'. Steps s pass.old.tag (events.Withdraw ticket) result s') self.now.key pass.old pass.new }
    {
        let held = self.hold(rt, pass);
        calls::withdraw(&self.lock, pass, held, ticket)
    }

    /// Withdraws the session with that ticket, if no other pass has the office.
    ///
    /// # Errors
    /// `Busy` where another pass has it. Nothing changed.
    pub fn try_withdraw(
        &self,
        pass: &mut Pass<Office>,
        ticket: u32,
    ) -> Result<Result<Reply, Refusal>, Busy>
        requires of { IsOf self.now pass.old }
        requires idle { pass.old.holds ≡ false }
        ensures stays { Stays self.now pass.old pass.new }
        ensures withdrawn { IfOk result (λ answer. Does (λ s s'. Steps s pass.old.tag (events.Withdraw ticket) answer s') self.now.key pass.old pass.new) }
        ensures busy { IfErr result (λ _. pass.new ≡ pass.old) }
    {
        let held = self.try_hold(pass)?;
        Ok(calls::withdraw(&self.lock, pass, held, ticket))
    }

    /// Takes in bytes that come.
    ///
    /// # Errors
    /// As [`Office::receive`].
    pub fn took<R: Wait>(
        &self,
        rt: &R,
        pass: &mut Pass<Office>,
        bytes: &[u8],
    ) -> Result<Reply, Refusal>
        requires of { IsOf self.now pass.old }
        requires idle { pass.old.holds ≡ false }
        ensures stays { Stays self.now pass.old pass.new }
        ensures taken { Does (λ s s'. Receives s pass.old.tag bytes.now result s') self.now.key pass.old pass.new }
    {
        what_is_read_is_received();
        let read = decode(bytes);
        self.take_read(rt, pass, &read)
    }

    /// Takes in what was read of bytes that come, as [`Desk::took`] does with the bytes.
    ///
    /// # Errors
    /// As [`Office::take_read`].
    pub fn take_read<R: Wait>(
        &self,
        rt: &R,
        pass: &mut Pass<Office>,
        read: &Result<Frame, FrameFault>,
    ) -> Result<Reply, Refusal>
        requires of { IsOf self.now pass.old }
        requires idle { pass.old.holds ≡ false }
        ensures stays { Stays self.now pass.old pass.new }
        ensures taken { Does (λ s s'. TakesRead s pass.old.tag read.now result s') self.now.key pass.old pass.new }
    {
        let held = self.hold(rt, pass);
        calls::take_read(&self.lock, pass, held, read)
    }

    /// Takes in bytes that come, if no other pass has the office.
    ///
    /// # Errors
    /// `Busy` where another pass has it. Nothing changed.
    pub fn try_took(
        &self,
        pass: &mut Pass<Office>,
        bytes: &[u8],
    ) -> Result<Result<Reply, Refusal>, Busy>
        requires of { IsOf self.now pass.old }
        requires idle { pass.old.holds ≡ false }
        ensures stays { Stays self.now pass.old pass.new }
        ensures taken { IfOk result (λ answer. Does (λ s s'. Receives s pass.old.tag bytes.now answer s') self.now.key pass.old pass.new) }
        ensures busy { IfErr result (λ _. pass.new ≡ pass.old) }
    {
        what_is_read_is_received();
        let read = decode(bytes);
        let held = self.try_hold(pass)?;
        Ok(calls::take_read(&self.lock, pass, held, &read))
    }

    /// Makes a frame for a neighbour: of the `i`-th message that waits for it, from 1, or with 0 of the count alone.
    ///
    /// # Errors
    /// As [`Office::send`].
    pub fn send<R: Wait>(
        &self,
        rt: &R,
        pass: &mut Pass<Office>,
        v: OfficeId,
        i: usize,
    ) -> Result<Reply, Refusal>
        requires of { IsOf self.now pass.old }
        requires idle { pass.old.holds ≡ false }
        ensures stays { Stays self.now pass.old pass.new }
        ensures sent { Does (λ s s'. Steps s pass.old.tag (events.Send v i) result s') self.now.key pass.old pass.new }
    {
        let held = self.hold(rt, pass);
        calls::send(&self.lock, pass, held, v, i)
    }

    /// Makes a frame of the message with that number; none where no such message waits for that neighbour, or it is no neighbour.
    ///
    /// It is found and sent under one holding. Between `waiting` and `send` another pass may take an acknowledgement,
    /// and then the i-th message that waits is another one.
    ///
    /// # Errors
    /// `JournalFull` or `Memory`, where there is no room for the entry. Nothing changed.
    pub fn send_number<R: Wait>(
        &self,
        rt: &R,
        pass: &mut Pass<Office>,
        v: OfficeId,
        number: u64,
    ) -> Result<Option<Frame>, Refusal>
        requires of { IsOf self.now pass.old }
        requires idle { pass.old.holds ≡ false }
        ensures stays { Stays self.now pass.old pass.new }
        ensures sent { Does (λ s s'. SendsNumber pass.old.tag v number result s s') self.now.key pass.old pass.new }
    {
        let held = self.hold(rt, pass);
        calls::send_number(&self.lock, pass, held, v, number)
    }

    /// At most so many rules, each the one that comes next, beside each other; and how many they were. Fewer only where no rule
    /// comes next any more.
    ///
    /// # Errors
    /// Where there is no room for the entry of the rule that comes next, `JournalFull` or `Memory`: what was done before
    /// stands.
    pub fn advance<R: Wait>(
        &self,
        rt: &R,
        pass: &mut Pass<Office>,
        most: u32,
    ) -> Result<u32, Stopped>
        requires of { IsOf self.now pass.old }
        requires idle { pass.old.holds ≡ false }
        ensures stays { Stays self.now pass.old pass.new }
        ensures advanced { Does (λ s s'. Advances pass.old.tag most result s s') self.now.key pass.old pass.new }
    {
        let held = self.hold(rt, pass);
        calls::advance(&self.lock, pass, held, most)
    }

    /// How the session with that ticket ended; none where it hasn't finished or was withdrawn, and then no memory is taken.
    ///
    /// Want of memory for a copy is `AllocError`, as of [`Desk::journal_part`]: no refusal of the office can come of a
    /// question.
    pub fn outcome<R: Wait>(
        &self,
        rt: &R,
        pass: &mut Pass<Office>,
        ticket: u32,
    ) -> Result<Option<Outcome>, AllocError>
        requires of { IsOf self.now pass.old }
        requires idle { pass.old.holds ≡ false }
        ensures stays { Stays self.now pass.old pass.new }
        ensures looked { Looks self.now.key pass.old pass.new }
        ensures outcome { IfOk result (λ o. o ≡ outcome_of (office_with self.now.key pass.new.seen) ticket) }
        ensures memory { OnErr result (outcome_of (office_with self.now.key pass.new.seen) ticket ≢ None) }
    {
        let held = self.hold(rt, pass);
        calls::outcome(&self.lock, pass, held, self.alloc, ticket)
    }

    /// How the session with that ticket ended, if no other pass has the office.
    ///
    /// # Errors
    /// `Busy` where another pass has it. Nothing changed.
    pub fn try_outcome(
        &self,
        pass: &mut Pass<Office>,
        ticket: u32,
    ) -> Result<Result<Option<Outcome>, AllocError>, Busy>
        requires of { IsOf self.now pass.old }
        requires idle { pass.old.holds ≡ false }
        ensures stays { Stays self.now pass.old pass.new }
        ensures looked { IfOk result (λ _. Looks self.now.key pass.old pass.new) }
        ensures outcome { IfOk result (λ answer. IfOk answer (λ o. o ≡ outcome_of (office_with self.now.key pass.new.seen) ticket)) }
        ensures memory { IfOk result (λ answer. OnErr answer (outcome_of (office_with self.now.key pass.new.seen) ticket ≢ None)) }
        ensures busy { IfErr result (λ _. pass.new ≡ pass.old) }
    {
        let held = self.try_hold(pass)?;
        Ok(calls::outcome(&self.lock, pass, held, self.alloc, ticket))
    }

    /// The number of the first message that waits for a neighbour, if one waits, which is one more than the count that is known
    /// to be taken; and how many wait, at most 18.
    ///
    /// # Errors
    /// `NotNow` where it is no neighbour.
    pub fn waiting<R: Wait>(
        &self,
        rt: &R,
        pass: &mut Pass<Office>,
        v: OfficeId,
    ) -> Result<(u64, usize), Refusal>
        requires of { IsOf self.now pass.old }
        requires idle { pass.old.holds ≡ false }
        ensures stays { Stays self.now pass.old pass.new }
        ensures looked { Looks self.now.key pass.old pass.new }
        ensures waiting { result ≡ waiting_for (office_with self.now.key pass.new.seen) v }
        ensures few { IfOk result (λ w. w.1 ≤ 18) }
        ensures range { IfOk result (λ w. w.0 + w.1 ≤ most_entries + 1) }
    {
        let held = self.hold(rt, pass);
        calls::waiting(&self.lock, pass, held, v)
    }

    /// Whether a message waits, for whichever neighbour.
    pub fn some_waits<R: Wait>(&self, rt: &R, pass: &mut Pass<Office>) -> bool
        requires of { IsOf self.now pass.old }
        requires idle { pass.old.holds ≡ false }
        ensures stays { Stays self.now pass.old pass.new }
        ensures looked { Looks self.now.key pass.old pass.new }
        ensures waits { IsTrue result ↔ SomeWaits (office_with self.now.key pass.new.seen) }
    {
        let held = self.hold(rt, pass);
        calls::some_waits(&self.lock, pass, held)
    }

    /// Copies of the first so many entries of the journal from this place on, from 0; of fewer where it ends before. Where there
    /// is none, no memory is taken.
    pub fn journal_part<R: Wait>(
        &self,
        rt: &R,
        pass: &mut Pass<Office>,
        from: usize,
        most: usize,
    ) -> Result<Vec<Entry>, AllocError>
        requires of { IsOf self.now pass.old }
        requires idle { pass.old.holds ≡ false }
        ensures stays { Stays self.now pass.old pass.new }
        ensures looked { Looks self.now.key pass.old pass.new }
        ensures part { IfOk result (λ v. v.items ≡ take most (drop from pass.new.seen)) }
        ensures memory { OnErr result (take most (drop from pass.new.seen) ≢ []) }
    {
        let held = self.hold(rt, pass);
        calls::journal_part(&self.lock, pass, held, self.alloc, from, most)
    }
}
