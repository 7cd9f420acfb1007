//! An office that follows its journal.

ghost use Rattle.std.specs.Prelude.{◌≡◌, ◌<◌, ◌^◌, ◌++◌, ◌∷◌, [], ℕ, List, Bool, true, false, Some, None, MatchOption, is_some, length, slice_get, IfOk, IfSome, IfNone, OnOk, IsTrue, ◌↔◌, option_map};
ghost use Rattle.std.specs.Option.{option_and_then};
ghost use Rattle.frame_codec.specs.Frame.{Fields};
ghost use Rattle.office_map.specs.PlanValue.{PlanValue};
ghost use Rattle.office_journal.specs.Shown.{entry_shown, frame_taken, IsPart};
ghost use Rattle.office_journal.specs.declared.event.Entry.{Entry};
ghost use Rattle.office_journal.specs.declared.event.Event.TheVariants as events;
ghost use Rattle.frame_world.specs.Sent.{told_in};
ghost use Rattle.journal_weave.specs.Replays.{given, IsReplay};

use crate::given::GivenJournal;
use crate::stop::Stop;
use frame_codec::Frame;
use office_map::{OfficeId, Plan};
use site_core::{Entry, EntryRef, Event, EventPart, Office, gives};
use std::alloc::{AllocError, Global};
use std::marker::Model;

/// An office that gave the first entries of its journal, each with its reply, as far as it gives them; and what comes there.
///
/// Each journal is replayed by itself before any is merged. A world that is driven along the journals would have taken
/// a step by the time that its reply turns out to be another than the told one, and the other offices have to go on all
/// the same, since how far they come decides which entry is named. The entries that an office gave are in its journal, so they
/// stand nowhere else.
#[derive(Drop)]
pub struct Replay {
    office: Office,
    stop: Option<Stop>,
}

impl Model for Replay {
    ghost use Rattle.std.specs.Coded.{Coded, codes};
    ghost use Rattle.session_meaning.specs.declared.node.Node.{Node};
    ghost use Rattle.session_meaning.specs.refinement.TreeEncoding.{Mark, term_code, block_code};
    ghost use Rattle.journal_weave.specs.ReplayValue.{ReplayValue};

    ghost Value = { ReplayValue };

    ghost coded = { let nodes : Coded Node = Prim.hlevel codes in let marks : Coded Mark = Prim.hlevel (codes, term_code nodes) in Prim.hlevel (codes, block_code marks) };

    ghost use Rattle.std.specs.Prelude.{◌≤◌, length};
    ghost use Rattle.journal_weave.specs.Replays.{given};

    ghost view = { λ r. record { site = r.office; stop = r.stop } };

    ghost invariant = { λ r. given (record { site = r.office; stop = r.stop }) ≤ length r.office.entries };
}

impl Replay {
    /// Before the first entry.
    pub fn open(alloc: Global, plan: &Plan, me: OfficeId) -> Result<Replay, AllocError>
        requires { me < length plan.now.offices }
        ensures { IfOk result (IsReplay plan.now me [] true) }
    {
        let office = Office::open(alloc, plan, me)?;
        Ok(Replay { office, stop: None })
    }

    /// The next entry. Once the office gave one otherwise it takes no step more.
    #[tactic(auto, using(crate::proofs::Replaying::few_none, crate::proofs::Replaying::few_kept))]
    pub fn add(&mut self, entry: &Entry) -> Result<(), AllocError>
        ensures { OnOk result ((plan : PlanValue) (a : ℕ) (entries : List Entry) → IsReplay plan a entries true self.old → IsReplay plan a (entries ++ entry.now ∷ []) true self.new) }
    {
        if self.stop.is_some() {
            return Ok(());
        }
        let given = self.office.journal().len();
        if gives(&mut self.office, 0, entry)? {
            return Ok(());
        }
        self.stop = Some(Stop {
            given,
            takes: taken_by(&entry.event),
        });
        Ok(())
    }

    /// Something that is no entry of any office: no entry comes after it.
    pub fn end(&mut self)
        ensures { (plan : PlanValue) (a : ℕ) (entries : List Entry) → IsReplay plan a entries true self.old → IsReplay plan a entries false self.new }
    {
        if self.stop.is_none() {
            let given = self.office.journal().len();
            self.stop = Some(Stop { given, takes: None });
        }
    }

    /// The office's number.
    pub fn number(&self) -> OfficeId
        ensures { result ≡ self.now.site.me }
    {
        self.office.number()
    }

    /// How many entries the office gave.
    pub(crate) fn given(&self) -> usize
        ensures count { result ≡ given self.now }
        ensures few { result < 2 ^ 32 }
    {
        let all = self.office.journal().len();
        match &self.stop {
            None => all,
            Some(stop) => stop.given,
        }
    }

    /// The entry at this place, from 0, of those that it gave.
    pub(crate) fn entry(&self, i: usize) -> Option<EntryRef<'_>>
        ensures { option_map entry_shown result ≡ slice_get self.now.site.entries i }
    {
        self.office.journal().get(i)
    }

    /// What the event of that entry is but for the frame that came, if the entry is there.
    pub(crate) fn event_part(&self, i: usize) -> Option<EventPart<'_>>
        ensures { MatchOption result (slice_get self.now.site.entries i ≡ None) (λ part. (entry : Entry) × (slice_get self.now.site.entries i ≡ Some entry) × IsPart part entry.event) }
    {
        self.office.journal().event_part(i)
    }

    /// The frame that came by the entry at this place, from 0, if it is there and one came.
    pub(crate) fn frame_taken(&self, i: usize) -> Option<Frame>
        ensures { result ≡ option_and_then (λ entry. frame_taken entry.event) (slice_get self.now.site.entries i) }
    {
        self.office.journal().frame_taken(i)
    }

    /// The frame that the entry at this place, from 0, tells in its reply, if it is there and tells one.
    pub(crate) fn frame_told(&self, i: usize) -> Option<Frame>
        ensures { result ≡ told_in self.now.site.entries i }
    {
        self.office.journal().frame_told(i)
    }

    /// Where it doesn't follow its journal, if that is somewhere.
    pub(crate) fn stop(&self) -> Option<Stop>
        ensures { result ≡ self.now.stop }
    {
        self.stop
    }

    /// The office.
    pub fn into_office(self) -> Office
        ensures { result ≡ self.site }
    {
        self.office
    }
}

/// The office of that number follows its journal.
pub(crate) fn replayed(
    alloc: Global,
    plan: &Plan,
    me: OfficeId,
    journal: &GivenJournal,
) -> Result<Replay, AllocError>
    requires { me < length plan.now.offices }
    ensures { IfOk result (IsReplay plan.now me journal.now.entries.items journal.now.ends) }
{
    let mut replay = Replay::open(alloc, plan, me)?;
    follow(&mut replay, &journal.entries)?;
    if journal.ends {
        return Ok(replay);
    }
    replay.end();
    Ok(replay)
}

/// These entries come, one after the other.
fn follow(replay: &mut Replay, entries: &[Entry]) -> Result<(), AllocError>
    ensures { OnOk result ((plan : PlanValue) (a : ℕ) → IsReplay plan a [] true replay.old → IsReplay plan a entries.now true replay.new) }
{
    for entry in entries {
        replay.add(entry)?;
    }
    Ok(())
}

/// The frame that an event takes, if it does.
fn taken_by(event: &Event) -> Option<Frame>
    ensures takes { IfSome result (λ f. event.now ≡ events.Took f) }
    ensures none { IfNone result ((f : Fields) → event.now ≡ events.Took f → ⊥) }
{
    match event {
        Event::Took(frame) => Some(*frame),
        _ => None,
    }
}
