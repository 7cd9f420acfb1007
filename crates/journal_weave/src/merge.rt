//! Merging of what offices gave.

ghost use Rattle.std.specs.Prelude.{◌≡◌, ◌+◌, ◌<◌, ◌≤◌, ◌^◌, ◌++◌, ◌∷◌, [], ℕ, List, Some, length, sum, get_or, set, slice_get, IfOk, IfSome, IfNone, OnOk, option_to_list};
ghost use Rattle.office_map.specs.PlanValue.{PlanValue};
ghost use Rattle.frame_codec.specs.Frame.{Fields};
ghost use Rattle.office_journal.specs.Shown.{IsPart};
ghost use Rattle.office_journal.specs.declared.event.Entry.{Entry};
ghost use Rattle.office_journal.specs.declared.event.Event.TheVariants as events;
ghost use Rattle.frame_world.specs.declared.event.WorldEvent.{WorldEvent};
ghost use Rattle.journal_weave.specs.Replays.{given};
ghost use Rattle.journal_weave.specs.ReplayValue.{ReplayValue};
ghost use Rattle.journal_weave.specs.refinement.Merging.{Knows, told_by, IsFound, GoesNext, AddsEvent, IsMerged, IsStuck, IsWithin, StuckAt};

use crate::key::FrameKey;
use crate::replay::Replay;
use crate::sent::SentFrames;
use frame_codec::Frame;
use frame_world::{SentAt, WorldEvent};
use office_map::OfficeId;
use site_core::EventPart;
use std::alloc::{AllocError, Global};

/// How far a schedule of beginnings of journals is. It is told event by event ([`Merge::next`]), and kept by whoever asks.
///
/// The offices go on in turn, in order of number, each as far as it can.
#[derive(Drop)]
pub(crate) struct Merge {
    /// How many entries of each office it has. A journal takes no more than these count.
    at: Vec<u32>,
    /// The frames that it sends.
    sent: SentFrames,
    /// Whose turn it is.
    turn: usize,
}

impl Merge {
    /// Before the first event, of so many offices.
    pub(crate) fn new(alloc: Global, offices: usize) -> Result<Merge, AllocError>
        ensures size { IfOk result (λ m. length m.at.items ≡ offices) }
        ensures turn { IfOk result (λ m. m.turn ≤ offices) }
        ensures within { IfOk result (λ m. (rs : List ReplayValue) → IsWithin rs m) }
        ensures merged { IfOk result (λ m. (rs : List ReplayValue) (plan : PlanValue) (told : ℕ → List Entry) → IsMerged ⟦<FrameKey as Ord>⟧.cmp rs plan told m []) }
    {
        Ok(Merge {
            at: vec![in alloc; 0; offices]?,
            sent: SentFrames::new(alloc),
            turn: 0,
        })
    }

    /// How many entries of an office the schedule has.
    pub(crate) fn done(&self, a: OfficeId) -> usize
        requires { a < length self.now.at.items }
        ensures count { result ≡ get_or self.now.at.items a 0 }
        ensures few { result < 2 ^ 32 }
    {
        self.at[a.index()] as usize
    }

    /// The next event of the schedule: of the first office, from the one whose turn it is, that can go on. None where none can.
    pub(crate) fn next(&mut self, replays: &[Replay]) -> Result<Option<WorldEvent>, AllocError>
        requires size { length self.old.at.items ≡ length replays.now }
        requires few { length replays.now ≤ 16 }
        requires turn { self.old.turn ≤ length replays.now }
        requires within { IsWithin replays.now self.old }
        ensures size { length self.new.at.items ≡ length self.old.at.items }
        ensures turn { self.new.turn ≤ length replays.now }
        ensures within { OnOk result (IsWithin replays.now self.new) }
        ensures event { IfOk result (λ o. IfSome o (AddsEvent ⟦<FrameKey as Ord>⟧.cmp replays.now self.old self.new)) }
        ensures longer { IfOk result (λ o. IfSome o (λ _. sum self.new.at.items ≡ sum self.old.at.items + 1)) }
        ensures same { IfOk result (λ o. IfNone o (self.new ≡ self.old)) }
        ensures stuck { IfOk result (λ o. IfNone o ((a : ℕ) → a < length replays.now → StuckAt ⟦<FrameKey as Ord>⟧.cmp replays.now self.old a)) }
    {
        let turn = self.turn;
        if let Some(event) = self.next_among(replays, turn, replays.len())? {
            return Ok(Some(event));
        }
        self.next_among(replays, 0, turn)
    }

    /// The same of the offices with these numbers, from the first up to the last, which isn't one of them.
    fn next_among(
        &mut self,
        replays: &[Replay],
        first: usize,
        last: usize,
    ) -> Result<Option<WorldEvent>, AllocError>
        requires size { length self.old.at.items ≡ length replays.now }
        requires few { length replays.now ≤ 16 }
        requires turn { self.old.turn ≤ length replays.now }
        requires last { last ≤ length replays.now }
        requires within { IsWithin replays.now self.old }
        ensures size { length self.new.at.items ≡ length self.old.at.items }
        ensures turn { self.new.turn ≤ length replays.now }
        ensures within { OnOk result (IsWithin replays.now self.new) }
        ensures event { IfOk result (λ o. IfSome o (AddsEvent ⟦<FrameKey as Ord>⟧.cmp replays.now self.old self.new)) }
        ensures longer { IfOk result (λ o. IfSome o (λ _. sum self.new.at.items ≡ sum self.old.at.items + 1)) }
        ensures same { IfOk result (λ o. IfNone o (self.new ≡ self.old)) }
        ensures stuck { IfOk result (λ o. IfNone o ((a : ℕ) → first ≤ a → a < last → StuckAt ⟦<FrameKey as Ord>⟧.cmp replays.now self.old a)) }
    {
        for a in first..last {
            if let Some(event) = self.next_of(OfficeId::new(a as u8), &replays[a], replays)? {
                self.turn = a;
                return Ok(Some(event));
            }
        }
        Ok(None)
    }

    /// The event of the office's next entry that it gave, where there is one and no frame of it is lacking. The schedule has it then.
    fn next_of(
        &mut self,
        a: OfficeId,
        replay: &Replay,
        replays: &[Replay],
    ) -> Result<Option<WorldEvent>, AllocError>
        requires { a < length self.old.at.items }
        ensures goes { IfOk result (λ o. IfSome o (GoesNext ⟦<FrameKey as Ord>⟧.cmp replays.now self.old self.new a replay.now)) }
        ensures stuck { IfOk result (λ o. IfNone o (IsStuck ⟦<FrameKey as Ord>⟧.cmp replays.now self.old a replay.now)) }
        ensures same { IfOk result (λ o. IfNone o (self.new ≡ self.old)) }
        ensures turn { self.new.turn ≡ self.old.turn }
        ensures size { length self.new.at.items ≡ length self.old.at.items }
    {
        let at = self.done(a);
        let given = replay.given();
        if at >= given {
            return Ok(None);
        }
        let Some(part) = replay.event_part(at) else {
            return Ok(None);
        };
        let Some(event) = self.event_of(a, &part, replay, at, replays)? else {
            return Ok(None);
        };
        let frame = replay.frame_told(at);
        self.push(a, &frame)?;
        Ok(Some(event))
    }

    /// The world's event that is that of the entry at this place of the office, if its frame is there for it.
    fn event_of(
        &self,
        a: OfficeId,
        part: &EventPart<'_>,
        replay: &Replay,
        at: usize,
        replays: &[Replay],
    ) -> Result<Option<WorldEvent>, AllocError>
        ensures { IfOk result (λ found. (entry : Entry) → slice_get replay.now.site.entries at ≡ Some entry → IsPart part.now entry.event → (frames : List Fields) → Knows ⟦<FrameKey as Ord>⟧.cmp replays.now self.now.sent frames → IsFound frames a entry.event found) }
    {
        match part {
            EventPart::Submit(program) => Ok(Some(WorldEvent::Submit(a, program.copy()?))),
            EventPart::Do(rule) => Ok(Some(WorldEvent::Do(a, *rule))),
            EventPart::Send(v, i) => Ok(Some(WorldEvent::Send(a, *v, *i))),
            EventPart::Took => Ok(self.arrival_at(a, replay, at, replays)),
            EventPart::Withdraw(ticket) => Ok(Some(WorldEvent::Withdraw(a, *ticket))),
        }
    }

    /// The event that the frame of that entry comes to the office.
    fn arrival_at(
        &self,
        a: OfficeId,
        replay: &Replay,
        at: usize,
        replays: &[Replay],
    ) -> Option<WorldEvent>
        ensures { (entry : Entry) (frame : Fields) → slice_get replay.now.site.entries at ≡ Some entry → entry.event ≡ events.Took frame → (frames : List Fields) → Knows ⟦<FrameKey as Ord>⟧.cmp replays.now self.now.sent frames → IsFound frames a entry.event result }
    {
        let frame = replay.frame_taken(at)?;
        self.arrival_of(a, &frame, replays)
    }

    /// The event that the frame comes to the office.
    fn arrival_of(&self, a: OfficeId, frame: &Frame, replays: &[Replay]) -> Option<WorldEvent>
        ensures { (frames : List Fields) → Knows ⟦<FrameKey as Ord>⟧.cmp replays.now self.now.sent frames → IsFound frames a (events.Took frame.now) result }
    {
        if frame.to() != a.number() {
            return None;
        }
        let k = self.sent.number_of(replays, frame)?;
        Some(WorldEvent::Deliver(k))
    }

    /// The office has an entry more, which tells that frame, if it tells one.
    fn push(&mut self, a: OfficeId, frame: &Option<Frame>) -> Result<(), AllocError>
        requires office { a < length self.old.at.items }
        requires next { get_or self.old.at.items a 0 + 1 < 2 ^ 32 }
        ensures at { OnOk result (self.new.at.items ≡ set self.old.at.items a (get_or self.old.at.items a 0 + 1)) }
        ensures sent { OnOk result ((rs : List ReplayValue) → told_by rs (record { office = a; entry = get_or self.old.at.items a 0 }) ≡ frame.now → (frames : List Fields) → Knows ⟦<FrameKey as Ord>⟧.cmp rs self.old.sent frames → Knows ⟦<FrameKey as Ord>⟧.cmp rs self.new.sent (frames ++ option_to_list frame.now)) }
        ensures turn { self.new.turn ≡ self.old.turn }
        ensures size { length self.new.at.items ≡ length self.old.at.items }
    {
        let entry = self.at[a.index()];
        self.sent.add_of(a, entry, frame)?;
        self.at[a.index()] += 1;
        Ok(())
    }

    /// Which entries tell the frames that were sent, the first first.
    pub(crate) fn into_sent(self) -> Vec<SentAt>
        ensures { result.items ≡ self.sent.sent.items }
    {
        self.sent.into_sent()
    }
}
