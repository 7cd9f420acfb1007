//! The frames of a schedule.

ghost use Rattle.std.specs.Prelude.{◌≡◌, ◌↔◌, ◌++◌, ◌∷◌, [], List, Some, IsTrue, OnOk, IfSome, IfNone, option_to_list};
ghost use Rattle.frame_codec.specs.Frame.{Fields, IsFrame};
ghost use Rattle.journal_weave.specs.ReplayValue.{ReplayValue};
ghost use Rattle.journal_weave.specs.refinement.Merging.{Knows, WasSent, WasNotSent, AreOne, number_in, told_by};

use crate::key::{FrameKey, keys_are_told_apart};
use crate::replay::Replay;
use frame_codec::Frame;
use frame_world::SentAt;
use office_map::OfficeId;
use std::alloc::{AllocError, Global};
use std::collections::BTreeMap;

/// The frames that a schedule sends, each with a number that it was sent under. They are kept in order of all but their
/// messages, so that the time of a look-up grows with the logarithm of their count, whatever they say; the frame itself is
/// compared where its office tells it.
///
/// They aren't hashed: the kit's maps hash by a seed that is fixed, so who writes a journal could choose numbers whose frames
/// all collide, and then each entry looks at all others.
#[derive(Drop)]
pub(crate) struct SentFrames {
    /// From 1. A frame that was sent more than once has the last of its numbers.
    numbers: BTreeMap<FrameKey, usize>,
    /// Which entry of which office tells each, the first sent first.
    sent: Vec<SentAt>,
}

impl SentFrames {
    /// None was sent.
    pub(crate) fn new(alloc: Global) -> SentFrames
        ensures { (rs : List ReplayValue) → Knows ⟦<FrameKey as Ord>⟧.cmp rs result [] }
    {
        SentFrames {
            numbers: BTreeMap::new(alloc),
            sent: Vec::new(alloc),
        }
    }

    /// The frame that an office's entry tells, if it tells one.
    pub(crate) fn add_of(
        &mut self,
        office: OfficeId,
        entry: u32,
        frame: &Option<Frame>,
    ) -> Result<(), AllocError>
        ensures { OnOk result ((rs : List ReplayValue) → told_by rs (record { office = office; entry = entry }) ≡ frame.now → (frames : List Fields) → Knows ⟦<FrameKey as Ord>⟧.cmp rs self.old frames → Knows ⟦<FrameKey as Ord>⟧.cmp rs self.new (frames ++ option_to_list frame.now)) }
    {
        match frame {
            Some(frame) => self.add(office, entry, frame),
            None => Ok(()),
        }
    }

    /// One frame more, which that entry tells.
    fn add(&mut self, office: OfficeId, entry: u32, frame: &Frame) -> Result<(), AllocError>
        ensures { OnOk result ((rs : List ReplayValue) → told_by rs (record { office = office; entry = entry }) ≡ Some frame.now → (frames : List Fields) → Knows ⟦<FrameKey as Ord>⟧.cmp rs self.old frames → Knows ⟦<FrameKey as Ord>⟧.cmp rs self.new (frames ++ frame.now ∷ [])) }
    {
        keys_are_told_apart();
        is_in_range(frame);
        self.sent.push(SentAt { office, entry })?;
        self.numbers.insert(FrameKey::of(frame), self.sent.len())?;
        Ok(())
    }

    /// A number under which that frame was sent, if it was, where these offices followed their journals.
    pub(crate) fn number_of(&self, replays: &[Replay], frame: &Frame) -> Option<usize>
        ensures sent { IfSome result (λ k. (frames : List Fields) → Knows ⟦<FrameKey as Ord>⟧.cmp replays.now self.now frames → WasSent frames frame.now k) }
        ensures never { IfNone result ((frames : List Fields) → Knows ⟦<FrameKey as Ord>⟧.cmp replays.now self.now frames → AreOne frames → WasNotSent frames frame.now) }
    {
        let number = self.number_of_key(frame)?;
        let made = self.frame_at(replays, number);
        if is_frame(&made, frame) {
            Some(number)
        } else {
            None
        }
    }

    /// A number under which a frame was sent that is the same but for its message, if one was.
    fn number_of_key(&self, frame: &Frame) -> Option<usize>
        ensures { result ≡ number_in ⟦<FrameKey as Ord>⟧.cmp self.now frame.now }
    {
        self.numbers.get(&FrameKey::of(frame)).copied()
    }

    /// The frame that was sent under that number.
    fn frame_at(&self, replays: &[Replay], number: usize) -> Option<Frame>
        ensures { (frames : List Fields) (f : Fields) → Knows ⟦<FrameKey as Ord>⟧.cmp replays.now self.now frames → WasSent frames f number → result ≡ Some f }
    {
        if number == 0 {
            return None;
        }
        let sent = self.sent.get(number - 1)?;
        told_at(replays, *sent)
    }

    /// Which entries tell the frames, the first sent first.
    pub(crate) fn into_sent(self) -> Vec<SentAt>
        ensures { result.items ≡ self.sent.items }
    {
        self.sent
    }
}

/// The frame that an entry of an office tells, if it tells one.
fn told_at(replays: &[Replay], sent: SentAt) -> Option<Frame>
    ensures { result ≡ told_by replays.now sent }
{
    let a = sent.office.index();
    if a >= replays.len() {
        return None;
    }
    replays[a].frame_told(sent.entry as usize)
}

fn is_frame(made: &Option<Frame>, frame: &Frame) -> bool
    ensures { IsTrue result ↔ (made.now ≡ Some frame.now) }
{
    match made {
        Some(made) => made.equals(frame),
        None => false,
    }
}

/// Each field of a frame is in the format's range.
fn is_in_range(frame: &Frame)
    ensures { IsFrame frame.now }
{
    let _ = (frame.run(), frame.from(), frame.to());
    let _ = (frame.number(), frame.count(), frame.msg());
}
