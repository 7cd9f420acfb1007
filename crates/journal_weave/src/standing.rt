//! Which office is named where none goes on.

ghost use Rattle.std.specs.Prelude.{◌≡◌, ◌+◌, ◌<◌, ◌≤◌, ◌↔◌, length, get_or, take, IfSome, IfNone, IsTrue};
ghost use Rattle.office_journal.specs.Shown.{event_shown};
ghost use Rattle.journal_weave.specs.Given.{HasMade, IsFrameFor};
ghost use Rattle.journal_weave.specs.refinement.Standing.{IsLeft, StandsBefore, taken_next, frame_taken, of_stop, MayCome, WaitsIn, IsFirstLeft};

use crate::merge::Merge;
use crate::replay::Replay;
use crate::stop::Stop;
use frame_codec::Frame;
use office_map::OfficeId;
use site_core::{EventRef, Reply};

/// The office that is named where none goes on, and the entry at which it stands, from 1: the least that doesn't wait, or the
/// least, where all wait that stand.
///
/// The entry is the first of its office that no schedule has; which office that is, where several stand, is a
/// definition. An office waits by its next entry alone: whether it would give that entry, once the frame came, isn't
/// asked. What comes after the entries of a journal that doesn't end takes no frame, so the office doesn't wait there.
pub(crate) fn first_left(replays: &[Replay], merge: &Merge) -> Option<(OfficeId, usize)>
    requires few { length replays.now ≤ 16 }
    requires size { length merge.now.at.items ≡ length replays.now }
    ensures { IsFirstLeft replays.now merge.now.at.items result }
{
    let mut first = None;
    for a in 0..replays.len() {
        let office = OfficeId::new(a as u8);
        let Some(entry) = left_at(replays, merge, office) else {
            continue;
        };
        if !waits(replays, merge, office) {
            return Some((office, entry));
        }
        first = first.or(Some((office, entry)));
    }
    first
}

/// The entry at which the office stands, from 1, if it stands before its journal's end.
fn left_at(replays: &[Replay], merge: &Merge, a: OfficeId) -> Option<usize>
    requires office { a < length replays.now }
    requires size { length merge.now.at.items ≡ length replays.now }
    ensures stands { IfSome result (λ entry. StandsBefore replays.now merge.now.at.items a) }
    ensures next { IfSome result (λ entry. entry ≡ get_or merge.now.at.items a 0 + 1) }
    ensures none { IfNone result (StandsBefore replays.now merge.now.at.items a → ⊥) }
{
    let done = merge.done(a);
    if is_left(&replays[a.index()], done) {
        return Some(done + 1);
    }
    None
}

/// Whether a journal has something after so many entries, of those that its office gave.
fn is_left(replay: &Replay, done: usize) -> bool
    ensures { IsTrue result ↔ IsLeft replay.now done }
{
    done < replay.given() || replay.stop().is_some()
}

/// Whether the office's next entry takes a frame that may still come.
fn waits(replays: &[Replay], merge: &Merge, a: OfficeId) -> bool
    requires office { a < length replays.now }
    requires size { length merge.now.at.items ≡ length replays.now }
    ensures { IsTrue result ↔ WaitsIn replays.now merge.now.at.items a }
{
    match taken_next(&replays[a.index()], merge.done(a)) {
        Some(frame) => may_come(replays, merge, a, &frame),
        None => false,
    }
}

/// Whether the frame may still come to the office: its sender stands, and has made it none of that number.
fn may_come(replays: &[Replay], merge: &Merge, a: OfficeId, frame: &Frame) -> bool
    requires { length merge.now.at.items ≡ length replays.now }
    ensures { IsTrue result ↔ MayCome replays.now merge.now.at.items a frame.now }
{
    let from = OfficeId::new(frame.from());
    if !stands(replays, merge, from) {
        return false;
    }
    let sender = &replays[from.index()];
    !has_made(sender, merge.done(from), a.number(), frame.number())
}

/// Whether there is that office, and it stands before its journal's end.
#[tactic(auto, using(crate::proofs::Naming::none_beyond, crate::proofs::Naming::where_some))]
fn stands(replays: &[Replay], merge: &Merge, a: OfficeId) -> bool
    requires { length merge.now.at.items ≡ length replays.now }
    ensures { IsTrue result ↔ StandsBefore replays.now merge.now.at.items a }
{
    if a.index() >= replays.len() {
        return false;
    }
    left_at(replays, merge, a).is_some()
}

/// The frame that the entry after so many takes, if there is one and it does.
fn taken_next(replay: &Replay, done: usize) -> Option<Frame>
    ensures { result ≡ taken_next replay.now done }
{
    if done >= replay.given() {
        return of_stop(replay.stop());
    }
    let Some(entry) = replay.entry(done) else {
        return None;
    };
    frame_taken(&entry.event)
}

/// The frame that an event takes, if it does.
fn frame_taken(event: &EventRef<'_>) -> Option<Frame>
    ensures { result ≡ frame_taken (event_shown event.now) }
{
    match *event {
        EventRef::Took(frame) => Some(frame),
        _ => None,
    }
}

/// The frame that is taken where an office stopped, if that is so.
fn of_stop(stop: Option<Stop>) -> Option<Frame>
    ensures { result ≡ of_stop stop }
{
    stop?.takes
}

/// Whether one of the first so many entries made a frame of that number for the office.
fn has_made(replay: &Replay, done: usize, to: u8, number: u64) -> bool
    ensures { IsTrue result ↔ HasMade (take done replay.now.site.entries) to number }
{
    for i in 0..done {
        let Some(entry) = replay.entry(i) else {
            return false;
        };
        if is_frame(&entry.reply, to, number) {
            return true;
        }
    }
    false
}

/// Whether the reply is a frame of that number for the office.
fn is_frame(reply: &Reply, to: u8, number: u64) -> bool
    ensures { IsTrue result ↔ IsFrameFor to number reply.now }
{
    match reply {
        Reply::Frame(frame) => frame.to() == to && frame.number() == number,
        _ => false,
    }
}
