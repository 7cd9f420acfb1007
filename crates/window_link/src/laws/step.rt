//! One event at two links and the frames that they made.

ghost use Rattle.std.specs.Prelude.{◌≡◌, ◌++◌, ◌∷◌, [], None, IfOk, OnOk, OnErr};
ghost use Rattle.window_link.specs.Streams.{nth};
ghost use Rattle.window_link.specs.Windows.{next_kept};
ghost use Rattle.window_link.specs.Links.{fault_of, arrival_at};
ghost use Rattle.window_link.specs.Limits.{most_kept};
ghost use Rattle.window_link.specs.refinement.TwoLinksStep.{queue_step, made_of, arrive_step, after_taking, followed, with_receiving, ends, Steps};
ghost use Rattle.window_link.specs.Two.{Accepts};

use crate::arrival::Arrival;
use crate::laws::event::{End, LinkEvent, LinkReply, Posted};
use crate::link::Link;
use crate::receiving::MAX_KEPT;
use frame_codec::{Frame, Msg};
use std::alloc::AllocError;

/// What happens to the links and the frames. Where a growth is refused nothing does.
pub fn step(
    left: &mut Link,
    right: &mut Link,
    frames: &mut Vec<Posted>,
    event: &LinkEvent,
) -> Result<LinkReply, AllocError>
    requires { Accepts (ends left.old right.old frames.old.items) }
    ensures { Steps (ends left.old right.old frames.old.items) event.now result (ends left.new right.new frames.new.items) }
{
    match *event {
        LinkEvent::Queue(End::Left, msg) => Ok(queue(left, msg)),
        LinkEvent::Queue(End::Right, msg) => Ok(queue(right, msg)),
        LinkEvent::Make(End::Left, i) => make(frames, left, End::Left, i),
        LinkEvent::Make(End::Right, i) => make(frames, right, End::Right, i),
        LinkEvent::Ack(End::Left) => post(frames, End::Left, left.ack_frame()),
        LinkEvent::Ack(End::Right) => post(frames, End::Right, right.ack_frame()),
        LinkEvent::Arrive(k) => Ok(arrive(left, right, frames, k)),
    }
}

// Where the greatest number was used the ends are idle, as they are where no place is free, and where a frame can't carry
// the message.
fn queue(link: &mut Link, msg: Msg) -> LinkReply
    ensures reply { result ≡ (queue_step link.old msg).0 }
    ensures link { link.new ≡ (queue_step link.old msg).1 }
{
    if !link.carries(&msg) {
        return LinkReply::Idle;
    }
    if !link.has_room() {
        return LinkReply::Idle;
    }
    match link.queue(msg) {
        Ok(()) => LinkReply::Queued,
        Err(_) => LinkReply::Idle,
    }
}

fn make(frames: &mut Vec<Posted>, link: &Link, by: End, i: usize) -> Result<LinkReply, AllocError>
    ensures reply { IfOk result (λ reply. reply ≡ (made_of link.now by i (nth link.now.sending.waiting i)).0) }
    ensures frames { OnOk result (frames.new.items ≡ frames.old.items ++ (made_of link.now by i (nth link.now.sending.waiting i)).1) }
    ensures unchanged { OnErr result (frames.new.items ≡ frames.old.items) }
{
    if i == 0 || i > link.waiting().len() {
        return Ok(LinkReply::Idle);
    }
    post(frames, by, link.frame(i))
}

fn post(frames: &mut Vec<Posted>, by: End, frame: Frame) -> Result<LinkReply, AllocError>
    ensures reply { IfOk result (λ reply. reply ≡ LinkReply.Made) }
    ensures frames { OnOk result (frames.new.items ≡ frames.old.items ++ record { by = by; frame = frame } ∷ []) }
    ensures unchanged { OnErr result (frames.new.items ≡ frames.old.items) }
{
    frames.push(Posted { by, frame })?;
    Ok(LinkReply::Made)
}

fn arrive(left: &mut Link, right: &mut Link, frames: &[Posted], k: usize) -> LinkReply
    requires { Accepts (ends left.old right.old frames.now) }
    ensures { (result, ends left.new right.new frames.now) ≡ arrive_step (ends left.old right.old frames.now) (nth frames.now k) }
{
    if k == 0 {
        return LinkReply::Idle;
    }
    let Some(posted) = frames.get(k - 1) else {
        return LinkReply::Idle;
    };
    match posted.by {
        End::Left => LinkReply::Arrived(take(right, &posted.frame)),
        End::Right => LinkReply::Arrived(take(left, &posted.frame)),
    }
}

// What was kept follows a message that is taken.
fn take(link: &mut Link, frame: &Frame) -> Arrival
    requires { fault_of link.old frame.now ≡ None }
    ensures arrival { result ≡ arrival_at link.old frame.now }
    ensures link { link.new ≡ after_taking link.old frame.now }
{
    let arrival = link.accept(frame);
    if let Arrival::Fresh(_) = arrival {
        follow(link);
    }
    arrival
}

fn follow(link: &mut Link)
    ensures { link.new ≡ with_receiving link.old (followed (next_kept link.old.receiving) most_kept link.old.receiving) }
{
    for _ in 0..MAX_KEPT {
        if link.kept().is_none() {
            return;
        }
        link.accept_kept();
    }
}
