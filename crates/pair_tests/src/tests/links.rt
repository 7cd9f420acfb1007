ghost use Rattle.std.specs.Prelude.{◌<◌};
ghost use Rattle.frame_codec.specs.Limits.{sequence_space};

use bottle_values::{Text, Version};
use frame_codec::{Frame, Msg};
use std::process::Abort;
use std::test::Fail;
use window_link::{Arrival, Link, LinkFault};

mod two_ends;

#[test]
fn the_greatest_number_is_the_last(rt: HostRuntime) {
    let mut worn = Link::resume(42, 0, 1, 281474976710655, 0, Version::One);
    assert_eq!(rt; worn.queue(Msg::Fork), Err(LinkFault::Worn));
    let mut last = Link::resume(42, 0, 1, 281474976710654, 0, Version::One);
    assert_eq!(rt; last.queue(Msg::Fork), Ok(()));
    let waiting = last.waiting().len();
    assert!(rt; waiting == 1);
    assert_eq!(rt;
        last.frame(1),
        Frame::data(Version::One, 42, 0, 1, 281474976710655, 0, Msg::Fork)
    );
    assert_eq!(rt; last.queue(Msg::Fork), Err(LinkFault::Worn));
}

// Eighteen messages wait, the oldest of which asks for this bottle, and each next one for the next.
// Messages go on round the places: those that are left, and those that came since, are told in order.
// What the frame is to the link, and then how many messages it took, has acknowledged, and lets wait.
fn comes(
    rt: &impl Abort,
    link: &mut Link,
    frame: Frame,
    arrival: Result<Arrival, LinkFault>,
    counts: (u64, u64, usize),
) {
    let told = link.arrive(&frame);
    assert_eq!(rt; told, arrival, "{frame:?}");
    let now = (link.taken(), link.acked(), link.waiting().len());
    assert_eq!(rt; now, counts, "{frame:?}");
}

// A frame of the other version changes nothing, whatever it brings: it is told after a stranger's, and before a count that is
// ahead.
// A bottle with "hi", from 1 to 0.
// A link of version 01 refuses a frame with a text, and none can be queued on it.
fn brings(rt: &impl Abort, link: &mut Link, number: u64, msg: Msg, arrival: Arrival, taken: u64)
    requires first { 0 < number }
    requires last { number < sequence_space }
{
    assert!(rt; msg.is_carried(Version::One));
    let frame = Frame::data(Version::One, 42, 1, 0, number, 0, msg);
    comes(rt, link, frame, Ok(arrival), (taken, 0, 0));
}

#[test]
fn early_messages_are_kept(rt: HostRuntime) {
    let mut link = Link::open(42, 0, 1, Version::One);
    brings(&rt, &mut link, 2, Msg::AskBottle(2), Arrival::Kept, 0);
    brings(&rt, &mut link, 2, Msg::Fork, Arrival::Kept, 0);
    brings(&rt, &mut link, 18, Msg::Fork, Arrival::Kept, 0);
    brings(&rt, &mut link, 19, Msg::Fork, Arrival::Early, 0);
    assert_eq!(rt; link.kept(), None);
    brings(
        &rt,
        &mut link,
        1,
        Msg::AskFork,
        Arrival::Fresh(Msg::AskFork),
        1,
    );
    assert_eq!(rt; link.kept(), Some(Msg::AskBottle(2)));
    if link.kept().is_some() {
        link.accept_kept();
    }
    assert_eq!(rt; link.kept(), None);
    brings(&rt, &mut link, 2, Msg::AskBottle(2), Arrival::Repeat, 2);
    brings(&rt, &mut link, 20, Msg::Fork, Arrival::Kept, 2);
    brings(&rt, &mut link, 21, Msg::Fork, Arrival::Early, 2);
}

#[test]
fn faults_are_printed_with_their_codes(rt: HostRuntime) -> Result<(), Fail> {
    for (fault, text) in [
        (LinkFault::Stranger, "L1 Stranger"),
        (LinkFault::WrongVersion, "L4 WrongVersion"),
        (LinkFault::AckAhead, "L2 AckAhead"),
        (LinkFault::Worn, "L3 Worn"),
    ] {
        let printed = format!(in rt.alloc(); "{fault}")?;
        assert_eq!(rt; printed.as_str(), text);
    }
    Ok(())
}
