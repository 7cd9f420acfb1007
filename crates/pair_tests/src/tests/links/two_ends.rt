ghost use Rattle.std.specs.Prelude.{◌<◌, IsTrue};

use bottle_values::Version;
use frame_codec::Msg;
use rand_core::utils::NextWord;
use std::alloc::{AllocError, Global};
use std::process::Abort;
use std::test::Fail;
use window_link::Arrival;
use window_link::laws::{End, LinkEvent, LinkReply, Two};

fn happens(
    rt: &impl Abort,
    two: &mut Two,
    event: LinkEvent,
    reply: LinkReply,
) -> Result<(), AllocError> {
    assert_eq!(rt; two.apply(&event)?, reply, "{event:?}");
    Ok(())
}

// Three messages are asked for in one direction, and their frames are made.
fn three_made(rt: &impl Abort, alloc: Global) -> Result<Two, AllocError> {
    let mut two = Two::open(alloc, 42, 0, 1, Version::One);
    for bottle in 0..3 {
        let queue = LinkEvent::Queue(End::Left, Msg::AskBottle(bottle));
        happens(rt, &mut two, queue, LinkReply::Queued)?;
    }
    for i in 1..4 {
        happens(rt, &mut two, LinkEvent::Make(End::Left, i), LinkReply::Made)?;
    }
    Ok(two)
}

#[test]
fn frames_come_out_of_order(rt: HostRuntime) -> Result<(), Fail> {
    let mut two = three_made(&rt, rt.alloc())?;
    let arrivals = [
        (3, Arrival::Kept),
        (1, Arrival::Fresh(Msg::AskBottle(0))),
        (2, Arrival::Fresh(Msg::AskBottle(1))),
    ];
    for (k, arrival) in arrivals {
        happens(
            &rt,
            &mut two,
            LinkEvent::Arrive(k),
            LinkReply::Arrived(arrival),
        )?;
    }
    happens(
        &rt,
        &mut two,
        LinkEvent::Make(End::Left, 3),
        LinkReply::Made,
    )?;
    let repeat = LinkReply::Arrived(Arrival::Repeat);
    happens(&rt, &mut two, LinkEvent::Arrive(4), repeat)?;
    assert!(rt; two.link(End::Right).taken() == 3);
    let frames = two.frames();
    assert!(rt; frames.len() == 4);
    assert_eq!(rt; frames[3], frames[2]);
    Ok(())
}

// ---- random events

// Numbers that are drawn from a seed.
// What went one way.
// An event happens, and what went either way is noted.
// A reader of the contract alone knows that what is acknowledged was taken.
