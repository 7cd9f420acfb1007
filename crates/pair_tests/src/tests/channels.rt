ghost use Rattle.std.specs.Prelude.{◌<◌};

use bottle_values::{Value, Version};
use frame_codec::{Frame, Msg};
use office_map::{OfficeId, Plan};
use rand_core::utils::NextWord;
use rand_pcg::Pcg32;
use std::alloc::{AllocError, Global};
use std::process::Abort;
use std::test::Fail;
use token_channel::{Channel, ChannelFault, Taken, Thing, laws};
use window_link::{Arrival, LinkFault, Waiting};

const ONE_RECORD: &str =
    "plan 1 run 42\noffice a -\noffice b -\npair a b fork a\nrecord x a b 100 at a\n";

const TWO_RECORDS: &str =
    "plan 1 run 42\noffice a -\noffice b -\npair a b fork a\nrecord x a b 100 at a\nrecord y a b 0 at b\n";

// Both ends of the pair of a plan's first two offices.
fn ends(rt: &impl Abort, alloc: Global, text: &str) -> Result<(Channel, Channel), AllocError> {
    let plan = Plan::read(alloc, text.as_bytes()).expect(rt, "the plan is accepted");
    let a = OfficeId::new(0);
    let b = OfficeId::new(1);
    assert!(rt; plan.offices() == 2);
    assert!(rt; plan.are_neighbours(a, b));
    assert!(rt; plan.are_neighbours(b, a));
    let at_a = Channel::open(alloc, &plan, a, b)?;
    let at_b = Channel::open(alloc, &plan, b, a)?;
    Ok((at_a, at_b))
}

// What the frame itself was.
fn arrival(taken: Result<Taken, ChannelFault>) -> Result<Arrival, ChannelFault> {
    Ok(match taken? {
        Taken::Acked => Arrival::Acked,
        Taken::Fresh(messages) => match messages.as_slice().first() {
            Some(msg) => Arrival::Fresh(*msg),
            None => Arrival::Acked,
        },
        Taken::Repeat => Arrival::Repeat,
        Taken::Kept => Arrival::Kept,
        Taken::Early => Arrival::Early,
    })
}

// One thing goes over, in a frame that arrives at once.
fn goes(rt: &impl Abort, from: &mut Channel, to: &mut Channel, msg: Msg) {
    assert!(rt; from.holds(Thing::of(msg)) && from.carries(&msg));
    assert_eq!(rt; from.send(msg), Ok(()));
    let waiting = from.waiting().len();
    assert!(rt; 0 < waiting && waiting <= 4, "{waiting} wait");
    assert_eq!(rt;
        arrival(to.take(&from.frame(waiting))),
        Ok(Arrival::Fresh(msg))
    );
}

fn bottle(r: u16, number: i64) -> Msg {
    Msg::Bottle(r, Value::from(number))
}

#[test]
fn a_bottle_goes_to_and_fro(rt: HostRuntime) -> Result<(), Fail> {
    let (mut here, mut there) = ends(&rt, rt.alloc(), ONE_RECORD)?;
    for _ in 0..10 {
        goes(&rt, &mut there, &mut here, Msg::AskBottle(0));
        goes(&rt, &mut here, &mut there, bottle(0, 100));
        goes(&rt, &mut here, &mut there, Msg::AskBottle(0));
        goes(&rt, &mut there, &mut here, bottle(0, 100));
    }
    Ok(())
}

// What a frame of the peer is, and that where it is refused nothing changed.
fn comes(rt: &impl Abort, at: &mut Channel, frame: Frame, expected: Result<Arrival, ChannelFault>) {
    let before = (at.taken(), at.acked(), at.waiting().len());
    let told = arrival(at.take(&frame));
    assert_eq!(rt; told, expected, "{frame:?}");
    let after = (at.taken(), at.acked(), at.waiting().len());
    assert!(rt; told.is_ok() || before == after);
}

#[test]
fn what_is_held_is_not_taken(rt: HostRuntime) -> Result<(), Fail> {
    let (mut a, _) = ends(&rt, rt.alloc(), TWO_RECORDS)?;
    let fork = Frame::data(Version::One, 42, 1, 0, 1, 0, Msg::Fork);
    comes(&rt, &mut a, fork, Err(ChannelFault::Breach));
    let foreign = Frame::data(Version::One, 42, 1, 0, 1, 0, Msg::AskBottle(2));
    comes(&rt, &mut a, foreign, Err(ChannelFault::Breach));
    let token = Frame::data(Version::One, 42, 1, 0, 1, 0, Msg::AskFork);
    comes(&rt, &mut a, token, Ok(Arrival::Fresh(Msg::AskFork)));
    comes(&rt, &mut a, token, Ok(Arrival::Repeat));
    comes(
        &rt,
        &mut a,
        Frame::data(Version::One, 42, 1, 0, 3, 0, Msg::Fork),
        Ok(Arrival::Kept),
    );
    Ok(())
}

#[test]
fn what_was_kept_is_thrown_out(rt: HostRuntime) -> Result<(), Fail> {
    let (mut a, _) = ends(&rt, rt.alloc(), TWO_RECORDS)?;
    let fork = Frame::data(Version::One, 42, 1, 0, 2, 0, Msg::Fork);
    comes(&rt, &mut a, fork, Ok(Arrival::Kept));
    let token = Frame::data(Version::One, 42, 1, 0, 1, 0, Msg::AskFork);
    comes(&rt, &mut a, token, Ok(Arrival::Fresh(Msg::AskFork)));
    assert!(rt; a.taken() == 1);
    Ok(())
}

#[test]
fn what_was_kept_follows(rt: HostRuntime) -> Result<(), Fail> {
    let (mut a, _) = ends(&rt, rt.alloc(), TWO_RECORDS)?;
    for (number, msg) in [(3, Msg::AskBottle(0)), (2, bottle(1, 7))] {
        assert!(rt; msg.is_carried(Version::One));
        comes(
            &rt,
            &mut a,
            Frame::data(Version::One, 42, 1, 0, number, 0, msg),
            Ok(Arrival::Kept),
        );
    }
    match a.take(&Frame::data(Version::One, 42, 1, 0, 1, 0, Msg::AskFork)) {
        Ok(Taken::Fresh(messages)) => {
            let all = [Msg::AskFork, bottle(1, 7), Msg::AskBottle(0)];
            assert_eq!(rt; messages.as_slice(), all.as_slice());
        }
        other => assert!(rt; false, "{other:?}"),
    }
    assert!(rt; a.taken() == 3 && a.holds(Thing::Bottle(1)));
    Ok(())
}

#[test]
fn what_waits_is_not_taken(rt: HostRuntime) -> Result<(), Fail> {
    let (mut a, _) = ends(&rt, rt.alloc(), TWO_RECORDS)?;
    assert!(rt; a.holds(Thing::of(Msg::AskBottle(1))));
    assert_eq!(rt; a.send(Msg::AskBottle(1)), Ok(()));
    let ahead = ChannelFault::Link(LinkFault::AckAhead);
    comes(
        &rt,
        &mut a,
        Frame::data(Version::One, 42, 1, 0, 1, 0, Msg::AskBottle(1)),
        Err(ChannelFault::Breach),
    );
    comes(
        &rt,
        &mut a,
        Frame::data(Version::One, 42, 1, 0, 1, 2, Msg::AskBottle(1)),
        Err(ahead),
    );
    comes(
        &rt,
        &mut a,
        Frame::data(Version::One, 42, 1, 0, 1, 1, Msg::AskBottle(1)),
        Ok(Arrival::Fresh(Msg::AskBottle(1))),
    );
    let stranger = ChannelFault::Link(LinkFault::Stranger);
    comes(
        &rt,
        &mut a,
        Frame::data(Version::One, 43, 1, 0, 2, 9, Msg::Fork),
        Err(stranger),
    );
    comes(
        &rt,
        &mut a,
        Frame::ack(Version::One, 42, 1, 0, 0),
        Ok(Arrival::Acked),
    );
    assert_eq!(rt; a.ack_frame(), Frame::ack(Version::One, 42, 0, 1, 1));
    Ok(())
}

#[test]
fn faults_are_printed_with_their_codes(rt: HostRuntime) -> Result<(), Fail> {
    for (fault, text) in [
        (ChannelFault::Breach, "C1 Breach"),
        (ChannelFault::Link(LinkFault::Stranger), "L1 Stranger"),
        (
            ChannelFault::Link(LinkFault::WrongVersion),
            "L4 WrongVersion",
        ),
        (ChannelFault::Link(LinkFault::AckAhead), "L2 AckAhead"),
    ] {
        let printed = format!(in rt.alloc(); "{fault}")?;
        assert_eq!(rt; printed.as_str(), text);
    }
    Ok(())
}

// ---- random events

static SEEDS: [u64; 4] = [0, 1, 42, 4_294_967_295];

// A message for each of the six things of the two.
fn message(k: usize) -> Msg {
    match k {
        0 => Msg::AskFork,
        1 => Msg::Fork,
        2 => Msg::AskBottle(0),
        3 => Msg::AskBottle(1),
        4 => bottle(0, 7),
        _ => bottle(1, -7),
    }
}

// Numbers that are drawn from a seed.
#[derive(Drop)]
struct Draws {
    words: Pcg32,
}

impl Draws {
    fn from_seed(seed: u64) -> Draws {
        Draws {
            words: Pcg32::new(seed, 54),
        }
    }

    fn below(&mut self, limit: u64) -> usize
        requires { 0 < limit }
        ensures { result < limit }
    {
        (u64::from(self.words.next_word()) % limit) as usize
    }
}

// One end sends a thing, or makes a frame.
fn acts(
    rt: &impl Abort,
    draws: &mut Draws,
    end: &mut Channel,
    frames: &mut Vec<Frame>,
) -> Result<(), AllocError> {
    let msg = message(draws.below(6));
    // A copy, since the borrow checker takes a message that was passed for lent.
    let queued = msg;
    if end.holds(Thing::of(msg)) {
        assert!(rt; end.carries(&queued));
        assert_eq!(rt; end.send(queued), Ok(()));
    }
    let i = draws.below(4);
    if 0 < i && i <= end.waiting().len() {
        frames.push(end.frame(i))?;
    } else if i == 0 {
        frames.push(end.ack_frame())?;
    }
    Ok(())
}

// One of the last frames comes to an end; it is never refused.
fn arrives(rt: &impl Abort, draws: &mut Draws, end: &mut Channel, frames: &[Frame]) {
    if let Some(frame) = frames.get(frames.len().saturating_sub(1 + draws.below(20))) {
        let passes = end.check(frame).is_ok();
        let told = arrival(end.take(frame));
        assert!(rt; passes && told.is_ok(), "{frame:?} is {told:?}");
    }
}

// How many of these messages, from one on, carry the thing.
fn carried(thing: Thing, waiting: &Waiting, from: usize) -> usize {
    let mut count = 0usize;
    for i in from..waiting.len() {
        if Thing::of(waiting.message(i)).is(thing) {
            count = count.saturating_add(1);
        }
    }
    count
}

// Each thing is held at one end, or is on its way.
fn is_once(rt: &impl Abort, a: &Channel, b: &Channel, thing: Thing) {
    let from_a = b.taken().saturating_sub(a.acked()) as usize;
    let from_b = a.taken().saturating_sub(b.acked()) as usize;
    let told = [
        usize::from(a.holds(thing)),
        usize::from(b.holds(thing)),
        carried(thing, a.waiting(), from_a),
        carried(thing, b.waiting(), from_b),
    ];
    let places: usize = told.iter().filter(|count| **count == 1).count();
    assert_eq!(rt; places, 1, "{thing:?} at {told:?}");
}

#[test]
fn ten_thousand_random_events(rt: HostRuntime) -> Result<(), Fail> {
    for seed in SEEDS {
        let mut draws = Draws::from_seed(seed);
        let (mut a, mut b) = ends(&rt, rt.alloc(), TWO_RECORDS)?;
        let mut from_a = Vec::new(rt.alloc());
        let mut from_b = Vec::new(rt.alloc());
        for _ in 0..10_000 {
            match draws.below(6) {
                0 => acts(&rt, &mut draws, &mut a, &mut from_a)?,
                1 => acts(&rt, &mut draws, &mut b, &mut from_b)?,
                2 | 3 => arrives(&rt, &mut draws, &mut b, &from_a),
                _ => arrives(&rt, &mut draws, &mut a, &from_b),
            }
            let thing = Thing::of(message(draws.below(6)));
            is_once(&rt, &a, &b, thing);
        }
        assert!(rt; a.taken() > 100 && b.taken() > 100, "seed {seed}");
    }
    laws::what_comes_is_held();
    laws::what_follows_is_held();
    Ok(())
}
