//! When a message that isn't answered goes out again: each 50 milliseconds, or, in adaptive turns, ever more seldom while its
//! neighbour isn't heard.

use crate::tests::{
    Both, Call, broke_off, open_both, open_both_of, programs, programs_of, submit, turn,
};
use session_programs::Program;
use std::process::Abort;
use std::sync::Wait;
use std::test::Fail;

/// Two records that the second office has, and a session of the first for which it has to give both.
const TWO_RECORDS: &str =
    "plan 1 run 42\noffice a -\noffice b -\npair a b fork a\nrecord x a b 0 at b\nrecord y a b 0 at b\n";

const TWO_RECORDS_SESSION: &str = "session a\nset x = read x + 1\nset y = read y + 1\nend\n";

/// At what time how many frames go out, of a message that was never sent before and is never answered, in turns.
static STEADILY: [(u64, u32); 7] = [
    (1000, 1),
    (1049, 0),
    (1050, 1),
    (1099, 0),
    (1100, 1),
    (1200, 1),
    (9000, 1),
];

/// The same in adaptive turns.
static EVER_MORE_SELDOM: [(u64, u32); 21] = [
    (1000, 1),
    (1049, 0),
    (1050, 1),
    (1149, 0),
    (1150, 1),
    (1349, 0),
    (1350, 1),
    (1749, 0),
    (1750, 1),
    (2549, 0),
    (2550, 1),
    (4149, 0),
    (4150, 1),
    (7349, 0),
    (7350, 1),
    (12349, 0),
    (12350, 1),
    (17349, 0),
    (17350, 1),
    (22349, 0),
    (22350, 1),
];

/// The same of one of two messages that went out last at 350, where the other was answered at 360.
static AFTER_AN_ANSWER: [(u64, u32); 6] = [
    (399, 0),
    (400, 1),
    (449, 0),
    (450, 1),
    (549, 0),
    (550, 1),
];

/// The same, where the answer of 360 comes again at 560: it brings nothing new, but its neighbour was heard.
static AFTER_IT_CAME_AGAIN: [(u64, u32); 6] = [
    (599, 0),
    (600, 1),
    (649, 0),
    (650, 1),
    (749, 0),
    (750, 1),
];

/// How many frames go out in the first office's turn at that time.
fn sent_at<R: Wait>(rt: &R, both: &mut Both, call: Call, now: u64) -> Result<u32, Fail> {
    match both.turn_a(rt, call, now) {
        Ok(turn) => Ok(turn.sent),
        Err(_) => Err(Fail::from("a turn")),
    }
}

fn goes_out<R: Wait + Abort>(
    rt: &R,
    both: &mut Both,
    call: Call,
    times: &[(u64, u32)],
) -> Result<(), Fail> {
    for (now, sent) in times.iter() {
        assert_eq!(rt; sent_at(rt, both, call, *now)?, *sent, "at {now}");
    }
    Ok(())
}

fn is_never_answered<R: Wait + Abort>(
    rt: &R,
    both: &mut Both,
    programs: &[Program],
    call: Call,
    times: &[(u64, u32)],
) -> Result<(), Fail> {
    let Some(program) = programs.get(0) else {
        return Err(Fail::from("a session"));
    };
    assert_eq!(rt; submit(rt, &mut both.a, program), Some(1));
    goes_out(rt, both, call, times)
}

/// In turns a message goes out again each 50 milliseconds, however long it isn't answered.
#[test]
fn a_message_goes_out_again(rt: HostRuntime) -> Result<(), Fail> {
    let programs = programs(rt.alloc())?;
    let mut both = open_both(rt.alloc())?;
    is_never_answered(&rt, &mut both, &programs, Call::Turn, &STEADILY)
}

/// In adaptive turns after 50 milliseconds, 100, 200 and so on, at last each 5 seconds, and at no other time.
#[test]
fn resends_back_off(rt: HostRuntime) -> Result<(), Fail> {
    let programs = programs(rt.alloc())?;
    let mut both = open_both(rt.alloc())?;
    is_never_answered(
        &rt,
        &mut both,
        &programs,
        Call::AdaptiveTurn,
        &EVER_MORE_SELDOM,
    )
}

/// The first sent two frames in each of four turns. Of all these one comes to the second.
fn first_of_the_fourth_comes(both: &mut Both) -> Result<(), Fail> {
    match both.wire_a.wire.accepted().get(6) {
        Some(sent) => Ok(both.wire_b.wire.comes(sent.1.bytes())?),
        None => Err(Fail::from("a frame")),
    }
}

/// What the second sent last comes to the first once more.
fn the_last_comes_again(both: &mut Both) -> Result<(), Fail> {
    match both.wire_b.wire.accepted().last() {
        Some(sent) => Ok(both.wire_a.wire.comes(sent.1.bytes())?),
        None => Err(Fail::from("a frame")),
    }
}

/// Of two messages the first is taken at last. With the frame that says so the second goes out as often as a new one, and with a
/// frame that says nothing new too.
#[test]
fn a_frame_that_is_heard_ends_the_back_off(rt: HostRuntime) -> Result<(), Fail> {
    let programs = programs_of(rt.alloc(), TWO_RECORDS, TWO_RECORDS_SESSION)?;
    let mut both = open_both_of(rt.alloc(), TWO_RECORDS)?;
    is_heard(&rt, &mut both, &programs)
}

fn is_heard<R: Wait + Abort>(rt: &R, both: &mut Both, programs: &[Program]) -> Result<(), Fail> {
    let Some(program) = programs.get(0) else {
        return Err(Fail::from("a session"));
    };
    let call = Call::AdaptiveTurn;
    assert_eq!(rt; submit(rt, &mut both.a, program), Some(1));
    goes_out(rt, both, call, &[(0, 2), (50, 2), (150, 2), (350, 2)])?;
    first_of_the_fourth_comes(both)?;
    assert_eq!(rt; broke_off(turn(rt, &mut both.b, &mut both.wire_b, 350))?, 0);
    both.carry_back()?;
    assert_eq!(rt; broke_off(both.turn_a(rt, call, 360))?, 0);
    goes_out(rt, both, call, &AFTER_AN_ANSWER)?;
    the_last_comes_again(both)?;
    assert_eq!(rt; broke_off(both.turn_a(rt, call, 560))?, 0);
    goes_out(rt, both, call, &AFTER_IT_CAME_AGAIN)
}
