//! Offices of a plan of version 2, whose records have texts.

use super::hostile_frames::{ASKS, GIVES, go_on, receives};
use super::rows::{Step, What, played, take_steps};
use super::{A, offices, programs};
use bottle_values::{Text, Value};
use frame_codec::{Frame, MAX_LENGTH, encode};
use office_map::RecordId;
use session_programs::Program;
use site_core::Office;
use std::alloc::Global;
use std::process::Abort;
use std::test::Fail;

const B: usize = 1;

/// Two offices, and three records of theirs.
const TEXTS: &str =
    "plan 2 run 42\noffice a -\noffice b -\npair a b fork a\nrecord x a b \"no\" at a\nrecord y a b \"hi\" at b\nrecord z a b \"-yes\" at b\n";

/// The same offices, with a number beside a text at the first of them.
const BOTH: &str =
    "plan 2 run 42\noffice a -\noffice b -\npair a b fork a\nrecord x a b \"no\" at a\nrecord y a b 7 at a\n";

const JOINS: &str = "session a\nset x = read x + read y\ngive read y\nend\n";

const READS_TWO: &str = "session a\ngive read y + read z\nend\n";

/// A session that changes a text, and one that adds it to a number.
const MISMATCHES: &str =
    "session a\nrequire read x == \"no\" else 3\nset x = read x + \"-yes\"\ngive read x\nend\nsession a\nset x = read x + read y\nend\n";

/// The frame that brings a text: of run 42, from office 1 to office 0, with number 1, count 1, and the bottle of record 1 with "hi".
const ANSWER: [u8; 33] =
    *b"\x44\x50\x02\x01\x00\x00\x00\x2a\x01\x00\x00\x00\x00\x00\x00\x00\x00\x01\x00\x00\x00\x00\x00\x00\x00\x01\x04\x00\x01\x02\x02\x68\x69";

/// The same of version 01, with the number 0 in place of the text.
const FIRST: [u8; 37] =
    *b"\x44\x50\x01\x01\x00\x00\x00\x2a\x01\x00\x00\x00\x00\x00\x00\x00\x00\x01\x00\x00\x00\x00\x00\x00\x00\x01\x04\x00\x01\x00\x00\x00\x00\x00\x00\x00\x00";

/// Two bottles are asked for and given; the second comes before the first, and is kept.
const KEEPS: [Step; 17] = [
    Step(What::Submit, A, 0),
    Step(What::Start, A, 0),
    Step(What::AskBottle, A, 1),
    Step(What::AskBottle, A, 2),
    Step(What::Send, A, 1),
    Step(What::Send, A, 2),
    Step(What::Deliver, 0, 1),
    Step(What::Deliver, 0, 2),
    Step(What::GiveBottle, B, 1),
    Step(What::GiveBottle, B, 2),
    Step(What::Send, B, 1),
    Step(What::Send, B, 2),
    Step(What::Deliver, 0, 4),
    Step(What::Deliver, 0, 3),
    Step(What::Drink, A, 0),
    Step(What::Work, A, 100),
    Step(What::Finish, A, 0),
];

/// A plan, sessions, steps, and what is answered.
static ROWS: [(&str, &str, &[Step], &str); 3] = [
    (
        TEXTS,
        JOINS,
        &[
            Step(What::Submit, A, 0),
            Step(What::Start, A, 0),
            Step(What::Hungry, A, 0),
            Step(What::Eat, A, 0),
            Step(What::AskBottle, A, 1),
            Step(What::Send, A, 1),
            Step(What::Deliver, 0, 1),
            Step(What::GiveBottle, B, 1),
            Step(What::Send, B, 1),
            Step(What::Deliver, 0, 2),
            Step(What::Drink, A, 0),
            Step(What::Leave, A, 0),
            Step(What::Work, A, 100),
            Step(What::Finish, A, 0),
            Step(What::Deliver, 0, 2),
        ],
        "ticket 1; done; done; done; done; frame 1 0; taken; done; frame 1 1; taken; done; done; done; done; repeat; 0.1 Done reads 0=\"no\" 1=\"hi\" writes 0=\"nohi\" gives \"hi\"; ",
    ),
    (
        TEXTS,
        READS_TWO,
        &KEEPS,
        "ticket 1; done; done; done; frame 1 0; frame 2 0; taken; taken; done; done; frame 1 2; frame 2 2; kept; taken; done; done; done; 0.1 Done reads 1=\"hi\" 2=\"-yes\" writes gives \"hi-yes\"; ",
    ),
    (
        BOTH,
        MISMATCHES,
        &[
            Step(What::Submit, A, 0),
            Step(What::Submit, A, 1),
            Step(What::Start, A, 0),
            Step(What::Drink, A, 0),
            Step(What::Work, A, 100),
            Step(What::Finish, A, 0),
            Step(What::Start, A, 0),
            Step(What::Drink, A, 0),
            Step(What::Work, A, 100),
            Step(What::Finish, A, 0),
        ],
        "ticket 1; ticket 2; done; done; done; done; done; done; done; done; 0.1 Done reads 0=\"no\" writes 0=\"no-yes\" gives \"no-yes\"; 0.2 Mismatch reads 0=\"no-yes\" 1=7 writes gives; ",
    ),
];

#[test]
fn offices_with_texts_do_as_the_rows_say(rt: HostRuntime) -> Result<(), Fail> {
    for (plan, sessions, steps, expected) in &ROWS {
        let told = played(rt.alloc(), plan, sessions, steps)?;
        assert_eq!(rt; told.as_str(), *expected);
    }
    Ok(())
}

// ---- frames

#[test]
fn an_office_sends_the_version_of_its_plan(rt: HostRuntime) -> Result<(), Fail> {
    let programs = programs(rt.alloc(), TEXTS, JOINS)?;
    let mut offices = offices(rt.alloc(), TEXTS)?;
    let frames = frames_of(rt.alloc(), &mut offices, &programs, &ASKS, &GIVES)?;
    let mut bytes = [0; MAX_LENGTH];
    match frames.last() {
        Some(frame) => {
            let length = encode(frame, &mut bytes);
            assert_eq!(rt; &bytes[..length], &ANSWER[..]);
            Ok(())
        }
        None => Err(Fail::from("a frame")),
    }
}

/// The frames that are made where the offices take these steps, and then those.
fn frames_of(
    alloc: Global,
    offices: &mut Vec<Office>,
    programs: &[Program],
    steps: &[Step],
    more: &[Step],
) -> Result<Vec<Frame>, Fail> {
    let mut text = String::new(alloc);
    let mut frames = Vec::new(alloc);
    take_steps(&mut text, offices, &mut frames, programs, steps)?;
    take_steps(&mut text, offices, &mut frames, programs, more)?;
    Ok(frames)
}

/// The frame that brings a text, with one byte altered or left out: what an office answers that waits for it.
#[test]
fn an_office_takes_in_a_text(rt: HostRuntime) -> Result<(), Fail> {
    let programs = programs(rt.alloc(), TEXTS, JOINS)?;
    let mut offices = offices(rt.alloc(), TEXTS)?;
    go_on(rt.alloc(), &mut offices, &programs, &ASKS, &GIVES)?;
    match offices.get_mut(A) {
        Some(office) => takes_in(&rt, rt.alloc(), office),
        None => Err(Fail::from("an office")),
    }
}

fn takes_in<R: Abort>(rt: &R, alloc: Global, office: &mut Office) -> Result<(), Fail> {
    let mut other = ANSWER;
    other[29] = 0x03;
    is_answered(rt, alloc, office, &other, "refused F9 ValueForm; ")?;
    other = ANSWER;
    other[30] = 0x41;
    is_answered(rt, alloc, office, &other, "refused F9 ValueForm; ")?;
    is_answered(rt, alloc, office, &ANSWER[..32], "refused F8 Length; ")?;
    other = ANSWER;
    other[31] = 0x22;
    is_answered(rt, alloc, office, &other, "refused F10 TextByte; ")?;
    is_answered(rt, alloc, office, &FIRST, "refused L4 WrongVersion; ")?;
    assert_eq!(rt; office.held_value(RecordId::new(1)), None);
    is_answered(rt, alloc, office, &ANSWER, "taken; ")?;
    let text = Text::of(b"hi").map(Value::Text);
    assert_eq!(rt; office.held_value(RecordId::new(1)), text);
    is_answered(rt, alloc, office, &ANSWER, "repeat; ")
}

/// What is answered to these bytes. What is refused changes nothing.
fn is_answered<R: Abort>(
    rt: &R,
    alloc: Global,
    office: &mut Office,
    bytes: &[u8],
    expected: &str,
) -> Result<(), Fail> {
    let mut text = String::new(alloc);
    receives(&mut text, office, bytes)?;
    assert_eq!(rt; text.as_str(), expected, "{bytes:?}");
    Ok(())
}

// ---- journals

// ---- sessions with a text under a plan of version 1
