//! Frames that are altered, cut short or made up, as they come to an office that waits for a bottle: what is answered, that what is
//! refused changes nothing, and that the honest frame is taken after it.

use super::rows::{Step, What, take_steps, tell};
use super::{A, MOVE, PAIR, offices, programs};
use bottle_values::Value;
use office_map::{OfficeId, RecordId};
use session_programs::Program;
use site_core::{Office, Reply};
use std::alloc::Global;
use std::process::Abort;
use std::test::Fail;

const B: usize = 1;

/// The session of the first office has asked for the second record's bottle, which the second office has.
pub static ASKS: [Step; 6] = [
    Step(What::Submit, A, 0),
    Step(What::Start, A, 0),
    Step(What::Hungry, A, 0),
    Step(What::Eat, A, 0),
    Step(What::AskBottle, A, 1),
    Step(What::Send, A, 1),
];

/// And that one gives it.
pub static GIVES: [Step; 3] = [
    Step(What::Deliver, 0, 1),
    Step(What::GiveBottle, B, 1),
    Step(What::Send, B, 1),
];

/// The frame that brings it: of run 42, from office 1 to office 0, with number 1, count 1, and the bottle of record 1 with 0.
const ANSWER: [u8; 37] =
    *b"\x44\x50\x01\x01\x00\x00\x00\x2a\x01\x00\x00\x00\x00\x00\x00\x00\x00\x01\x00\x00\x00\x00\x00\x00\x00\x01\x04\x00\x01\x00\x00\x00\x00\x00\x00\x00\x00";

/// The same in version 02, where the form of a number stands before the value.
const SECOND: [u8; 38] =
    *b"\x44\x50\x02\x01\x00\x00\x00\x2a\x01\x00\x00\x00\x00\x00\x00\x00\x00\x01\x00\x00\x00\x00\x00\x00\x00\x01\x04\x00\x01\x01\x00\x00\x00\x00\x00\x00\x00\x00";

/// Of the bytes from one place up to another all bits are turned, one byte at a time: what is answered, and then to the frame itself.
static TURNED: [(usize, usize, &str, &str); 11] = [
    (0, 2, "refused F2 Magic; ", "taken; "),
    (2, 3, "refused F3 Version; ", "taken; "),
    (3, 4, "refused F4 Kind; ", "taken; "),
    (4, 10, "refused L1 Stranger; ", "taken; "),
    (10, 12, "refused F5 Number; ", "taken; "),
    (12, 18, "early; ", "taken; "),
    (18, 20, "refused F6 Count; ", "taken; "),
    (20, 26, "refused L2 AckAhead; ", "taken; "),
    (26, 27, "refused F7 Tag; ", "taken; "),
    (27, 29, "refused C1 Breach; ", "taken; "),
    // An altered value isn't seen.
    (29, 37, "taken; ", "repeat; "),
];

/// What an office tells: how many entries it has, what it took and what waits for its neighbour, and the values of both records.
#[derive(Clone, Copy, PartialEq, Eq)]
struct Standing {
    entries: usize,
    taken: Option<u64>,
    waiting: Option<(u64, usize)>,
    first: Option<Value>,
    second: Option<Value>,
}

fn standing_of(office: &Office) -> Standing {
    Standing {
        entries: office.journal().len(),
        taken: office.taken(OfficeId::new(1)),
        waiting: office.waiting(OfficeId::new(1)),
        first: held(office, 0),
        second: held(office, 1),
    }
}

fn held(office: &Office, r: u16) -> Option<Value> {
    office.held_value(RecordId::new(r))
}

/// What the office answers to these bytes. Where it refuses them it is as it was.
pub fn receives(text: &mut String, office: &mut Office, bytes: &[u8]) -> Result<(), Fail> {
    let before = standing_of(office);
    let reply = office.receive(0, bytes);
    if reply.is_err() && standing_of(office) != before {
        return Err(Fail::from("an office as it was"));
    }
    Ok(tell(text, &reply)?)
}

/// The offices take these steps, and then those.
pub fn go_on(
    alloc: Global,
    offices: &mut Vec<Office>,
    programs: &[Program],
    steps: &[Step],
    more: &[Step],
) -> Result<(), Fail> {
    let mut text = String::new(alloc);
    let mut frames = Vec::new(alloc);
    take_steps(&mut text, offices, &mut frames, programs, steps)?;
    take_steps(&mut text, offices, &mut frames, programs, more)
}

/// What the office that waits for the bottle answers to these bytes, and then to the frame that brings it.
fn answers(alloc: Global, programs: &[Program], bytes: &[u8]) -> Result<(String, String), Fail> {
    let mut offices = offices(alloc, PAIR)?;
    answers_at(alloc, &mut offices, programs, bytes)
}

fn answers_at(
    alloc: Global,
    offices: &mut Vec<Office>,
    programs: &[Program],
    bytes: &[u8],
) -> Result<(String, String), Fail> {
    go_on(alloc, offices, programs, &ASKS, &GIVES)?;
    match offices.get_mut(A) {
        Some(office) => told(alloc, office, bytes),
        None => Err(Fail::from("an office")),
    }
}

fn told(alloc: Global, office: &mut Office, bytes: &[u8]) -> Result<(String, String), Fail> {
    let mut first = String::new(alloc);
    receives(&mut first, office, bytes)?;
    let mut second = String::new(alloc);
    receives(&mut second, office, &ANSWER)?;
    Ok((first, second))
}

fn is_answered<R: Abort>(
    rt: &R,
    alloc: Global,
    programs: &[Program],
    bytes: &[u8],
    first: &str,
    second: &str,
) -> Result<(), Fail> {
    let told = answers(alloc, programs, bytes)?;
    assert_eq!(rt; told.0.as_str(), first, "{bytes:?}");
    assert_eq!(rt; told.1.as_str(), second, "{bytes:?}");
    Ok(())
}

#[test]
fn each_byte_of_a_frame_is_turned(rt: HostRuntime) -> Result<(), Fail> {
    let programs = programs(rt.alloc(), PAIR, MOVE)?;
    let mut next = 0;
    for (from, to, first, second) in &TURNED {
        assert_eq!(rt; *from, next);
        for at in *from..*to {
            let mut bytes = ANSWER;
            assert!(rt; at < bytes.len());
            bytes[at] ^= 0xff;
            is_answered(&rt, rt.alloc(), &programs, &bytes, first, second)?;
        }
        next = *to;
    }
    assert_eq!(rt; next, ANSWER.len());
    Ok(())
}

#[test]
fn each_length_of_a_frame_but_its_own_is_refused(rt: HostRuntime) -> Result<(), Fail> {
    let programs = programs(rt.alloc(), PAIR, MOVE)?;
    for end in 0..ANSWER.len() {
        let fault = if end < 26 {
            "refused F1 Short; "
        } else {
            "refused F8 Length; "
        };
        is_answered(&rt, rt.alloc(), &programs, &ANSWER[..end], fault, "taken; ")?;
    }
    let mut longer = [0; 38];
    longer[..37].copy_from_slice(&ANSWER);
    let fault = "refused F8 Length; ";
    is_answered(&rt, rt.alloc(), &programs, &longer, fault, "taken; ")
}

/// A frame that version 02 spells is of another version than the plan, and what isn't spelled so is no frame.
#[test]
fn frames_of_the_other_version_are_refused(rt: HostRuntime) -> Result<(), Fail> {
    let programs = programs(rt.alloc(), PAIR, MOVE)?;
    let fault = "refused L4 WrongVersion; ";
    is_answered(&rt, rt.alloc(), &programs, &SECOND, fault, "taken; ")?;
    is_answered(
        &rt,
        rt.alloc(),
        &programs,
        &SECOND[..26],
        "refused F8 Length; ",
        "taken; ",
    )?;
    is_answered(
        &rt,
        rt.alloc(),
        &programs,
        &SECOND[..37],
        "refused F8 Length; ",
        "taken; ",
    )?;
    let mut other = SECOND;
    other[29] = 3;
    is_answered(
        &rt,
        rt.alloc(),
        &programs,
        &other,
        "refused F9 ValueForm; ",
        "taken; ",
    )?;
    other[2] = 3;
    is_answered(
        &rt,
        rt.alloc(),
        &programs,
        &other,
        "refused F3 Version; ",
        "taken; ",
    )
}

/// What the value's last byte is turned into is what the office has then.
#[test]
fn an_altered_value_is_not_seen(rt: HostRuntime) -> Result<(), Fail> {
    let programs = programs(rt.alloc(), PAIR, MOVE)?;
    let mut offices = offices(rt.alloc(), PAIR)?;
    let value = value_after(rt.alloc(), &mut offices, &programs)?;
    assert_eq!(rt; value, Some(Value::from(255)));
    Ok(())
}

fn value_after(
    alloc: Global,
    offices: &mut Vec<Office>,
    programs: &[Program],
) -> Result<Option<Value>, Fail> {
    go_on(alloc, offices, programs, &ASKS, &GIVES)?;
    let mut bytes = ANSWER;
    bytes[36] ^= 0xff;
    match offices.get_mut(A) {
        Some(office) => Ok(value_taken(office, &bytes)),
        None => Ok(None),
    }
}

fn value_taken(office: &mut Office, bytes: &[u8]) -> Option<Value> {
    match office.receive(0, bytes) {
        Ok(Reply::Taken) => held(office, 1),
        _ => None,
    }
}

// ---- a peer that lies

/// Frames of office 1 by number, count and tag; a request token or a bottle is record 1's. What the office answers that has asked for
/// that bottle, to one after the other, and then the first number that waits there, and how many wait.
static LIES: [(u8, u8, u8, &str, (u64, usize)); 9] = [
    // The request token waits here, so it can't come; nor can it with a count of what wasn't sent.
    (1, 0, 3, "refused C1 Breach; ", (1, 1)),
    (1, 2, 3, "refused L2 AckAhead; ", (1, 1)),
    // The fork is here: it can't come, and the count that it brings isn't used.
    (1, 1, 2, "refused C1 Breach; ", (1, 1)),
    // Early ones are kept up to 18 past what was taken.
    (19, 0, 1, "early; ", (1, 1)),
    (18, 0, 1, "kept; ", (1, 1)),
    (2, 0, 2, "kept; ", (1, 1)),
    // Once the count says that it was taken, the token may come back. The fork that was kept behind it is thrown out.
    (1, 1, 3, "taken; ", (2, 0)),
    // A message with a number that was taken is passed over, whatever it brings.
    (1, 1, 4, "repeat; ", (2, 0)),
    // The bottle of the record that nobody gave: the office can't know.
    (2, 1, 4, "taken; ", (2, 0)),
];

/// The bytes of such a frame, of which so many are its own. A bottle has the value 0.
fn lie(number: u8, count: u8, tag: u8) -> ([u8; 37], usize) {
    let mut bytes = ANSWER;
    bytes[17] = number;
    bytes[25] = count;
    bytes[26] = tag;
    let length = match tag {
        1 | 2 => 27,
        3 => 29,
        _ => 37,
    };
    (bytes, length)
}

#[test]
fn a_peer_lies(rt: HostRuntime) -> Result<(), Fail> {
    let programs = programs(rt.alloc(), PAIR, MOVE)?;
    let mut offices = offices(rt.alloc(), PAIR)?;
    lies(&rt, rt.alloc(), &mut offices, &programs)
}

fn lies<R: Abort>(
    rt: &R,
    alloc: Global,
    offices: &mut Vec<Office>,
    programs: &[Program],
) -> Result<(), Fail> {
    go_on(alloc, offices, programs, &ASKS, &[])?;
    match offices.get_mut(A) {
        Some(office) => hears_lies(rt, alloc, office),
        None => Err(Fail::from("an office")),
    }
}

fn hears_lies<R: Abort>(rt: &R, alloc: Global, office: &mut Office) -> Result<(), Fail> {
    for (number, count, tag, expected, waiting) in &LIES {
        let told = hears_lie(alloc, office, lie(*number, *count, *tag))?;
        assert_eq!(rt; told.as_str(), *expected, "{number} {count} {tag}");
        assert_eq!(rt; standing_of(office).waiting, Some(*waiting));
    }
    Ok(())
}

fn hears_lie(alloc: Global, office: &mut Office, frame: ([u8; 37], usize)) -> Result<String, Fail> {
    let (bytes, length) = frame;
    let mut text = String::new(alloc);
    if length <= bytes.len() {
        receives(&mut text, office, &bytes[..length])?;
    }
    Ok(text)
}
