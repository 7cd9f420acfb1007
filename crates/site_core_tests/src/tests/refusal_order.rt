//! Which refusal is told where two apply at once.

use super::rows::{Step, What, event_of, tell};
use super::{A, GIVES, PAIR, offices, programs, submit};
use office_map::OfficeId;
use session_programs::Program;
use site_core::{MAX_ENTRIES, Office, Refusal, Reply};
use std::alloc::{AllocError, Global};
use std::process::Abort;
use std::test::Fail;

/// How many sessions an office has that aren't finished, and how many entries.
static OFFICES: [(usize, usize); 3] = [(64, 64), (64, MAX_ENTRIES), (1, MAX_ENTRIES)];

/// A frame by what is wrong with it: its version, of which 1 is the plan's; its run, which is 42; its count, of which nothing was sent yet; and
/// its tag, 1 for the fork's request token, which may come, and 2 for the fork, which is held. Then what is told at each of the
/// offices.
static FRAMES: [(u8, u8, u8, u8, [&str; 3]); 19] = [
    (3, 43, 0, 1, ["refused F3 Version; "; 3]),
    (3, 42, 9, 1, ["refused F3 Version; "; 3]),
    (3, 42, 0, 2, ["refused F3 Version; "; 3]),
    (2, 43, 9, 5, ["refused F7 Tag; "; 3]),
    (2, 43, 9, 4, ["refused F8 Length; "; 3]),
    (2, 43, 9, 2, ["refused L1 Stranger; "; 3]),
    (2, 42, 9, 2, ["refused L4 WrongVersion; "; 3]),
    (2, 42, 0, 2, ["refused L4 WrongVersion; "; 3]),
    (2, 42, 0, 1, ["refused L4 WrongVersion; "; 3]),
    (1, 43, 9, 5, ["refused F7 Tag; "; 3]),
    (1, 43, 9, 4, ["refused F8 Length; "; 3]),
    (1, 43, 9, 1, ["refused L1 Stranger; "; 3]),
    (1, 43, 0, 2, ["refused L1 Stranger; "; 3]),
    (1, 42, 9, 2, ["refused L2 AckAhead; "; 3]),
    (3, 42, 0, 1, ["refused F3 Version; "; 3]),
    (1, 43, 0, 1, ["refused L1 Stranger; "; 3]),
    (1, 42, 9, 1, ["refused L2 AckAhead; "; 3]),
    (1, 42, 0, 2, ["refused C1 Breach; "; 3]),
    (
        1,
        42,
        0,
        1,
        [
            "taken; ",
            "refused O4 JournalFull; ",
            "refused O4 JournalFull; ",
        ],
    ),
];

/// An event at office `a`, and what is told of it at each of the offices: a session of the other office, one of its own, a rule
/// whose guard is false, one whose guard holds, a message that doesn't wait, the count, a ticket that wasn't given, and one that
/// may be withdrawn.
static EVENTS: [(Step, [&str; 3]); 8] = [
    (Step(What::Submit, A, 1), ["refused O2 NotOurs; "; 3]),
    (
        Step(What::Submit, A, 0),
        [
            "refused O3 QueueFull; ",
            "refused O3 QueueFull; ",
            "refused O4 JournalFull; ",
        ],
    ),
    (Step(What::Hungry, A, 0), ["refused O1 NotNow; "; 3]),
    (
        Step(What::Start, A, 0),
        [
            "done; ",
            "refused O4 JournalFull; ",
            "refused O4 JournalFull; ",
        ],
    ),
    (Step(What::Send, A, 1), ["refused O1 NotNow; "; 3]),
    (
        Step(What::Send, A, 0),
        [
            "frame 0 1; ",
            "refused O4 JournalFull; ",
            "refused O4 JournalFull; ",
        ],
    ),
    (Step(What::Withdraw, A, 65), ["refused O1 NotNow; "; 3]),
    (
        Step(What::Withdraw, A, 1),
        [
            "done; ",
            "refused O4 JournalFull; ",
            "refused O4 JournalFull; ",
        ],
    ),
];

#[test]
fn the_first_refusal_is_told(rt: HostRuntime) -> Result<(), Fail> {
    let programs = programs(rt.alloc(), PAIR, GIVES)?;
    for (k, (sessions, entries)) in OFFICES.iter().enumerate() {
        tell_at(&rt, rt.alloc(), &programs, k, *sessions, *entries)?;
    }
    Ok(())
}

/// All frames and events at the office of that place.
fn tell_at<R: Abort>(
    rt: &R,
    alloc: Global,
    programs: &[Program],
    k: usize,
    sessions: usize,
    entries: usize,
) -> Result<(), Fail> {
    let mut offices = offices(alloc, PAIR)?;
    match offices.get_mut(A) {
        Some(office) => {
            fill(rt, office, programs, sessions, entries);
            tell_all(rt, alloc, office, programs, k)
        }
        None => Err(Fail::from("an office")),
    }
}

fn tell_all<R: Abort>(
    rt: &R,
    alloc: Global,
    office: &mut Office,
    programs: &[Program],
    k: usize,
) -> Result<(), Fail> {
    tell_frames(rt, alloc, office, k)?;
    tell_events(rt, alloc, office, programs, k)
}

fn tell_frames<R: Abort>(rt: &R, alloc: Global, office: &mut Office, k: usize) -> Result<(), Fail> {
    for (version, run, count, tag, expected) in &FRAMES {
        let reply = office.receive(0, &frame_of(*version, *run, *count, *tag));
        let told = told(alloc, &reply)?;
        assert_eq!(rt; Some(&told.as_str()), expected.get(k), "a frame at {k}");
    }
    Ok(())
}

fn tell_events<R: Abort>(
    rt: &R,
    alloc: Global,
    office: &mut Office,
    programs: &[Program],
    k: usize,
) -> Result<(), Fail> {
    for (step, expected) in &EVENTS {
        let told = told_of(alloc, office, programs, *step)?;
        assert_eq!(rt; Some(&told.as_str()), expected.get(k), "an event at {k}");
    }
    Ok(())
}

fn told_of(
    alloc: Global,
    office: &mut Office,
    programs: &[Program],
    step: Step,
) -> Result<String, Fail> {
    match event_of(programs, step)? {
        Some(event) => Ok(told(alloc, &office.step(0, &event))?),
        None => Err(Fail::from("an event")),
    }
}

/// So many sessions are submitted, and the count is sent until there are so many entries.
fn fill<R: Abort>(
    rt: &R,
    office: &mut Office,
    programs: &[Program],
    sessions: usize,
    entries: usize,
) {
    for _ in 0..sessions {
        assert!(rt; is_submitted(office, programs));
    }
    for _ in sessions..entries {
        assert!(rt; office.send(0, OfficeId::new(1), 0).is_ok());
    }
    assert_eq!(rt; office.journal().len(), entries);
}

/// Whether the office takes the first session.
fn is_submitted(office: &mut Office, programs: &[Program]) -> bool {
    match programs.get(0) {
        Some(program) => submit(office, program).is_ok(),
        None => false,
    }
}

/// A message of 27 bytes from office `b` to office `a`, with number 1.
fn frame_of(version: u8, run: u8, count: u8, tag: u8) -> [u8; 27] {
    [
        0x44, 0x50, version, 1, 0, 0, 0, run, 1, 0, 0, 0, 0, 0, 0, 0, 0, 1, 0, 0, 0, 0, 0, 0, 0,
        count, tag,
    ]
}

fn told(alloc: Global, reply: &Result<Reply, Refusal>) -> Result<String, AllocError> {
    let mut text = String::new(alloc);
    tell(&mut text, reply)?;
    Ok(text)
}
