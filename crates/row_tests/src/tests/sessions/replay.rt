use bottle_values::Value;
use office_map::{Plan, RecordId};
use serial_replay::{Replay, serial};
use session_language::read_sessions;
use session_meaning::{End, Ending, Gives, Outcome};
use std::alloc::{AllocError, Global};
use std::fmt::Write;
use std::test::Fail;

/// Two offices, and two records of theirs.
const PAIR: &str =
    "plan 1 run 42\noffice a -\noffice b -\npair a b fork a\nrecord x a b 100 at a\nrecord y a b 0 at b\n";

/// Sessions of the two offices, and what is told of them and of the records.
static SESSIONS: [(&str, &str); 10] = [
    (
        "session a\nlet v = read x\nset x = v - 30\nset y = read y + 30\ngive read x\ngive read y\nend\n",
        "a.1 done reads x=100 y=0 writes x=70 y=30 gives 70 30\nvalue x 70\nvalue y 30\n",
    ),
    ("", "value x 100\nvalue y 0\n"),
    (
        "session a\nset x = 1\nset x = 9223372036854775807 + 1\nend\n",
        "a.1 overflow reads x=100 writes - gives -\nvalue x 100\nvalue y 0\n",
    ),
    (
        "session a\nset x = read x - 100\nrequire read x >= 0 else 7\nend\n",
        "a.1 done reads x=100 writes x=0 gives -\nvalue x 0\nvalue y 0\n",
    ),
    (
        "session a\ngive 3\nset x = 5\nrequire read x == 6 else 65535\nend\nsession b\nset y = read x\nend\nsession a\nend\n",
        "a.1 refused 65535 reads x=100 writes - gives -\nb.1 done reads x=100 y=0 writes y=100 gives -\na.2 done reads - writes - gives -\nvalue x 100\nvalue y 100\n",
    ),
    (
        "session b\nset y = 4\nset y = read y * 2\nset x = read y\nend\n",
        "b.1 done reads x=100 y=0 writes x=8 y=8 gives -\nvalue x 8\nvalue y 8\n",
    ),
    (
        "session a\ngive 1 - 2 - 3\ngive 2 + 3 * 4\ngive -2 * 3\ngive --5\ngive (1+2)*-(3)\nend\n",
        "a.1 done reads - writes - gives -4 14 -6 5 -9\nvalue x 100\nvalue y 0\n",
    ),
    (
        "session a\nlet v = 1\nlet v = v + v\nlet w = v - 5\ngive w\ngive v\nend\n",
        "a.1 done reads - writes - gives -3 2\nvalue x 100\nvalue y 0\n",
    ),
    (
        "session a\nlet m = -9223372036854775807 - 1\nset x = m\ngive m\nend\nsession b\ngive -read x\nend\n",
        "a.1 done reads x=100 writes x=-9223372036854775808 gives -9223372036854775808\nb.1 overflow reads x=-9223372036854775808 writes - gives -\nvalue x -9223372036854775808\nvalue y 0\n",
    ),
    (
        "session a\nrequire 1 < 1 else 3\nend\nsession a\nrequire 1 <= 1 else 4\nrequire 2 > 1 else 5\nrequire 1 >= 1 else 6\nrequire 1 != 1 else 0\nend\n",
        "a.1 refused 3 reads - writes - gives -\na.2 refused 0 reads - writes - gives -\nvalue x 100\nvalue y 0\n",
    ),
];

#[test]
fn sessions_of_two_offices(rt: HostRuntime) -> Result<(), Fail> {
    for (sessions, expected) in &SESSIONS {
        let told = told(rt.alloc(), PAIR, sessions)?;
        assert_eq!(rt; told.as_str(), *expected, "of {sessions:?}");
    }
    Ok(())
}

/// What a serial run of these sessions shows.
fn told(alloc: Global, plan: &str, sessions: &str) -> Result<String, Fail> {
    let plan = Plan::read(alloc, plan.as_bytes())?;
    let programs = read_sessions(alloc, sessions.as_bytes(), &plan)?;
    let replay = serial(alloc, &plan, programs.as_slice())?;
    Ok(described(alloc, &plan, &replay)?)
}

fn described(alloc: Global, plan: &Plan, replay: &Replay) -> Result<String, AllocError> {
    let mut text = String::new(alloc);
    for outcome in &replay.outcomes {
        describe_outcome(&mut text, plan, outcome)?;
    }
    let mut number = 0u16;
    for value in &replay.values {
        text.push_str("value ")?;
        push_name(&mut text, plan, RecordId::new(number))?;
        write!(text, " {}\n", value)?;
        number = number.wrapping_add(1);
    }
    Ok(text)
}

fn describe_outcome(text: &mut String, plan: &Plan, outcome: &Outcome) -> Result<(), AllocError> {
    if outcome.office.index() >= plan.offices() {
        return text.push_str("no such office\n");
    }
    let office = plan.office_name(outcome.office);
    let ticket = outcome.ticket;
    write!(text, "{office}.{ticket} ")?;
    describe_ending(text, plan, &outcome.ending)
}

fn describe_ending(text: &mut String, plan: &Plan, ending: &Ending) -> Result<(), AllocError> {
    match ending.end {
        End::Done => text.push_str("done")?,
        End::Refused(code) => write!(text, "refused {code}")?,
        End::Overflow => text.push_str("overflow")?,
        End::Mismatch => text.push_str("mismatch")?,
    }
    text.push_str(" reads")?;
    describe_records(text, plan, ending.reads.as_slice())?;
    text.push_str(" writes")?;
    describe_records(text, plan, ending.writes.as_slice())?;
    text.push_str(" gives")?;
    describe_gives(text, &ending.gives)?;
    text.push('\n')
}

fn describe_records(
    text: &mut String,
    plan: &Plan,
    records: &[(RecordId, Value)],
) -> Result<(), AllocError> {
    if records.is_empty() {
        return text.push_str(" -");
    }
    for (record, value) in records {
        text.push(' ')?;
        push_name(text, plan, *record)?;
        write!(text, "={}", value)?;
    }
    Ok(())
}

fn describe_gives(text: &mut String, gives: &Gives) -> Result<(), AllocError> {
    if gives.len() == 0 {
        return text.push_str(" -");
    }
    for i in 0..gives.len() {
        write!(text, " {}", gives.get(i))?;
    }
    Ok(())
}

fn push_name(text: &mut String, plan: &Plan, record: RecordId) -> Result<(), AllocError> {
    if record.index() < plan.records() {
        text.push_str(plan.record_name(record))
    } else {
        text.push_str("?")
    }
}
