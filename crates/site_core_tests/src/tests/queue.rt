//! How many sessions an office takes, and which tickets it gives.

use super::{A, GIVES, PAIR, offices, programs, submit};
use session_meaning::Outcome;
use session_programs::Program;
use site_core::{MAX_UNFINISHED, Office, Refusal, Reply, Rule};
use std::process::Abort;
use std::test::Fail;

/// What is called at an office.
#[derive(Clone, Copy)]
enum Call {
    Submit,
    Start,
    Drink,
    Work,
    Finish,
    Withdraw(u32),
}

/// What is answered.
#[derive(Clone, Copy)]
enum Answer {
    Ticket(u32),
    Done,
    QueueFull,
}

/// A call, what is answered, and how many sessions then are unfinished, how many were submitted, and how many entries there are.
struct Called(Call, Answer, [usize; 3]);

/// Of 64 sessions the current one and a waiting one are withdrawn, and one that takes their room; those with the tickets 2, 4 and 5
/// finish.
static THREE_ARE_WITHDRAWN: [Called; 20] = [
    Called(Call::Start, Answer::Done, [64, 64, 65]),
    Called(Call::Withdraw(1), Answer::Done, [63, 64, 66]),
    Called(Call::Withdraw(3), Answer::Done, [62, 64, 67]),
    Called(Call::Submit, Answer::Ticket(65), [63, 65, 68]),
    Called(Call::Submit, Answer::Ticket(66), [64, 66, 69]),
    Called(Call::Submit, Answer::QueueFull, [64, 66, 69]),
    Called(Call::Withdraw(66), Answer::Done, [63, 66, 70]),
    Called(Call::Submit, Answer::Ticket(67), [64, 67, 71]),
    Called(Call::Start, Answer::Done, [64, 67, 72]),
    Called(Call::Drink, Answer::Done, [64, 67, 73]),
    Called(Call::Work, Answer::Done, [64, 67, 74]),
    Called(Call::Finish, Answer::Done, [63, 67, 75]),
    Called(Call::Start, Answer::Done, [63, 67, 76]),
    Called(Call::Drink, Answer::Done, [63, 67, 77]),
    Called(Call::Work, Answer::Done, [63, 67, 78]),
    Called(Call::Finish, Answer::Done, [62, 67, 79]),
    Called(Call::Start, Answer::Done, [62, 67, 80]),
    Called(Call::Drink, Answer::Done, [62, 67, 81]),
    Called(Call::Work, Answer::Done, [62, 67, 82]),
    Called(Call::Finish, Answer::Done, [61, 67, 83]),
];

/// Tickets, and that of the outcome which is there for each.
static OUTCOMES: [(u32, Option<u32>); 9] = [
    (0, None),
    (1, None),
    (2, Some(2)),
    (3, None),
    (4, Some(4)),
    (5, Some(5)),
    (6, None),
    (66, None),
    (68, None),
];

/// A withdrawn session makes room, has no outcome, and its ticket isn't given again.
#[test]
fn a_withdrawn_session_makes_room(rt: HostRuntime) -> Result<(), Fail> {
    let programs = programs(rt.alloc(), PAIR, GIVES)?;
    let mut offices = offices(rt.alloc(), PAIR)?;
    makes_room(&rt, &mut offices, &programs)
}

fn makes_room<R: Abort>(
    rt: &R,
    offices: &mut Vec<Office>,
    programs: &[Program],
) -> Result<(), Fail> {
    let (Some(office), Some(program)) = (offices.get_mut(A), programs.get(0)) else {
        return Err(Fail::from("an office and a session"));
    };
    fill_queue(rt, office, program);
    call_all(rt, office, program, &THREE_ARE_WITHDRAWN);
    see_outcomes(rt, office);
    Ok(())
}

fn fill_queue<R: Abort>(rt: &R, office: &mut Office, program: &Program) {
    for i in 0..MAX_UNFINISHED {
        let ticket = i as u32 + 1;
        assert_eq!(rt; submit(office, program), Ok(Reply::Ticket(ticket)));
    }
}

/// The office answers each call as the table says.
fn call_all<R: Abort>(rt: &R, office: &mut Office, program: &Program, calls: &[Called]) {
    for (i, Called(call, expected, then)) in calls.iter().enumerate() {
        assert_eq!(rt;
            answered(office, program, *call),
            reply(*expected),
            "call {i}"
        );
        assert_eq!(rt; counts(office), *then, "after call {i}");
    }
}

fn answered(office: &mut Office, program: &Program, call: Call) -> Result<Reply, Refusal> {
    match call {
        Call::Submit => submit(office, program),
        Call::Start => office.act(3, Rule::Start),
        Call::Drink => office.act(3, Rule::Drink),
        Call::Work => office.act(3, Rule::Work(100)),
        Call::Finish => office.act(3, Rule::Finish),
        Call::Withdraw(ticket) => office.withdraw(3, ticket),
    }
}

fn reply(answer: Answer) -> Result<Reply, Refusal> {
    match answer {
        Answer::Ticket(ticket) => Ok(Reply::Ticket(ticket)),
        Answer::Done => Ok(Reply::Done),
        Answer::QueueFull => Err(Refusal::QueueFull),
    }
}

/// How many sessions are unfinished, how many were submitted, and how many entries there are.
fn counts(office: &Office) -> [usize; 3] {
    [
        office.unfinished(),
        office.tickets() as usize,
        office.journal().len(),
    ]
}

fn see_outcomes<R: Abort>(rt: &R, office: &Office) {
    for (ticket, expected) in &OUTCOMES {
        assert_eq!(rt;
            ticket_of(office.outcome(*ticket)),
            *expected,
            "ticket {ticket}"
        );
    }
}

fn ticket_of(outcome: Option<&Outcome>) -> Option<u32> {
    outcome.map(|outcome| outcome.ticket)
}
