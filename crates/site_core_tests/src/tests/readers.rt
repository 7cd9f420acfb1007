//! What can be asked of an office, and a fork that can't come.

use super::{A, PAIR, act, hand_in, offices, take};
use bottle_values::{Value, Version};
use frame_codec::{Frame, Msg};
use office_map::{OfficeId, RecordId};
use site_core::{Event, Journal, Office, Refusal, Reply, Rule};
use std::process::Abort;
use std::test::Fail;
use token_channel::ChannelFault;

/// A fork that is held can't come; its request token can. What can be asked of an office, and what its journal tells.
#[test]
fn an_office_tells_where_it_is(rt: HostRuntime) -> Result<(), Fail> {
    let mut offices = offices(rt.alloc(), PAIR)?;
    tells_where_it_is(&rt, &mut offices)
}

fn tells_where_it_is<R: Abort>(rt: &R, offices: &mut Vec<Office>) -> Result<(), Fail> {
    let Some(office) = offices.get_mut(A) else {
        return Err(Fail::from("an office"));
    };
    give_the_fork(rt, office);
    send_the_fork(rt, office);
    tell_of_links(rt, office);
    tell_of_records(rt, office);
    tell_of_journal(rt, office);
    give_a_bottle(rt, office);
    Ok(())
}

fn give_the_fork<R: Abort>(rt: &R, office: &mut Office) {
    let fork = Frame::data(Version::One, 42, 1, 0, 1, 0, Msg::Fork);
    let refused = Err(Refusal::Channel(ChannelFault::Breach));
    assert_eq!(rt; take(office, 5, fork), refused);
    assert_eq!(rt; office.journal().len(), 0);
    let token = Frame::data(Version::One, 42, 1, 0, 1, 0, Msg::AskFork);
    assert_eq!(rt; take(office, 5, token), Ok(Reply::Taken));
    let give = Rule::GiveFork(OfficeId::new(1));
    assert_eq!(rt; act(office, 5, give), Ok(Reply::Done));
}

fn send_the_fork<R: Abort>(rt: &R, office: &mut Office) {
    let sent = Frame::data(Version::One, 42, 0, 1, 1, 1, Msg::Fork);
    let reply = hand_in(office, 6, Event::Send(OfficeId::new(1), 1));
    assert_eq!(rt; reply, Ok(Reply::Frame(sent)));
}

fn tell_of_links<R: Abort>(rt: &R, office: &Office) {
    let b = OfficeId::new(1);
    assert_eq!(rt; office.waiting(b), Some((1, 1)));
    assert_eq!(rt; office.taken(b), Some(1));
    assert_eq!(rt; office.waiting(office.number()), None);
}

fn tell_of_records<R: Abort>(rt: &R, office: &Office) {
    assert_eq!(rt; held(office, 0), Some(Value::from(100)));
    assert_eq!(rt; held(office, 1), None);
    assert_eq!(rt; office.enabled(Rule::Start), false);
    assert_eq!(rt; office.plan().offices(), 2);
}

fn held(office: &Office, r: u16) -> Option<Value> {
    office.held_value(RecordId::new(r))
}

fn tell_of_journal<R: Abort>(rt: &R, office: &Office) {
    let journal = office.journal();
    assert_eq!(rt; journal.len(), 3);
    for (i, tag) in [Some(5), Some(5), Some(6), None].iter().enumerate() {
        assert_eq!(rt; tag_of(journal, i), *tag, "entry {i}");
    }
}

fn tag_of(journal: &Journal, i: usize) -> Option<u8> {
    match journal.get(i) {
        Some(entry) => Some(entry.tag),
        None => None,
    }
}

/// The bottle waits behind the fork.
fn give_a_bottle<R: Abort>(rt: &R, office: &mut Office) {
    let token = Frame::data(Version::One, 42, 1, 0, 2, 0, Msg::AskBottle(0));
    assert_eq!(rt; take(office, 7, token), Ok(Reply::Taken));
    let give = Rule::GiveBottle(RecordId::new(0));
    assert_eq!(rt; act(office, 7, give), Ok(Reply::Done));
    assert_eq!(rt; leaves(office, 0), Some((2, Value::from(100))));
    assert_eq!(rt; leaves(office, 1), None);
}

/// The number of the message that brings the bottle, and its value.
fn leaves(office: &Office, r: u16) -> Option<(u64, Value)> {
    office.waiting_value(RecordId::new(r))
}

/// A fork is kept though the office has it; by its turn it would be a breach, and is thrown out.
#[test]
fn a_fork_that_was_kept_is_thrown_out(rt: HostRuntime) -> Result<(), Fail> {
    let mut offices = offices(rt.alloc(), PAIR)?;
    throws_out(&rt, &mut offices)
}

fn throws_out<R: Abort>(rt: &R, offices: &mut Vec<Office>) -> Result<(), Fail> {
    let Some(office) = offices.get_mut(A) else {
        return Err(Fail::from("an office"));
    };
    let fork = Frame::data(Version::One, 42, 1, 0, 2, 0, Msg::Fork);
    let token = Frame::data(Version::One, 42, 1, 0, 1, 0, Msg::AskFork);
    assert_eq!(rt; take(office, 0, fork), Ok(Reply::Kept));
    assert_eq!(rt; take(office, 0, token), Ok(Reply::Taken));
    assert_eq!(rt; office.taken(OfficeId::new(1)), Some(1));
    let refused = Err(Refusal::Channel(ChannelFault::Breach));
    assert_eq!(rt; take(office, 0, fork), refused);
    Ok(())
}
