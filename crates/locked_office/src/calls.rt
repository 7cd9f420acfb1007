//! What each call does with the office that its pass holds. It gives the office back.

ghost use Rattle.std.specs.Prelude.{◌≡◌, ◌≢◌, ◌+◌, ◌≤◌, ◌↔◌, ℕ, [], true, None, IsTrue, IfOk, IfSome, OnErr, length, take, drop};
ghost use Rattle.own_lock.specs.Entries.{AddsOnly};
ghost use Rattle.own_lock.specs.Passes.{IsOf};
ghost use Rattle.office_journal.specs.declared.event.Event.TheVariants as events;
ghost use Rattle.site_core.specs.Journals.{IsLegal, Steps, TakesRead};
ghost use Rattle.site_core.specs.Growing.{link_to};
ghost use Rattle.site_core.specs.Limits.{most_entries};
ghost use Rattle.locked_office.specs.Calls.{Stays, Did, tag_of, office_with};
ghost use Rattle.locked_office.specs.Advance.{Advances};
ghost use Rattle.locked_office.specs.Outcomes.{outcome_of, waiting_for};
ghost use Rattle.locked_office.specs.Sends.{WaitsFor, SomeWaits, SendsNumber, framed_as};
ghost use Rattle.locked_office.specs.refinement.Places.{place_at};
ghost use Rattle.locked_office.specs.refinement.Holding.{Holds, GivesBack};

use crate::advance::{Stopped, do_rules};
use frame_codec::{Frame, FrameFault};
use office_map::OfficeId;
use own_lock::{Held, OwnLock, Pass};
use session_meaning::Outcome;
use session_programs::Program;
use site_core::laws::steps_add_their_entry;
use site_core::{Entry, Office, Refusal, Reply};
use std::alloc::{AllocError, Global};

/// The office goes back into the lock.
fn give_back(lock: &OwnLock<Office>, pass: &mut Pass<Office>, held: Held<Office>)
    requires of { IsOf lock.now pass.old }
    requires holds { pass.old.holds ≡ true }
    requires key { (held.plan, held.me) ≡ lock.now.key }
    requires adds { AddsOnly tag_of pass.old.tag pass.old.seen held.entries }
    ensures stays { Stays lock.now pass.old pass.new }
    ensures seen { pass.new.seen ≡ held.entries }
    ensures legal { IsLegal held }
    ensures back { GivesBack pass.old pass.new held }
{
    // Its journal is legal.
    let _ = held.get().journal();
    lock.give(pass, held);
}

/// A session is submitted.
pub fn submit(
    lock: &OwnLock<Office>,
    pass: &mut Pass<Office>,
    mut held: Held<Office>,
    program: &Program,
) -> Result<Reply, Refusal>
    requires { Holds lock.now pass.old held }
    ensures stays { Stays lock.now pass.old pass.new }
    ensures did { Did (λ s s'. Steps s pass.old.tag (events.Submit program.now) result s') lock.now.key pass.old pass.new }
{
    steps_add_their_entry();
    let reply = held.state().submit(pass.tag(), program);
    give_back(lock, pass, held);
    reply
}

/// A session is withdrawn.
pub fn withdraw(
    lock: &OwnLock<Office>,
    pass: &mut Pass<Office>,
    mut held: Held<Office>,
    ticket: u32,
) -> Result<Reply, Refusal>
    requires { Holds lock.now pass.old held }
    ensures stays { Stays lock.now pass.old pass.new }
    ensures did { Did (λ s s'. Steps s pass.old.tag (events.Withdraw ticket) result s') lock.now.key pass.old pass.new }
{
    steps_add_their_entry();
    let reply = held.state().withdraw(pass.tag(), ticket);
    give_back(lock, pass, held);
    reply
}

/// What was read of bytes is taken, or refused for what is wrong with them.
pub fn take_read(
    lock: &OwnLock<Office>,
    pass: &mut Pass<Office>,
    mut held: Held<Office>,
    read: &Result<Frame, FrameFault>,
) -> Result<Reply, Refusal>
    requires { Holds lock.now pass.old held }
    ensures stays { Stays lock.now pass.old pass.new }
    ensures did { Did (λ s s'. TakesRead s pass.old.tag read.now result s') lock.now.key pass.old pass.new }
{
    steps_add_their_entry();
    let reply = held.state().take_read(pass.tag(), read);
    give_back(lock, pass, held);
    reply
}

/// A frame is made.
pub fn send(
    lock: &OwnLock<Office>,
    pass: &mut Pass<Office>,
    mut held: Held<Office>,
    v: OfficeId,
    i: usize,
) -> Result<Reply, Refusal>
    requires { Holds lock.now pass.old held }
    ensures stays { Stays lock.now pass.old pass.new }
    ensures did { Did (λ s s'. Steps s pass.old.tag (events.Send v i) result s') lock.now.key pass.old pass.new }
{
    steps_add_their_entry();
    let reply = held.state().send(pass.tag(), v, i);
    give_back(lock, pass, held);
    reply
}

/// A frame of the message with that number is made, if it waits.
pub fn send_number(
    lock: &OwnLock<Office>,
    pass: &mut Pass<Office>,
    mut held: Held<Office>,
    v: OfficeId,
    number: u64,
) -> Result<Option<Frame>, Refusal>
    requires { Holds lock.now pass.old held }
    ensures stays { Stays lock.now pass.old pass.new }
    ensures did { Did (λ s s'. SendsNumber pass.old.tag v number result s s') lock.now.key pass.old pass.new }
{
    let Some(place) = place_of(held.get(), v, number) else {
        give_back(lock, pass, held);
        return Ok(None);
    };
    steps_add_their_entry();
    let reply = held.state().send(pass.tag(), v, place);
    give_back(lock, pass, held);
    framed(&reply)
}

// Which message it is of those that wait, from 1.
fn place_of(office: &Office, v: OfficeId, number: u64) -> Option<usize>
    ensures place { result ≡ place_at office.now v number }
    ensures few { IfSome result (λ _. length (link_to office.now v).sending.waiting ≤ 18) }
{
    let (first, count) = office.waiting(v)?;
    let place = usize::try_from(number.checked_sub(first)?).ok()?;
    if place < count { Some(place + 1) } else { None }
}

/// The frame that an office's answer brings; none where it brings another reply.
///
/// # Errors
/// What the office refused.
pub fn framed(reply: &Result<Reply, Refusal>) -> Result<Option<Frame>, Refusal>
    ensures { result ≡ framed_as reply.now }
{
    match reply {
        Ok(Reply::Frame(frame)) => Ok(Some(*frame)),
        Ok(_) => Ok(None),
        Err(refusal) => Err(*refusal),
    }
}

/// The rules that come next are done.
pub fn advance(
    lock: &OwnLock<Office>,
    pass: &mut Pass<Office>,
    mut held: Held<Office>,
    most: u32,
) -> Result<u32, Stopped>
    requires { Holds lock.now pass.old held }
    ensures stays { Stays lock.now pass.old pass.new }
    ensures did { Did (λ s s'. Advances pass.old.tag most result s s') lock.now.key pass.old pass.new }
{
    let done = do_rules(held.state(), pass.tag(), most);
    give_back(lock, pass, held);
    done
}

/// The outcome of a ticket is looked up.
pub fn outcome(
    lock: &OwnLock<Office>,
    pass: &mut Pass<Office>,
    held: Held<Office>,
    alloc: Global,
    ticket: u32,
) -> Result<Option<Outcome>, AllocError>
    requires { Holds lock.now pass.old held }
    ensures stays { Stays lock.now pass.old pass.new }
    ensures looked { Did (λ s s'. s' ≡ s) lock.now.key pass.old pass.new }
    ensures outcome { IfOk result (λ o. o ≡ outcome_of (office_with lock.now.key pass.new.seen) ticket) }
    ensures memory { OnErr result (outcome_of (office_with lock.now.key pass.new.seen) ticket ≢ None) }
{
    let outcome = copied_outcome(alloc, held.get(), ticket);
    give_back(lock, pass, held);
    outcome
}

fn copied_outcome(
    alloc: Global,
    office: &Office,
    ticket: u32,
) -> Result<Option<Outcome>, AllocError>
    ensures outcome { IfOk result (λ o. o ≡ outcome_of office.now ticket) }
    ensures memory { OnErr result (outcome_of office.now ticket ≢ None) }
{
    match office.outcome(ticket) {
        Some(outcome) => Ok(Some(outcome.copy(alloc)?)),
        None => Ok(None),
    }
}

/// What waits for a neighbour is looked up.
pub fn waiting(
    lock: &OwnLock<Office>,
    pass: &mut Pass<Office>,
    held: Held<Office>,
    v: OfficeId,
) -> Result<(u64, usize), Refusal>
    requires { Holds lock.now pass.old held }
    ensures stays { Stays lock.now pass.old pass.new }
    ensures looked { Did (λ s s'. s' ≡ s) lock.now.key pass.old pass.new }
    ensures waiting { result ≡ waiting_for (office_with lock.now.key pass.new.seen) v }
    ensures few { IfOk result (λ w. w.1 ≤ 18) }
    ensures range { IfOk result (λ w. w.0 + w.1 ≤ most_entries + 1) }
{
    let waiting = waits(held.get(), v);
    give_back(lock, pass, held);
    waiting
}

fn waits(office: &Office, v: OfficeId) -> Result<(u64, usize), Refusal>
    ensures waiting { result ≡ waiting_for office.now v }
    ensures few { IfOk result (λ w. w.1 ≤ 18) }
    ensures range { IfOk result (λ w. w.0 + w.1 ≤ most_entries + 1) }
{
    office.waiting(v).ok_or(Refusal::NotNow)
}

/// Whether a message waits is looked up.
pub fn some_waits(lock: &OwnLock<Office>, pass: &mut Pass<Office>, held: Held<Office>) -> bool
    requires { Holds lock.now pass.old held }
    ensures stays { Stays lock.now pass.old pass.new }
    ensures looked { Did (λ s s'. s' ≡ s) lock.now.key pass.old pass.new }
    ensures waits { IsTrue result ↔ SomeWaits (office_with lock.now.key pass.new.seen) }
{
    let some = any_waits(held.get());
    give_back(lock, pass, held);
    some
}

fn any_waits(office: &Office) -> bool
    ensures { IsTrue result ↔ SomeWaits office.now }
{
    for k in 0..office.plan().offices() {
        if one_waits(office, OfficeId::new(k as u8)) {
            return true;
        }
    }
    false
}

fn one_waits(office: &Office, v: OfficeId) -> bool
    ensures { IsTrue result ↔ ((n : ℕ) × WaitsFor office.now v n) }
{
    match office.waiting(v) {
        Some((_, count)) => count > 0,
        None => false,
    }
}

/// A part of the journal is copied.
pub fn journal_part(
    lock: &OwnLock<Office>,
    pass: &mut Pass<Office>,
    held: Held<Office>,
    alloc: Global,
    from: usize,
    most: usize,
) -> Result<Vec<Entry>, AllocError>
    requires { Holds lock.now pass.old held }
    ensures stays { Stays lock.now pass.old pass.new }
    ensures looked { Did (λ s s'. s' ≡ s) lock.now.key pass.old pass.new }
    ensures part { IfOk result (λ v. v.items ≡ take most (drop from pass.new.seen)) }
    ensures memory { OnErr result (take most (drop from pass.new.seen) ≢ []) }
{
    let part = held.get().journal().part(alloc, from, most);
    give_back(lock, pass, held);
    part
}
