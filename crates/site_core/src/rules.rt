//! What the rules do to an office. Each asks its guard first, and takes memory before it changes anything.

ghost use Rattle.std.specs.Prelude.{◌≡◌, ◌↔◌, ◌<◌, ◌⊎◌, ℕ, Err, true, false, map, IsErr, IfOk, IfErr, OnOk, OnErr, if◌then◌else◌};
ghost use Rattle.bottle_values.specs.Maps.{reads_of};
ghost use Rattle.dining_core.specs.Diners as forks;
ghost use Rattle.drinking_core.specs.refinement.Bars.{drinker_of};
ghost use Rattle.office_journal.specs.declared.rule.Rule.TheVariants as rules;
ghost use Rattle.office_journal.specs.declared.reply.Refusal.TheVariants as refusals;
ghost use Rattle.site_core.specs.agendas.Agenda as sessions;
ghost use Rattle.site_core.specs.Offices as offices;
ghost use Rattle.site_core.specs.neighbours.refinement.PairsOfCode.{pairs_of, IsOf, HaveRoom, HaveValues};
ghost use Rattle.site_core.specs.agendas.refinement.AgendaOfCode.{Means};
ghost use Rattle.site_core.specs.refinement.OfficeOfCode.{office_at, Stands, AreOurs};

use crate::agendas::Agenda;
use crate::neighbours::Pairs;
use bottle_values::Value;
use dining_core::NotNow;
use drinking_core::Bar;
use office_journal::{Refusal, Rule};
use office_map::RecordId;
use session_meaning::RecordValues;
use session_programs::Program;
use std::alloc::{AllocError, Global};

/// The first waiting session becomes the current one.
fn start(pairs: &mut Pairs, agenda: &mut Agenda) -> Result<(), NotNow>
    requires ours { AreOurs pairs.old agenda.old }
    ensures office { IsOf pairs.old.plan pairs.old.me pairs.new }
    ensures not_now { (a : sessions.Agenda) → Means agenda.old a → IsErr result ↔ (offices.may pairs.old.plan pairs.old.me (office_at pairs.old a) rules.Start ≡ false) }
    ensures done { (a : sessions.Agenda) → Means agenda.old a → OnOk result (Stands pairs.new agenda.new (offices.act pairs.old.me (office_at pairs.old a) rules.Start)) }
    ensures unchanged { OnErr result ((pairs.new ≡ pairs.old) × (agenda.new ≡ agenda.old)) }
{
    pairs.start(agenda.first_needs())?;
    agenda.start();
    Ok(())
}

/// The session's work begins on a copy of the needed values.
fn drink(alloc: Global, pairs: &mut Pairs, agenda: &mut Agenda) -> Result<(), Refusal>
    ensures office { IsOf pairs.old.plan pairs.old.me pairs.new }
    ensures not_now { (a : sessions.Agenda) → Means agenda.old a → (result ≡ Err refusals.NotNow) ↔ (offices.may pairs.old.plan pairs.old.me (office_at pairs.old a) rules.Drink ≡ false) }
    ensures known { IfErr result (λ e. (e ≡ refusals.NotNow) ⊎ (e ≡ refusals.Memory)) }
    ensures done { (a : sessions.Agenda) → Means agenda.old a → OnOk result (Stands pairs.new agenda.new (offices.act pairs.old.me (office_at pairs.old a) rules.Drink)) }
    ensures unchanged { OnErr result ((pairs.new ≡ pairs.old) × (agenda.new ≡ agenda.old)) }
{
    if !pairs.bar().may_drink() {
        return Err(Refusal::NotNow);
    }
    gather(alloc, pairs.bar(), agenda)?;
    pairs.drink()?;
    Ok(())
}

/// The session that waits for its bottles, if there is one, works on their values from now on.
#[tactic(auto, using(crate::proofs::SessionsAreOurs::none_begins))]
fn gather(alloc: Global, bar: &Bar, agenda: &mut Agenda) -> Result<(), AllocError>
    ensures done { (a : sessions.Agenda) → Means agenda.old a → OnOk result (Means agenda.new (sessions.with_current a (sessions.begun (offices.value_in (drinker_of bar.now)) a.current))) }
    ensures unchanged { OnErr result (agenda.new ≡ agenda.old) }
{
    let Some(session) = agenda.gathering() else {
        return Ok(());
    };
    let reads = values_of(alloc, bar, session.program.needs())?;
    agenda.begin(alloc, reads)?;
    Ok(())
}

/// The values of these records, each with its number.
#[tactic(auto, using(crate::proofs::SessionsAreOurs::one_read_more))]
fn values_of(alloc: Global, bar: &Bar, needs: &[RecordId]) -> Result<RecordValues, AllocError>
    ensures { IfOk result (λ v. v ≡ reads_of needs.now (offices.value_in (drinker_of bar.now))) }
{
    let mut reads = RecordValues::with_capacity(alloc, needs.len())?;
    for r in needs {
        let value = value_of(bar, *r);
        reads.push(*r, value)?;
    }
    Ok(reads)
}

/// The value of a record's bottle, if that is here.
fn value_of(bar: &Bar, r: RecordId) -> Value
    ensures { result ≡ offices.value_in (drinker_of bar.now) r }
{
    match bar.value(r) {
        Some(value) => value,
        None => Value::from(0),
    }
}

/// A piece of the session's work is done.
fn work(pairs: &Pairs, agenda: &mut Agenda, n: u16) -> Result<(), NotNow>
    ensures not_now { (a : sessions.Agenda) → Means agenda.old a → IsErr result ↔ (offices.may pairs.now.plan pairs.now.me (office_at pairs.now a) (rules.Work n) ≡ false) }
    ensures done { (a : sessions.Agenda) → Means agenda.old a → OnOk result (Stands pairs.now agenda.new (offices.act pairs.now.me (office_at pairs.now a) (rules.Work n))) }
    ensures unchanged { OnErr result (agenda.new ≡ agenda.old) }
{
    if !agenda.may_work(n) {
        return Err(NotNow);
    }
    agenda.work(n);
    Ok(())
}

/// The session's writes go into its bottles, and its outcome is kept.
fn finish(pairs: &mut Pairs, agenda: &mut Agenda) -> Result<(), Refusal>
    ensures office { IsOf pairs.old.plan pairs.old.me pairs.new }
    ensures not_now { (a : sessions.Agenda) → Means agenda.old a → (result ≡ Err refusals.NotNow) ↔ (offices.may pairs.old.plan pairs.old.me (office_at pairs.old a) rules.Finish ≡ false) }
    ensures known { IfErr result (λ e. (e ≡ refusals.NotNow) ⊎ (e ≡ refusals.Memory)) }
    ensures done { (a : sessions.Agenda) → Means agenda.old a → OnOk result (Stands pairs.new agenda.new (offices.act pairs.old.me (office_at pairs.old a) rules.Finish)) }
    ensures unchanged { OnErr result (pairs.new ≡ pairs.old) }
    ensures agenda_unchanged { (a : sessions.Agenda) → Means agenda.old a → OnErr result (Means agenda.new a) }
{
    if !pairs.bar().phase().is_drinking() || agenda.ending().is_none() {
        return Err(Refusal::NotNow);
    }
    agenda.make_room()?;
    pairs.finish(agenda.writes())?;
    agenda.finish(pairs.me());
    Ok(())
}

/// What a rule does, where its guard holds.
pub fn do_rule(
    alloc: Global,
    pairs: &mut Pairs,
    agenda: &mut Agenda,
    rule: &Rule,
) -> Result<(), Refusal>
    requires room { HaveRoom pairs.old }
    requires values { HaveValues pairs.old }
    requires ours { AreOurs pairs.old agenda.old }
    ensures office { IsOf pairs.old.plan pairs.old.me pairs.new }
    ensures not_now { (a : sessions.Agenda) → Means agenda.old a → (result ≡ Err refusals.NotNow) ↔ (offices.may pairs.old.plan pairs.old.me (office_at pairs.old a) rule.now ≡ false) }
    ensures known { IfErr result (λ e. (e ≡ refusals.NotNow) ⊎ (e ≡ refusals.Memory)) }
    ensures done { (a : sessions.Agenda) → Means agenda.old a → OnOk result (Stands pairs.new agenda.new (offices.act pairs.old.me (office_at pairs.old a) rule.now)) }
    ensures unchanged { OnErr result (pairs.new ≡ pairs.old) }
    ensures agenda_unchanged { (a : sessions.Agenda) → Means agenda.old a → OnErr result (Means agenda.new a) }
{
    match *rule {
        Rule::Start => start(pairs, agenda)?,
        Rule::Hungry => pairs.hungry()?,
        Rule::AskFork(v) => pairs.ask_fork(v)?,
        Rule::GiveFork(v) => pairs.give_fork(v)?,
        Rule::Eat => pairs.eat()?,
        Rule::Leave => pairs.leave()?,
        Rule::AskBottle(r) => pairs.ask_bottle(r)?,
        Rule::GiveBottle(r) => pairs.give_bottle(r)?,
        Rule::Drink => drink(alloc, pairs, agenda)?,
        Rule::Work(n) => work(pairs, agenda, n)?,
        Rule::Finish => finish(pairs, agenda)?,
    }
    Ok(())
}

/// Whether a rule's guard holds.
///
/// Guards of a fork's and of a bottle's asking and giving say first that there is such a neighbour or record of this
/// office. In every office that a journal leads to, the rows of forks and bottles would refuse these by themselves.
pub fn may(pairs: &Pairs, agenda: &Agenda, rule: &Rule) -> bool
    ensures { (a : sessions.Agenda) → Means agenda.now a → result ≡ offices.may pairs.now.plan pairs.now.me (office_at pairs.now a) rule.now }
{
    let thirsty = pairs.bar().phase().is_thirsty();
    match *rule {
        Rule::Start => pairs.bar().phase().is_tranquil() && agenda.first_needs().is_some(),
        Rule::Hungry => pairs.table().may_be_hungry(thirsty),
        Rule::AskFork(v) => {
            pairs.plan().are_neighbours(pairs.me(), v) && pairs.table().may_ask_fork(v)
        }
        Rule::GiveFork(v) => {
            pairs.plan().are_neighbours(pairs.me(), v) && pairs.table().may_give_fork(v)
        }
        Rule::Eat => pairs.may_eat(),
        Rule::Leave => pairs.table().may_leave(thirsty),
        Rule::AskBottle(r) => {
            pairs.plan().has_end(r, pairs.me()) && pairs.bar().may_ask_bottle(r)
        }
        Rule::GiveBottle(r) => {
            pairs.plan().has_end(r, pairs.me()) && pairs.bar().may_give_bottle(r, pairs.table())
        }
        Rule::Drink => pairs.bar().may_drink(),
        Rule::Work(n) => agenda.may_work(n),
        Rule::Finish => pairs.bar().phase().is_drinking() && agenda.ending().is_some(),
    }
}

/// Whether the session with that ticket may be withdrawn.
///
/// Both the current session and the row of the bottles are asked. In every office that a journal leads to, a session
/// gathers just while its office is thirsty; but that is known of whole journals, and the guard is of one office.
pub fn may_withdraw(pairs: &Pairs, agenda: &Agenda, ticket: u32) -> bool
    ensures { (a : sessions.Agenda) → Means agenda.now a → result ≡ offices.may_withdraw (office_at pairs.now a) ticket }
{
    agenda.is_waiting(ticket) || (agenda.is_gathering(ticket) && pairs.bar().may_withdraw())
}

/// The session with that ticket is taken out of those that wait, or the current one ends without an outcome.
pub fn withdraw(pairs: &mut Pairs, agenda: &mut Agenda, ticket: u32) -> Result<(), NotNow>
    ensures office { IsOf pairs.old.plan pairs.old.me pairs.new }
    ensures not_now { (a : sessions.Agenda) → Means agenda.old a → IsErr result ↔ (offices.may_withdraw (office_at pairs.old a) ticket ≡ false) }
    ensures done { (a : sessions.Agenda) → Means agenda.old a → OnOk result (Stands pairs.new agenda.new (offices.withdrawn (office_at pairs.old a) ticket)) }
    ensures unchanged { OnErr result ((pairs.new ≡ pairs.old) × (agenda.new ≡ agenda.old)) }
{
    if agenda.is_waiting(ticket) {
        agenda.withdraw_waiting(ticket);
        return Ok(());
    }
    if !agenda.is_gathering(ticket) {
        return Err(NotNow);
    }
    pairs.withdraw()?;
    agenda.withdraw_current();
    Ok(())
}

/// Why an event is refused for which there is no room: its guard comes first. Where there is room, the guard is looked at once, by
/// the rule itself.
pub fn unless_guarded(guard: bool, refusal: Refusal) -> Refusal
    ensures { result ≡ (if guard then refusal else refusals.NotNow) }
{
    if guard { refusal } else { Refusal::NotNow }
}

/// Whether a program is of the office, and needs no record of another.
pub fn is_ours(pairs: &Pairs, program: &Program) -> bool
    ensures { result ≡ offices.is_ours pairs.now.plan pairs.now.me program.now }
{
    program.office() == pairs.me() && program.fits(pairs.plan())
}
