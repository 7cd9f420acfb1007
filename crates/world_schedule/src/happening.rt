//! An event that is handed to one of the offices: inlined, as an office's own calls are, so that no answer is copied.

ghost use Rattle.std.specs.Prelude.{◌≡◌, ◌<◌, ◌++◌, ◌∷◌, [], List, Err, length, map, get_or, is_ok, nat_le, vec_len, All, IfOk, OnOk, OnErr, if◌then◌else◌};
ghost use Rattle.std.specs.Vec.{vec_capacity};
ghost use Rattle.frame_codec.specs.Frame.{IsFrame};
ghost use Rattle.session_meaning.specs.declared.ending.Outcome.{Outcome};
ghost use Rattle.site_core.specs.Limits.{most_entries};
ghost use Rattle.office_journal.specs.declared.event.Event.TheVariants as events;
ghost use Rattle.office_journal.specs.declared.reply.Refusal.TheVariants as refusals;
ghost use Rattle.office_journal.specs.declared.rule.Rule.TheVariants as rules;
ghost use Rattle.site_core.specs.Journals.{Site, Steps, office_of};
ghost use Rattle.site_core.specs.Offices.{answer};
ghost use Rattle.frame_world.specs.Worlds.{frames_of};
ghost use Rattle.frame_world.specs.Sent.{told_in, sent_by};
ghost use Rattle.world_schedule.specs.Readers.{mark_of, listed_as};
ghost use Rattle.world_schedule.specs.refinement.WorldOfCode.{finishes};
ghost use Rattle.world_schedule.specs.refinement.Handing.{Hands, passed_on};

use crate::finished::Finished;
use frame_codec::Frame;
use frame_world::{SentAt, WorldRefusal};
use office_map::OfficeId;
use session_meaning::Outcome;
use session_programs::Program;
use site_core::{Journal, MAX_ENTRIES, Office, Reply, Rule};

/// A session is submitted at an office.
#[inline(always)]
pub(crate) fn submit(
    offices: &mut Vec<Office>,
    at: OfficeId,
    program: &Program,
) -> Result<Reply, WorldRefusal>
    ensures { Hands offices.old.items at (events.Submit program.now) result offices.new.items }
{
    if at.index() >= offices.len() {
        return Err(WorldRefusal::NoOffice);
    }
    passed_on(offices[at.index()].submit(0, program))
}

/// A session is withdrawn at an office.
#[inline(always)]
pub(crate) fn withdraw(
    offices: &mut Vec<Office>,
    at: OfficeId,
    ticket: u32,
) -> Result<Reply, WorldRefusal>
    ensures { Hands offices.old.items at (events.Withdraw ticket) result offices.new.items }
{
    if at.index() >= offices.len() {
        return Err(WorldRefusal::NoOffice);
    }
    passed_on(offices[at.index()].withdraw(0, ticket))
}

/// An office does a rule.
#[inline(always)]
pub(crate) fn act(
    offices: &mut Vec<Office>,
    at: OfficeId,
    rule: &Rule,
) -> Result<Reply, WorldRefusal>
    ensures { Hands offices.old.items at (events.Do rule.now) result offices.new.items }
{
    if at.index() >= offices.len() {
        return Err(WorldRefusal::NoOffice);
    }
    passed_on(offices[at.index()].act(0, *rule))
}

/// An office finishes a session, which is listed.
///
/// Room is made before an office takes a step, for its frame or its place in the finishing list, so a refusal for want
/// of memory leaves the world as it was. Where there is none, the office is asked what it would refuse, and that is
/// told: `Memory` stands only in place of an acceptance.
#[inline(always)]
pub(crate) fn finish(
    offices: &mut Vec<Office>,
    finished: &mut Vec<Finished>,
    at: OfficeId,
) -> Result<Reply, WorldRefusal>
    ensures office { Hands offices.old.items at (events.Do rules.Finish) result offices.new.items }
    ensures listed { OnOk result ((d : Site) → finished.new.items ≡ finished.old.items ++ map listed_as (finishes (get_or offices.old.items at d) (events.Do rules.Finish))) }
    ensures unlisted { OnErr result (finished.new.items ≡ finished.old.items) }
{
    if at.index() >= offices.len() {
        return Err(WorldRefusal::NoOffice);
    }
    let Ok(()) = finished.reserve(1) else {
        let refusal = not_finished(&offices[at.index()]);
        return Err(WorldRefusal::Office(refusal));
    };
    match offices[at.index()].act(0, Rule::Finish) {
        Ok(reply) => {
            let last = last_of(&offices[at.index()]);
            finished.push_reserved(last);
            Ok(reply)
        }
        Err(refusal) => Err(WorldRefusal::Office(refusal)),
    }
}

/// Why an office doesn't finish its session where there is no room to list it: what the office refuses, or else memory.
fn not_finished(office: &Office) -> site_core::Refusal
    ensures { Steps office.now 0 (events.Do rules.Finish) (Err result) office.now }
{
    if !office.enabled(Rule::Finish) {
        return site_core::Refusal::NotNow;
    }
    unless_full(office.journal())
}

/// Memory, or that the journal takes no entry more.
fn unless_full(journal: &Journal) -> site_core::Refusal
    ensures { result ≡ (if nat_le most_entries (length journal.now.entries) then refusals.JournalFull else refusals.Memory) }
{
    if journal.len() >= MAX_ENTRIES {
        return site_core::Refusal::JournalFull;
    }
    site_core::Refusal::Memory
}

/// What an office finished last.
fn last_of(office: &Office) -> Finished
    requires { 0 < length (office_of office.now).agenda.outcomes }
    ensures { (before : List Outcome) (last : Outcome) → (office_of office.now).agenda.outcomes ≡ before ++ last ∷ [] → result ≡ mark_of last }
{
    let outcomes = office.outcomes();
    let last = outcomes.len() - 1;
    mark_of(&outcomes[last])
}

/// What is listed of a session with this outcome.
pub(crate) fn mark_of(outcome: &Outcome) -> Finished
    ensures { result ≡ mark_of outcome.now }
{
    Finished {
        office: outcome.office,
        ticket: outcome.ticket,
    }
}

/// An office makes a frame, and which entry tells it is kept.
#[inline(always)]
pub(crate) fn send(
    offices: &mut Vec<Office>,
    sent: &mut Vec<SentAt>,
    from: OfficeId,
    to: OfficeId,
    i: usize,
) -> Result<Reply, WorldRefusal>
    ensures office { Hands offices.old.items from (events.Send to i) result offices.new.items }
    ensures kept { IfOk result (λ r. (d : Site) → sent.new.items ≡ sent.old.items ++ sent_by from (length (get_or offices.old.items from d).entries) r) }
    ensures fit { IfOk result (λ r. All IsFrame (frames_of r)) }
    ensures unsent { OnErr result (sent.new.items ≡ sent.old.items) }
{
    if from.index() >= offices.len() {
        return Err(WorldRefusal::NoOffice);
    }
    let Ok(()) = sent.reserve(1) else {
        let refusal = not_sent(&offices[from.index()], to, i);
        return Err(WorldRefusal::Office(refusal));
    };
    let entry = entries_of(&offices[from.index()]);
    match offices[from.index()].send(0, to, i) {
        Ok(reply) => {
            keep(sent, from, entry, &reply);
            Ok(reply)
        }
        Err(refusal) => Err(WorldRefusal::Office(refusal)),
    }
}

/// Why an office makes no frame where there is no room to keep it: what the office refuses, or else memory.
fn not_sent(office: &Office, to: OfficeId, i: usize) -> site_core::Refusal
    ensures { Steps office.now 0 (events.Send to i) (Err result) office.now }
{
    if !makes(office, to, i) {
        return site_core::Refusal::NotNow;
    }
    unless_full(office.journal())
}

/// Whether an office makes that frame for a neighbour.
fn makes(office: &Office, to: OfficeId, i: usize) -> bool
    ensures { result ≡ is_ok (answer office.now.plan office.now.me (office_of office.now) (events.Send to i)) }
{
    match office.waiting(to) {
        Some((_, waiting)) => i <= waiting,
        None => false,
    }
}

/// How many entries an office has.
fn entries_of(office: &Office) -> u32
    ensures { result ≡ length office.now.entries }
{
    // Its journal is legal, so that these are few.
    office.journal().len() as u32
}

/// Where the frame that a reply tells is told is kept: by this entry of the office.
fn keep(sent: &mut Vec<SentAt>, office: OfficeId, entry: u32, reply: &Reply)
    requires { vec_len sent.old < vec_capacity sent.old }
    ensures kept { sent.new.items ≡ sent.old.items ++ sent_by office entry reply.now }
    ensures fit { All IsFrame (frames_of reply.now) }
{
    if let Reply::Frame(frame) = reply {
        is_in_range(frame);
        sent.push_reserved(SentAt { office, entry });
    }
}

/// The frame that an entry of an office tells, if it tells one.
pub(crate) fn frame_told(office: &Office, entry: u32) -> Option<Frame>
    ensures { result ≡ told_in office.now.entries entry }
{
    office.journal().frame_told(entry as usize)
}

/// Each field of a frame is in the format's range.
fn is_in_range(frame: &Frame)
    ensures { IsFrame frame.now }
{
    let _ = (frame.run(), frame.from(), frame.to());
    let _ = (frame.number(), frame.count(), frame.msg());
}

/// A frame comes to its addressee.
#[inline(always)]
pub(crate) fn deliver(offices: &mut Vec<Office>, frame: &Frame) -> Result<Reply, WorldRefusal>
    ensures { Hands offices.old.items frame.now.to (events.Took frame.now) result offices.new.items }
{
    let at = OfficeId::new(frame.to());
    if at.index() >= offices.len() {
        return Err(WorldRefusal::NoOffice);
    }
    passed_on(offices[at.index()].take(0, frame))
}

/// What a world tells of an office's answer.
#[inline(always)]
fn passed_on(answer: Result<Reply, site_core::Refusal>) -> Result<Reply, WorldRefusal>
    ensures { result ≡ passed_on answer }
{
    match answer {
        Ok(reply) => Ok(reply),
        Err(refusal) => Err(WorldRefusal::Office(refusal)),
    }
}
