//! Which entry a packed one is.

ghost use Rattle.std.specs.Prelude.{◌≡◌, ◌<◌, ◌≤◌, false, Some, slice_get, List, ℕ};
ghost use Rattle.std.specs.Option.{option_copied};
ghost use Rattle.session_meaning.specs.ProgramValue.{ProgramValue};
ghost use Rattle.office_journal.specs.pages.Framed.{frame_in, text_as, text_of, text_carried, StandsAt};
ghost use Rattle.office_journal.specs.Replies.{frame_told, reply_to};
ghost use Rattle.office_journal.specs.Shown.{event_shown, entry_shown, frame_taken, IsPart};
ghost use Rattle.office_journal.specs.declared.event.Event.TheVariants as events;
ghost use Rattle.office_journal.specs.declared.reply.Reply.TheVariants as replies;
ghost use Rattle.office_journal.specs.refinement.PackedEntries.{Beside, nothing, submitted_from, event_by, reply_by, entry_in, rule_by, IsPlaced, IsPlain, IsOfRule, IsOfArrival};

use crate::event::{EntryRef, EventPart, EventRef};
use crate::pages::{Kind, Packed};
use crate::reply::Reply;
use crate::rule::Rule;
use bottle_values::{Text, Value};
use frame_codec::{Frame, Msg};
use office_map::{OfficeId, RecordId};
use session_programs::Program;
use window_link::Arrival;

/// A session was submitted, and its program has that place.
pub fn of_session(tag: u8, ticket: u32, place: u32) -> Packed
    requires { tag < 16 }
    ensures entry { (b : Beside) (p : ProgramValue) → slice_get b.programs place ≡ Some p → entry_in b result ≡ record { tag = tag; event = events.Submit p; reply = replies.Ticket ticket } }
    ensures place { result.place ≡ place }
    ensures no_text { result.has_text ≡ false }
{
    Packed::of_session(Kind::Submitted, tag, ticket, place)
}

/// A session was withdrawn.
pub fn of_withdrawal(tag: u8, ticket: u32) -> Packed
    requires { tag < 16 }
    ensures entry { entry_in nothing result ≡ record { tag = tag; event = events.Withdraw ticket; reply = replies.Done } }
    ensures plain { IsPlain result }
{
    Packed::of_session(Kind::Withdrew, tag, ticket, 0)
}

/// A rule was done.
pub fn of_rule(tag: u8, rule: Rule) -> Packed
    requires { tag < 16 }
    ensures entry { entry_in nothing result ≡ record { tag = tag; event = events.Do rule; reply = replies.Done } }
    ensures plain { IsPlain result }
{
    match rule {
        Rule::Start => done(Kind::Start, tag, 0, 0),
        Rule::Hungry => done(Kind::Hungry, tag, 0, 0),
        Rule::AskFork(v) => done(Kind::AskFork, tag, v.number(), 0),
        Rule::GiveFork(v) => done(Kind::GiveFork, tag, v.number(), 0),
        Rule::Eat => done(Kind::Eat, tag, 0, 0),
        Rule::Leave => done(Kind::Leave, tag, 0, 0),
        Rule::AskBottle(r) => done(Kind::AskBottle, tag, 0, r.number()),
        Rule::GiveBottle(r) => done(Kind::GiveBottle, tag, 0, r.number()),
        Rule::Drink => done(Kind::Drink, tag, 0, 0),
        Rule::Work(n) => done(Kind::Work, tag, 0, n),
        Rule::Finish => done(Kind::Finish, tag, 0, 0),
    }
}

/// A rule of that kind was done, with that neighbour, and with that record or size, where it has them.
fn done(kind: Kind, tag: u8, v: u8, which: u16) -> Packed
    requires kind { IsOfRule kind }
    requires tag { tag < 16 }
    ensures entry { entry_in nothing result ≡ record { tag = tag; event = events.Do (rule_by kind v which); reply = replies.Done } }
    ensures plain { IsPlain result }
{
    Packed::of_rule(kind, tag, v, which)
}

/// A frame was made, for that neighbour and of that message. The text that it carries, if it carries one, has that place.
pub(crate) fn of_frame(tag: u8, v: OfficeId, i: usize, frame: &Frame, place: u32) -> Packed
    requires tag { tag < 16 }
    requires few { i ≤ 18 }
    ensures entry { (b : Beside) → StandsAt b.texts place frame.now.msg → entry_in b result ≡ record { tag = tag; event = events.Send v i; reply = replies.Frame frame.now } }
    ensures placed { (b : Beside) → StandsAt b.texts place frame.now.msg → IsPlaced b result }
{
    Packed::of_frame(Kind::Sent, tag, v.number(), i as u8, frame, place)
}

/// A frame came. The text that it carries, if it carries one, has that place.
pub(crate) fn of_arrival(tag: u8, frame: &Frame, arrival: &Arrival, place: u32) -> Packed
    requires { tag < 16 }
    ensures entry { (b : Beside) → StandsAt b.texts place frame.now.msg → entry_in b result ≡ record { tag = tag; event = events.Took frame.now; reply = reply_to arrival.now } }
    ensures placed { (b : Beside) → StandsAt b.texts place frame.now.msg → IsPlaced b result }
{
    match arrival {
        Arrival::Acked => came(Kind::Acked, tag, frame, place),
        Arrival::Fresh(_) => came(Kind::Taken, tag, frame, place),
        Arrival::Repeat => came(Kind::Repeat, tag, frame, place),
        Arrival::Kept => came(Kind::Kept, tag, frame, place),
        Arrival::Early => came(Kind::Early, tag, frame, place),
    }
}

/// A frame came, which was of that kind.
fn came(kind: Kind, tag: u8, frame: &Frame, place: u32) -> Packed
    requires kind { IsOfArrival kind }
    requires tag { tag < 16 }
    ensures entry { (b : Beside) → StandsAt b.texts place frame.now.msg → entry_in b result ≡ record { tag = tag; event = events.Took frame.now; reply = reply_by kind b.texts result } }
    ensures placed { (b : Beside) → StandsAt b.texts place frame.now.msg → IsPlaced b result }
{
    Packed::of_frame(kind, tag, 0, 0, frame, place)
}

/// The text that a frame carries, if it carries one.
pub(crate) fn text_of(frame: &Frame) -> Option<Text>
    ensures { result ≡ text_carried frame.now.msg }
{
    match frame.msg() {
        Some(msg) => text_in(&msg),
        None => None,
    }
}

fn text_in(msg: &Msg) -> Option<Text>
    ensures { result ≡ text_of msg.now }
{
    match msg {
        Msg::AskFork => None,
        Msg::Fork => None,
        Msg::AskBottle(_) => None,
        Msg::Bottle(_, value) => text_as(value),
    }
}

fn text_as(value: &Value) -> Option<Text>
    ensures { result ≡ text_as value.now }
{
    match value {
        Value::Number(_) => None,
        Value::Text(text) => Some(*text),
    }
}

/// The frame that the entry tells, if it tells one.
pub(crate) fn frame_told(packed: &Packed, texts: &[Text]) -> Option<Frame>
    ensures { result ≡ frame_told (reply_by packed.now.kind texts.now packed.now) }
{
    match packed.kind() {
        Kind::Sent => Some(framed(packed, texts)),
        _ => None,
    }
}

/// The frame that came by the entry, if one did.
pub(crate) fn frame_taken(packed: &Packed, texts: &[Text]) -> Option<Frame>
    ensures { (programs : List ProgramValue) → result ≡ frame_taken (event_by packed.now.kind (record { programs = programs; texts = texts.now }) packed.now) }
{
    match packed.kind() {
        Kind::Acked => Some(framed(packed, texts)),
        Kind::Taken => Some(framed(packed, texts)),
        Kind::Repeat => Some(framed(packed, texts)),
        Kind::Kept => Some(framed(packed, texts)),
        Kind::Early => Some(framed(packed, texts)),
        _ => None,
    }
}

/// What happened but for the frame that came, with its program of these.
pub(crate) fn event_part<'a>(packed: &Packed, programs: &'a [Program]) -> EventPart<'a>
    ensures { (texts : List (List ℕ)) → IsPart result (event_by packed.now.kind (record { programs = programs.now; texts = texts }) packed.now) }
{
    let kind = packed.kind();
    part(kind, packed, programs)
}

fn part<'a>(kind: Kind, packed: &Packed, programs: &'a [Program]) -> EventPart<'a>
    ensures { (texts : List (List ℕ)) → IsPart result (event_by kind (record { programs = programs.now; texts = texts }) packed.now) }
{
    match kind {
        Kind::Submitted => submitted_part(programs, packed.place()),
        Kind::Withdrew => EventPart::Withdraw(packed.ticket()),
        Kind::Start => EventPart::Do(Rule::Start),
        Kind::Hungry => EventPart::Do(Rule::Hungry),
        Kind::AskFork => EventPart::Do(Rule::AskFork(OfficeId::new(packed.neighbour()))),
        Kind::GiveFork => EventPart::Do(Rule::GiveFork(OfficeId::new(packed.neighbour()))),
        Kind::Eat => EventPart::Do(Rule::Eat),
        Kind::Leave => EventPart::Do(Rule::Leave),
        Kind::AskBottle => EventPart::Do(Rule::AskBottle(RecordId::new(packed.which()))),
        Kind::GiveBottle => EventPart::Do(Rule::GiveBottle(RecordId::new(packed.which()))),
        Kind::Drink => EventPart::Do(Rule::Drink),
        Kind::Work => EventPart::Do(Rule::Work(packed.which())),
        Kind::Finish => EventPart::Do(Rule::Finish),
        Kind::Sent => EventPart::Send(
            OfficeId::new(packed.neighbour()),
            usize::from(packed.message()),
        ),
        Kind::Acked => EventPart::Took,
        Kind::Taken => EventPart::Took,
        Kind::Repeat => EventPart::Took,
        Kind::Kept => EventPart::Took,
        Kind::Early => EventPart::Took,
    }
}

/// The session whose program has that place.
fn submitted_part(programs: &[Program], place: u32) -> EventPart<'_>
    ensures { IsPart result (submitted_from (slice_get programs.now place)) }
{
    match program_at(programs, place as usize) {
        Some(program) => EventPart::Submit(program),
        None => EventPart::Withdraw(0),
    }
}

/// The entry, with its program of these, and its text.
pub(crate) fn shown<'a>(packed: &Packed, programs: &'a [Program], texts: &[Text]) -> EntryRef<'a>
    ensures { entry_shown result ≡ entry_in (record { programs = programs.now; texts = texts.now }) packed.now }
{
    let kind = packed.kind();
    EntryRef {
        tag: packed.tag(),
        event: event(kind, packed, programs, texts),
        reply: reply(kind, packed, texts),
    }
}

fn event<'a>(kind: Kind, packed: &Packed, programs: &'a [Program], texts: &[Text]) -> EventRef<'a>
    ensures { event_shown result ≡ event_by kind (record { programs = programs.now; texts = texts.now }) packed.now }
{
    match kind {
        Kind::Submitted => submitted(programs, packed.place()),
        Kind::Withdrew => EventRef::Withdraw(packed.ticket()),
        Kind::Start => EventRef::Do(Rule::Start),
        Kind::Hungry => EventRef::Do(Rule::Hungry),
        Kind::AskFork => EventRef::Do(Rule::AskFork(OfficeId::new(packed.neighbour()))),
        Kind::GiveFork => EventRef::Do(Rule::GiveFork(OfficeId::new(packed.neighbour()))),
        Kind::Eat => EventRef::Do(Rule::Eat),
        Kind::Leave => EventRef::Do(Rule::Leave),
        Kind::AskBottle => EventRef::Do(Rule::AskBottle(RecordId::new(packed.which()))),
        Kind::GiveBottle => EventRef::Do(Rule::GiveBottle(RecordId::new(packed.which()))),
        Kind::Drink => EventRef::Do(Rule::Drink),
        Kind::Work => EventRef::Do(Rule::Work(packed.which())),
        Kind::Finish => EventRef::Do(Rule::Finish),
        Kind::Sent => EventRef::Send(
            OfficeId::new(packed.neighbour()),
            usize::from(packed.message()),
        ),
        Kind::Acked => EventRef::Took(framed(packed, texts)),
        Kind::Taken => EventRef::Took(framed(packed, texts)),
        Kind::Repeat => EventRef::Took(framed(packed, texts)),
        Kind::Kept => EventRef::Took(framed(packed, texts)),
        Kind::Early => EventRef::Took(framed(packed, texts)),
    }
}

/// The frame, with its text of these, if it carries one.
fn framed(packed: &Packed, texts: &[Text]) -> Frame
    ensures { result ≡ frame_in texts.now packed.now }
{
    if !packed.has_text() {
        return packed.frame();
    }
    match text_at(texts, packed.text()) {
        Some(text) => packed.frame_with(*text),
        None => packed.frame(),
    }
}

fn text_at(texts: &[Text], place: usize) -> Option<&Text>
    ensures { option_copied result ≡ slice_get texts.now place }
{
    texts.get(place)
}

/// The session whose program has that place.
fn submitted(programs: &[Program], place: u32) -> EventRef<'_>
    ensures { event_shown result ≡ submitted_from (slice_get programs.now place) }
{
    match program_at(programs, place as usize) {
        Some(program) => EventRef::Submit(program),
        None => EventRef::Withdraw(0),
    }
}

fn program_at(programs: &[Program], place: usize) -> Option<&Program>
    ensures { option_copied result ≡ slice_get programs.now place }
{
    programs.get(place)
}

fn reply(kind: Kind, packed: &Packed, texts: &[Text]) -> Reply
    ensures { result ≡ reply_by kind texts.now packed.now }
{
    match kind {
        Kind::Submitted => Reply::Ticket(packed.ticket()),
        Kind::Withdrew => Reply::Done,
        Kind::Start => Reply::Done,
        Kind::Hungry => Reply::Done,
        Kind::AskFork => Reply::Done,
        Kind::GiveFork => Reply::Done,
        Kind::Eat => Reply::Done,
        Kind::Leave => Reply::Done,
        Kind::AskBottle => Reply::Done,
        Kind::GiveBottle => Reply::Done,
        Kind::Drink => Reply::Done,
        Kind::Work => Reply::Done,
        Kind::Finish => Reply::Done,
        Kind::Sent => Reply::Frame(framed(packed, texts)),
        Kind::Acked => Reply::Acked,
        Kind::Taken => Reply::Taken,
        Kind::Repeat => Reply::Repeat,
        Kind::Kept => Reply::Kept,
        Kind::Early => Reply::Early,
    }
}
