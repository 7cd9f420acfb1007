//! An entry in 32 bytes.

ghost use Rattle.std.specs.Prelude.{◌≡◌, ◌/◌, ◌%◌, ◌^◌, ◌<◌, ◌≤◌, List, ℕ, false, true, is_some, nat_le, IsTrue, IfSome, Some};
ghost use Rattle.frame_codec.specs.Frame.{IsNumbered, carries};
ghost use Rattle.bottle_values.specs.declared.version.Version.{Version};
ghost use Rattle.office_journal.specs.pages.Framed.{framed, frame_in, text_carried, StandsAt};
ghost use Rattle.office_journal.specs.pages.refinement.PackedFrames as packed;

use crate::pages::kind::Kind;
use bottle_values::{Text, Value, Version};
use frame_codec::{Frame, Msg};
use std::marker::Model;
use std::mem::size_of;

/// In how many bytes an entry is kept. The program of a submitted session stands beside.
pub const ENTRY_BYTES: usize = 32;

/// The lower part of a number is below this.
const SPAN: u64 = 1 << 32;

/// An entry of a journal, in the least form that serves. The program of a submitted session stands beside, in a list of the journal,
/// and so does a text that a frame carries.
///
/// An entry with its event and its reply takes some 250 bytes: what was replied to a frame that was made is that frame, and an event
/// that it hasn't takes as much room as one that it has. Here a field serves several kinds, and a number and a count, which end below
/// 2^48, are kept in two parts. Fields lie in the order of the source, the widest first, so that none is padded.
#[derive(Drop)]
pub struct Packed {
    /// The number that a frame carries; the place of its text.
    value: i64,
    /// The run of a frame; the ticket of a session.
    run: u32,
    /// The lower part of a frame's number; the place of a session's program.
    number_low: u32,
    count_low: u32,
    number_high: u16,
    count_high: u16,
    /// The record that a frame's message names; the record of a rule, or the instructions of its work.
    which: u16,
    /// The tag, 16 for each message before the one that a frame brings, 64 for a frame of version 02, and 128 for one with a text.
    /// The message of a frame with the number 0 says nothing.
    head: u8,
    kind: Kind,
    from: u8,
    to: u8,
    /// For whom a frame was made; the neighbour of a rule.
    v: u8,
    /// Of which message that waits a frame was made.
    i: u8,
}

impl Model for Packed {
    ghost use Rattle.std.specs.Prelude.{◌/◌, ◌%◌, nat_le};
    ghost use Rattle.office_journal.specs.pages.Told.{Told};
    ghost use Rattle.office_journal.specs.pages.Framed.{frame_with};
    ghost use Rattle.office_journal.specs.pages.refinement.PackedFrames.{joined, message_in, version_in, place_in};

    ghost Value = { Told };

    ghost view = { λ p. record { kind = p.kind; tag = p.head % 16; ticket = p.run; place = p.number_low; v = p.v; i = p.i; which = p.which; frame = frame_with (version_in (p.head / 16)) p.run p.from p.to (joined p.number_low p.number_high) (joined p.count_low p.count_high) (message_in ((p.head / 16) % 4) p.which p.value); has_text = nat_le 8 (p.head / 16); text = place_in p.value } };
}

const _: () = prove!(size_of::<Packed>() == ENTRY_BYTES);

impl Packed {
    /// An entry of a session, with the place of its program.
    pub fn of_session(kind: Kind, tag: u8, ticket: u32, place: u32) -> Packed
        requires { tag < 16 }
        ensures kind { result.kind ≡ kind }
        ensures tag { result.tag ≡ tag }
        ensures ticket { result.ticket ≡ ticket }
        ensures place { result.place ≡ place }
        ensures plain { result.has_text ≡ false }
    {
        Packed {
            value: 0,
            run: ticket,
            number_low: place,
            count_low: 0,
            number_high: 0,
            count_high: 0,
            which: 0,
            head: head(0, tag),
            kind,
            from: 0,
            to: 0,
            v: 0,
            i: 0,
        }
    }

    /// An entry of a rule, with its neighbour, and with its record or size.
    pub fn of_rule(kind: Kind, tag: u8, v: u8, which: u16) -> Packed
        requires { tag < 16 }
        ensures kind { result.kind ≡ kind }
        ensures tag { result.tag ≡ tag }
        ensures neighbour { result.v ≡ v }
        ensures which { result.which ≡ which }
        ensures plain { result.has_text ≡ false }
    {
        Packed {
            value: 0,
            run: 0,
            number_low: 0,
            count_low: 0,
            number_high: 0,
            count_high: 0,
            which,
            head: head(0, tag),
            kind,
            from: 0,
            to: 0,
            v,
            i: 0,
        }
    }

    /// An entry of a frame, with whom it was made for, and of which message. The text that the frame carries, if it carries one,
    /// stands at that place.
    pub fn of_frame(kind: Kind, tag: u8, v: u8, i: u8, frame: &Frame, place: u32) -> Packed
        requires { tag < 16 }
        ensures kind { result.kind ≡ kind }
        ensures tag { result.tag ≡ tag }
        ensures neighbour { result.v ≡ v }
        ensures message { result.i ≡ i }
        ensures frame { (texts : List (List ℕ)) → StandsAt texts place frame.now.msg → frame_in texts result ≡ frame.now }
        ensures has_text { result.has_text ≡ is_some (text_carried frame.now.msg) }
        ensures text { result.has_text ≡ true → result.text ≡ place }
    {
        let number = number_of(frame);
        let taken = frame.count();
        let carried = packed_message(frame);
        Packed {
            value: value_of(&carried, place),
            run: frame.run(),
            number_low: low(number),
            count_low: low(taken),
            number_high: high(number),
            count_high: high(taken),
            which: which_of(&carried),
            head: head(code_of_version(frame.version()) + code_of(&carried), tag),
            kind,
            from: frame.from(),
            to: frame.to(),
            v,
            i,
        }
    }

    /// What it tells.
    pub fn kind(&self) -> Kind
        ensures { result ≡ self.now.kind }
    {
        self.kind
    }

    /// Who handed the event in.
    pub fn tag(&self) -> u8
        ensures { result ≡ self.now.tag }
    {
        self.head % 16
    }

    /// The ticket of a session.
    pub fn ticket(&self) -> u32
        ensures { result ≡ self.now.ticket }
    {
        self.run
    }

    /// The place of a session's program.
    pub fn place(&self) -> u32
        ensures { result ≡ self.now.place }
    {
        self.number_low
    }

    /// The neighbour of a rule, or for whom a frame was made.
    pub fn neighbour(&self) -> u8
        ensures { result ≡ self.now.v }
    {
        self.v
    }

    /// The record of a rule, or the instructions of its work.
    pub fn which(&self) -> u16
        ensures { result ≡ self.now.which }
    {
        self.which
    }

    /// Of which message that waits a frame was made.
    pub fn message(&self) -> u8
        ensures { result ≡ self.now.i }
    {
        self.i
    }

    /// Whether a text stands beside that its frame carries.
    pub fn has_text(&self) -> bool
        ensures { result ≡ self.now.has_text }
    {
        self.head / 16 >= 8
    }

    /// The place of that text.
    pub fn text(&self) -> usize
        ensures { result ≡ self.now.text }
    {
        place_in(self.value)
    }

    /// The frame that was made, or came, where it carries no text.
    pub fn frame(&self) -> Frame
        ensures { result ≡ self.now.frame }
    {
        let number = joined(self.number_low, self.number_high);
        let count = joined(self.count_low, self.count_high);
        let version = version_in(self.head / 16);
        if number == 0 {
            return Frame::ack(version, self.run, self.from, self.to, count);
        }
        let msg = message(self.head / 16 % 4, self.which, self.value);
        Frame::data(version, self.run, self.from, self.to, number, count, msg)
    }

    /// The frame that carries the text.
    pub fn frame_with(&self, text: Text) -> Frame
        ensures { result ≡ framed true (Some text) self.now.which self.now.frame }
    {
        let plain = self.frame();
        let (run, from, to) = (plain.run(), plain.from(), plain.to());
        let number = plain.number();
        let count = plain.count();
        if number == 0 {
            return Frame::ack(Version::Two, run, from, to, count);
        }
        let msg = Msg::Bottle(self.which, Value::Text(text));
        Frame::data(Version::Two, run, from, to, number, count, msg)
    }
}

/// The frame's number, which ends below 2^48 as its count does.
fn number_of(frame: &Frame) -> u64
    ensures value { result ≡ frame.now.number }
    ensures numbered { IsNumbered frame.now.msg frame.now.number }
    ensures range { result < 2 ^ 48 }
{
    frame.number()
}

/// What a frame's message is packed as: that of an acknowledgement says nothing.
fn packed_message(frame: &Frame) -> Msg
    ensures message { result ≡ packed.packed_message frame.now.msg }
    ensures carried { IfSome frame.now.msg (λ msg. IsTrue (carries frame.now.version msg)) }
{
    match frame.msg() {
        Some(msg) => msg,
        None => Msg::AskFork,
    }
}

/// A tag below 16, and a code of a version and a message, in one byte.
#[tactic(auto, using(crate::proofs::pages_lemmas::PackedFrames::head_tag, crate::proofs::pages_lemmas::PackedFrames::head_code))]
fn head(code: u8, tag: u8) -> u8
    requires code { code < 16 }
    requires tag { tag < 16 }
    ensures tag { result % 16 ≡ tag }
    ensures code { result / 16 ≡ code }
{
    code * 16 + tag
}

fn code_of_version(version: Version) -> u8
    ensures code { result ≡ packed.code_of_version version }
    ensures few { result ≤ 4 }
{
    match version {
        Version::One => 0,
        Version::Two => 4,
    }
}

/// The version that stands in that code.
fn version_in(code: u8) -> Version
    ensures { result ≡ packed.version_in code }
{
    if code % 8 < 4 {
        return Version::One;
    }
    Version::Two
}

fn code_of(msg: &Msg) -> u8
    ensures code { result ≡ packed.code_of msg.now }
    ensures few { result < 12 }
{
    match msg {
        Msg::AskFork => 0,
        Msg::Fork => 1,
        Msg::AskBottle(_) => 2,
        Msg::Bottle(_, value) => code_of_value(value),
    }
}

fn code_of_value(value: &Value) -> u8
    ensures code { result ≡ packed.code_of_value value.now }
    ensures few { result < 12 }
{
    match value {
        Value::Number(_) => 3,
        Value::Text(_) => 11,
    }
}

fn which_of(msg: &Msg) -> u16
    ensures { result ≡ packed.which_of msg.now }
{
    match msg {
        Msg::AskFork => 0,
        Msg::Fork => 0,
        Msg::AskBottle(r) => *r,
        Msg::Bottle(r, _) => *r,
    }
}

/// The number that it carries, or the place of its text, where that is this.
fn value_of(msg: &Msg, place: u32) -> i64
    ensures { result ≡ packed.number_of place msg.now }
{
    match msg {
        Msg::Bottle(_, value) => number_as(value, place),
        Msg::AskFork => 0,
        Msg::Fork => 0,
        Msg::AskBottle(_) => 0,
    }
}

fn number_as(value: &Value, place: u32) -> i64
    ensures { result ≡ packed.number_as place value.now }
{
    match value {
        Value::Number(number) => *number,
        Value::Text(_) => i64::from(place),
    }
}

/// The place that stands for a text.
fn place_in(value: i64) -> usize
    ensures { result ≡ packed.place_in value }
{
    if value < 0 {
        return 0;
    }
    value as usize
}

/// The message with that code, about that record and with that number, where it has them.
fn message(code: u8, which: u16, number: i64) -> Msg
    ensures message { result ≡ packed.message_in code which number }
    ensures carried { (version : Version) → IsTrue (carries version result) }
{
    if code == 0 {
        return Msg::AskFork;
    }
    if code == 1 {
        return Msg::Fork;
    }
    if code == 2 {
        return Msg::AskBottle(which);
    }
    Msg::Bottle(which, Value::Number(number))
}

/// The lower 32 bits of a number.
#[tactic(auto, using(crate::proofs::pages_lemmas::PackedFrames::low_below))]
fn low(number: u64) -> u32
    ensures { result ≡ number % 2 ^ 32 }
{
    (number % SPAN) as u32
}

/// The upper 16 bits of a number of 48.
#[tactic(auto, using(crate::proofs::pages_lemmas::PackedFrames::high_below))]
fn high(number: u64) -> u16
    requires { number < 2 ^ 48 }
    ensures { result ≡ number / 2 ^ 32 }
{
    (number / SPAN) as u16
}

/// A number of 48 bits from its parts.
fn joined(low: u32, high: u16) -> u64
    ensures value { result ≡ packed.joined low high }
    ensures range { result < 2 ^ 48 }
{
    u64::from(high) * SPAN + u64::from(low)
}
