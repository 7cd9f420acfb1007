//! A frame as a value: what one office tells its neighbour in one datagram.

ghost use Rattle.std.specs.Prelude.{◌≡◌, ◌<◌, ◌^◌, ◌↔◌, Some, None, IsTrue, IfSome};
ghost use Rattle.frame_codec.specs.Frame.{IsNumbered, carries};
ghost use Rattle.frame_codec.specs.Limits.{sequence_space};

use crate::message::Msg;
use bottle_values::Version;
use std::marker::Model;

/// The greatest number of a message, and the greatest count.
pub const MAX_NUMBER: u64 = (1 << 48) - 1;

/// A frame whose fields are in the format's ranges. It is data, with a message and its number, or an
/// acknowledgement, with no message and the number 0. One of version 01 carries no text.
#[derive(Clone, Copy, Debug, PartialEq, Eq, Hash)]
pub struct Frame {
    run: u32,
    from: u8,
    to: u8,
    version: Version,
    number: u64,
    count: u64,
    msg: Option<Msg>,
}

impl Model for Frame {
    ghost use Rattle.std.specs.Prelude.{◌<◌, ◌^◌, IsTrue, IfSome};
    ghost use Rattle.frame_codec.specs.Frame.{Fields, IsNumbered, carries};
    ghost use Rattle.frame_codec.specs.Limits.{sequence_space};

    ghost Value = { Fields };

    ghost view = { λ f. record { version = f.version; run = f.run; from = f.from; to = f.to; number = f.number; count = f.count; msg = f.msg } };

    ghost invariant = { λ f. IsNumbered f.msg f.number × (f.count < sequence_space) × IfSome f.msg (λ m. IsTrue (carries f.version m)) };

    ghost inverse = { λ f. record { version = f.version; run = f.run; from = f.from; to = f.to; number = f.number; count = f.count; msg = f.msg } };
}

impl Frame {
    /// A message with its number, from 1 to `MAX_NUMBER`, and the count of messages taken in order.
    pub fn data(
        version: Version,
        run: u32,
        from: u8,
        to: u8,
        number: u64,
        count: u64,
        msg: Msg,
    ) -> Frame
        requires positive { 0 < number }
        requires number { number < sequence_space }
        requires count { count < sequence_space }
        requires carried { IsTrue (carries version msg) }
        ensures { result ≡ record { version = version; run = run; from = from; to = to; number = number; count = count; msg = Some msg } }
    {
        Frame {
            version,
            run,
            from,
            to,
            number,
            count,
            msg: Some(msg),
        }
    }

    /// The count of messages taken in order, with no message.
    pub fn ack(version: Version, run: u32, from: u8, to: u8, count: u64) -> Frame
        requires { count < sequence_space }
        ensures { result ≡ record { version = version; run = run; from = from; to = to; number = 0; count = count; msg = None } }
    {
        Frame {
            version,
            run,
            from,
            to,
            number: 0,
            count,
            msg: None,
        }
    }

    /// The version of the format in which it is spelled.
    pub fn version(&self) -> Version
        ensures { result ≡ self.now.version }
    {
        self.version
    }

    /// The number of the run that the plan names.
    pub fn run(&self) -> u32
        ensures { result ≡ self.now.run }
    {
        self.run
    }

    /// The office that sends.
    pub fn from(&self) -> u8
        ensures { result ≡ self.now.from }
    {
        self.from
    }

    /// The office that is to take the frame.
    pub fn to(&self) -> u8
        ensures { result ≡ self.now.to }
    {
        self.to
    }

    /// The message's number, or 0 of an acknowledgement.
    pub fn number(&self) -> u64
        ensures value { result ≡ self.now.number }
        ensures range { IsNumbered self.now.msg result }
    {
        self.number
    }

    /// How many messages the sender has taken in order.
    pub fn count(&self) -> u64
        ensures value { result ≡ self.now.count }
        ensures range { result < sequence_space }
    {
        self.count
    }

    /// The message, or None of an acknowledgement.
    pub fn msg(&self) -> Option<Msg>
        ensures value { result ≡ self.now.msg }
        ensures carried { IfSome result (λ msg. IsTrue (carries self.now.version msg)) }
    {
        self.msg
    }

    /// Whether two frames are the same.
    pub fn equals(&self, other: &Frame) -> bool
        ensures { IsTrue result ↔ (self.now ≡ other.now) }
    {
        are_same(self, other)
    }
}

fn are_same(one: &Frame, other: &Frame) -> bool
    ensures { IsTrue result ↔ (one.now ≡ other.now) }
{
    one.version.number() == other.version.number()
        && one.run == other.run
        && one.from == other.from
        && one.to == other.to
        && one.number == other.number
        && one.count == other.count
        && same_messages(&one.msg, &other.msg)
}

fn same_messages(left: &Option<Msg>, right: &Option<Msg>) -> bool
    ensures { IsTrue result ↔ (left.now ≡ right.now) }
{
    match left {
        None => right.is_none(),
        Some(left) => match right {
            None => false,
            Some(right) => left.equals(right),
        },
    }
}
