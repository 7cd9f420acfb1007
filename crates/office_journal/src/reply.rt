//! What an office answers.

ghost use Rattle.office_journal.specs.RefusalText.{refusal_text};
ghost use Rattle.std.specs.Prelude.{◌≡◌, ◌↔◌, IsTrue, Some};
ghost use Rattle.office_journal.specs.Replies.{reply_to, frame_told};
ghost use Rattle.office_journal.specs.declared.reply.Refusal.TheVariants as refusals;

use dining_core::NotNow;
use frame_codec::{Frame, FrameFault};
use std::alloc::{AllocError, AllocFailed};
use std::fmt;
use thiserror::Error;
use token_channel::ChannelFault;
use window_link::Arrival;

/// The answer to an accepted event.
#[derive(Clone, Copy, Debug, PartialEq, Eq)]
pub enum Reply {
    /// The number of a submitted session at its office, from 1.
    Ticket(u32),
    /// A rule was done, or a session withdrawn.
    Done,
    /// The frame that is to be sent.
    Frame(Frame),
    /// A frame brought a count alone.
    Acked,
    /// A frame brought the next message, and it was taken.
    Taken,
    /// A frame brought a message that was taken before.
    Repeat,
    /// A frame brought a message ahead of the next one, and it is kept until its turn, or was kept already.
    Kept,
    /// A frame brought a message that is too far ahead to be kept, and it was dropped.
    Early,
}

impl Reply {
    /// The reply to what a frame was.
    pub fn to(arrival: &Arrival) -> Reply
        ensures { result ≡ reply_to arrival.now }
    {
        match arrival {
            Arrival::Acked => Reply::Acked,
            Arrival::Fresh(_) => Reply::Taken,
            Arrival::Repeat => Reply::Repeat,
            Arrival::Kept => Reply::Kept,
            Arrival::Early => Reply::Early,
        }
    }

    /// The frame that it tells, if it tells one.
    pub fn frame_told(&self) -> Option<Frame>
        ensures { result ≡ frame_told self.now }
    {
        match self {
            Reply::Frame(frame) => Some(*frame),
            _ => None,
        }
    }

    /// Whether two replies are the same.
    pub fn equals(&self, other: &Reply) -> bool
        ensures { IsTrue result ↔ (self.now ≡ other.now) }
    {
        match self {
            Reply::Ticket(ticket) => match other {
                Reply::Ticket(another) => *ticket == *another,
                _ => false,
            },
            Reply::Done => matches!(other, Reply::Done),
            Reply::Frame(frame) => match other {
                Reply::Frame(another) => frame.equals(another),
                _ => false,
            },
            Reply::Acked => matches!(other, Reply::Acked),
            Reply::Taken => matches!(other, Reply::Taken),
            Reply::Repeat => matches!(other, Reply::Repeat),
            Reply::Kept => matches!(other, Reply::Kept),
            Reply::Early => matches!(other, Reply::Early),
        }
    }
}

/// Why an event is refused. A refused event leaves the office as it was, and makes no entry.
#[derive(Clone, Copy, Debug, PartialEq, Eq, Error)]
pub enum Refusal {
    /// The bytes that came are no frame.
    Frame(FrameFault),
    /// The channel to the frame's sender refuses it, or there is none.
    Channel(ChannelFault),
    /// The rule's guard is false, or there is no such neighbour, record or waiting message, or no session with that ticket that
    /// may be withdrawn.
    NotNow,
    /// The program is of another office, or needs a record that isn't of this office.
    NotOurs,
    /// As many sessions are submitted and unfinished as may be.
    QueueFull,
    /// The journal has as many entries as may be.
    JournalFull,
    Memory,
}

impl Refusal {
    /// Its code and its name.
    pub fn text(self) -> &'static str
        ensures { result.now ≡ refusal_text self }
    {
        match self {
            Refusal::Frame(fault) => fault.text(),
            Refusal::Channel(fault) => fault.text(),
            Refusal::NotNow => NotNow.text(),
            Refusal::NotOurs => "O2 NotOurs",
            Refusal::QueueFull => "O3 QueueFull",
            Refusal::JournalFull => "O4 JournalFull",
            Refusal::Memory => "out of memory",
        }
    }
}

impl fmt::Display for Refusal {
    ghost output = { λ x. Some (refusal_text x) };

    fn fmt<W: fmt::Write>(&self, f: &mut fmt::Formatter<W>) -> fmt::Result {
        let fault = *self;
        f.write_str(fault.text())
    }
}

impl From<AllocError> for Refusal {
    ghost from_gives = { λ _ e. e ≡ refusals.Memory };

    fn from(_e: AllocError) -> Refusal {
        Refusal::Memory
    }
}

impl<T: Drop> From<AllocFailed<T>> for Refusal {
    ghost from_gives = { λ _ e. e ≡ refusals.Memory };

    fn from(_e: AllocFailed<T>) -> Refusal {
        Refusal::Memory
    }
}

impl From<NotNow> for Refusal {
    ghost from_gives = { λ _ e. e ≡ refusals.NotNow };

    fn from(_e: NotNow) -> Refusal {
        Refusal::NotNow
    }
}
