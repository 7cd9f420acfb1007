//! The words of replies.

ghost use Rattle.std.specs.Prelude.{◌≡◌, ◌<◌, ◌^◌, ◌++◌, OnOk, Some, None};
ghost use Rattle.std.specs.String.{string_bytes};
ghost use Rattle.office_journal.specs.declared.reply.Reply.TheVariants as replies;
ghost use Rattle.journal_texts.specs.wording.Digits.{frame_digits, IsFrameWord};
ghost use Rattle.journal_texts.specs.declared.wording.digits.FrameWord.TheVariants as said;
ghost use Rattle.journal_texts.specs.wording.Words.{line_of_words};
ghost use Rattle.journal_texts.specs.wording.Replies.{frame_words, reply_words, arrival_named, ReplyReadsBack};

use crate::wording::digits::add_frame_digits;
use crate::wording::words::{add_number, is};
use frame_codec::Frame;
use site_core::Reply;
use std::alloc::AllocError;

/// A reply's words are added, with a space between. A frame is told by its digits, and before them by its number among those
/// that were sent, where one is given. Where memory runs out, a part of them may be added.
pub fn add_reply(text: &mut String, number: Option<usize>, reply: &Reply) -> Result<(), AllocError>
    ensures words { OnOk result (string_bytes text.new ≡ string_bytes text.old ++ line_of_words (reply_words number reply.now)) }
    ensures reads_back { OnOk result (ReplyReadsBack reply.now) }
{
    match reply {
        Reply::Ticket(ticket) => add_ticket(text, number, *ticket),
        Reply::Done => text.push_str("done"),
        Reply::Frame(frame) => add_frame(text, number, frame),
        Reply::Acked => text.push_str("acked"),
        Reply::Taken => text.push_str("taken"),
        Reply::Repeat => text.push_str("repeat"),
        Reply::Kept => text.push_str("kept"),
        Reply::Early => text.push_str("early"),
    }
}

fn add_ticket(text: &mut String, number: Option<usize>, ticket: u32) -> Result<(), AllocError>
    ensures words { OnOk result (string_bytes text.new ≡ string_bytes text.old ++ line_of_words (reply_words number (replies.Ticket ticket))) }
    ensures range { ticket < 2 ^ 32 }
{
    text.push_str("ticket ")?;
    add_number(text, u64::from(ticket))
}

fn add_frame(text: &mut String, number: Option<usize>, frame: &Frame) -> Result<(), AllocError>
    ensures words { OnOk result (string_bytes text.new ≡ string_bytes text.old ++ line_of_words (reply_words number (replies.Frame frame.now))) }
    ensures reads_back { OnOk result (ReplyReadsBack (replies.Frame frame.now)) }
{
    match number {
        None => add_unnumbered(text, frame),
        Some(k) => add_numbered(text, k, frame),
    }
}

fn add_unnumbered(text: &mut String, frame: &Frame) -> Result<(), AllocError>
    ensures words { OnOk result (string_bytes text.new ≡ string_bytes text.old ++ line_of_words (frame_words None (frame_digits frame.now))) }
    ensures reads_back { OnOk result (IsFrameWord (frame_digits frame.now) (said.Spelled frame.now)) }
{
    text.push_str("frame ")?;
    add_frame_digits(text, frame)
}

fn add_numbered(text: &mut String, number: usize, frame: &Frame) -> Result<(), AllocError>
    ensures words { OnOk result (string_bytes text.new ≡ string_bytes text.old ++ line_of_words (frame_words (Some number) (frame_digits frame.now))) }
    ensures reads_back { OnOk result (IsFrameWord (frame_digits frame.now) (said.Spelled frame.now)) }
{
    text.push_str("frame ")?;
    add_number(text, number as u64)?;
    text.push_str(" ")?;
    add_frame_digits(text, frame)
}

/// What a frame that came was.
pub fn arrival_named(name: &[u8]) -> Option<Reply>
    ensures { result ≡ arrival_named name.now }
{
    if is(name, "acked") {
        Some(Reply::Acked)
    } else if is(name, "taken") {
        Some(Reply::Taken)
    } else if is(name, "repeat") {
        Some(Reply::Repeat)
    } else if is(name, "kept") {
        Some(Reply::Kept)
    } else if is(name, "early") {
        Some(Reply::Early)
    } else {
        None
    }
}
