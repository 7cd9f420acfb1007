//! Frames of both versions and their bytes.

ghost use Rattle.std.specs.Prelude.{◌≡◌, length, take, drop, IfOk, Ok};
ghost use Rattle.std.specs.Result.{result_err};
ghost use Rattle.frame_codec.specs.Frame.{Fields};
ghost use Rattle.frame_codec.specs.Spelling.{Spells, first_fault, spelling};

use crate::body::{Form, Part, TEXT_START, read_message, write_message};
use crate::fault::FrameFault;
use crate::frame::Frame;
use crate::header::{HEADER_LENGTH, Header, Kind, write_header};
use crate::message::Msg;
use bottle_values::{Text, Value};

/// The length of the longest frame that the format has, a bottle with a text of 64 bytes.
pub const MAX_LENGTH: usize = 95;

/// The frame that these bytes spell, all of them, or the first fault that applies.
#[inline(always)]
#[tactic(auto, unfolding(crate::specs::Spelling::first_fault, crate::specs::Spelling::spelling, crate::specs::Header::header_fault))]
pub fn decode(bytes: &[u8]) -> Result<Frame, FrameFault>
    // What is read is spelled so.
    ensures found { IfOk result (Spells bytes.now) }

    // What is spelled so is read.
    ensures only { (f : Fields) → Spells bytes.now f → result ≡ Ok f }

    // Which fault it is, and that there is none where a frame is read.
    ensures fault { result_err result ≡ first_fault bytes.now }
{
    let header = Header::read(bytes)?;
    let body = &bytes[HEADER_LENGTH..];
    // A frame is copied wherever ways meet, and it is large: so each way makes its own and returns it.
    let part = match header.kind {
        Kind::Ack if body.is_empty() => {
            return Ok(Frame::ack(
                header.version,
                header.run,
                header.from,
                header.to,
                header.count,
            ));
        }
        Kind::Ack => return Err(FrameFault::Length),
        Kind::Data => read_message(header.version, body)?,
    };
    match part {
        Part::AskFork => return Ok(header.data(Msg::AskFork)),
        Part::Fork => return Ok(header.data(Msg::Fork)),
        Part::AskBottle(bottle) => return Ok(header.data(Msg::AskBottle(bottle))),
        Part::Bottle(bottle, form) => match form {
            Form::Number(number) => {
                return Ok(header.data(Msg::Bottle(bottle, Value::Number(number))));
            }
            Form::Text => match Text::of(&body[TEXT_START..]) {
                Some(text) => return Ok(header.data(Msg::Bottle(bottle, Value::Text(text)))),
                None => return Err(FrameFault::TextByte),
            },
        },
    }
}

/// Writes the frame's bytes to the front of `out`, and returns how many they are. The bytes behind
/// them stay as they were.
#[tactic(auto, unfolding(crate::specs::Spelling::spelling))]
pub fn encode(frame: &Frame, out: &mut [u8; MAX_LENGTH]) -> usize
    ensures spelled { Spells (take result out.new) frame.now }
    ensures length { result ≡ length (spelling frame.now) }
    ensures rest { drop result out.new ≡ drop result out.old }
{
    write_header(frame, out);
    match frame.msg() {
        None => HEADER_LENGTH,
        Some(msg) => HEADER_LENGTH + write_message(frame.version(), msg, &mut out[HEADER_LENGTH..]),
    }
}
