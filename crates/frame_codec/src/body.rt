//! What follows a header: a message, whose value is spelled as its version says.

ghost use Rattle.std.specs.Prelude.{◌≡◌, ℕ, ◌≤◌, ◌+◌, ◌∷◌, ◌++◌, length, drop, Some, IfOk, IfErr, IsTrue};
ghost use Rattle.std.specs.Result.{result_err};
ghost use Rattle.bottle_values.specs.Versions.{admits};
ghost use Rattle.frame_codec.specs.Frame.{carries};
ghost use Rattle.frame_codec.specs.Spelling.{message, value_bytes};
ghost use Rattle.frame_codec.specs.declared.body.Form.TheVariants as forms;
ghost use Rattle.frame_codec.specs.refinement.DecodedParts.{message_fault, number_fault, text_fault, value_fault};
ghost use Rattle.frame_codec.specs.refinement.DecodedParts.{IsNumberOf, fault_left, form_fault, message_of, text_byte_fault, value_of};

use crate::fault::FrameFault;
use crate::message::{ASK_BOTTLE, ASK_FORK, BOTTLE, FORK, Msg};
use bottle_values::{MAX_TEXT, Text, Value, Version};
use byteorder::{BigEndian, ByteOrder};

// The forms of a value in version 02: its first byte.
const NUMBER: u8 = 1;

const TEXT: u8 = 2;

/// A message as it is found in its bytes: a text, and whether its bytes may stand in one, is still to be read there.
///
/// So it is small, and handed on at no cost; a message has the room of a text.
#[derive(Clone, Copy)]
pub enum Part {
    AskFork,
    Fork,
    AskBottle(u16),
    Bottle(u16, Form),
}

/// A value as it is found there.
#[derive(Clone, Copy)]
pub enum Form {
    Number(i64),
    Text,
}

/// Where the bytes of a message have those of its text.
pub const TEXT_START: usize = 5;

/// The message that these bytes spell in that version, all of them, but for what a text may be.
pub fn read_message(version: Version, bytes: &[u8]) -> Result<Part, FrameFault>
    ensures fault { IfErr result (λ fault. message_fault version bytes.now ≡ Some fault) }
    ensures left { IfOk result (λ part. message_fault version bytes.now ≡ fault_left part bytes.now) }
    ensures spelled { IfOk result (λ part. bytes.now ≡ message version (message_of part bytes.now)) }
    ensures carried { IfOk result (λ part. IsTrue (carries version (message_of part bytes.now))) }
{
    match bytes {
        [ASK_FORK] => Ok(Part::AskFork),
        [FORK] => Ok(Part::Fork),
        [ASK_BOTTLE, high, low] => Ok(Part::AskBottle(u16::from_be_bytes([*high, *low]))),
        [BOTTLE, high, low, value @ ..] => match read_value(version, value) {
            Ok(form) => Ok(Part::Bottle(u16::from_be_bytes([*high, *low]), form)),
            Err(fault) => Err(fault),
        },
        [] | [ASK_FORK..=BOTTLE, ..] => Err(FrameFault::Length),
        [_, ..] => Err(FrameFault::Tag),
    }
}

// The value that these bytes spell in that version, all of them, but for what a text may be.
fn read_value(version: Version, bytes: &[u8]) -> Result<Form, FrameFault>
    ensures fault { IfErr result (λ fault. value_fault version bytes.now ≡ Some fault) }
    ensures left { IfOk result (λ form. value_fault version bytes.now ≡ form_fault form bytes.now) }
    ensures spelled { IfOk result (λ form. bytes.now ≡ value_bytes version (value_of form bytes.now)) }
    ensures admitted { IfOk result (λ form. IsTrue (admits version (value_of form bytes.now))) }
{
    match version {
        Version::One => read_number(bytes),
        Version::Two => match bytes {
            [NUMBER, number @ ..] => read_number(number),
            [TEXT, size, text @ ..] => read_text(*size, text),
            [] | [TEXT] => Err(FrameFault::Length),
            [_, ..] => Err(FrameFault::ValueForm),
        },
    }
}

// The number that has these bytes, all of them.
fn read_number(bytes: &[u8]) -> Result<Form, FrameFault>
    ensures fault { result_err result ≡ number_fault bytes.now }
    ensures number { IfOk result (IsNumberOf bytes.now) }
{
    let Ok(number) = <[u8; 8]>::try_from(bytes) else {
        return Err(FrameFault::Length);
    };
    Ok(Form::Number(i64::from_be_bytes(number)))
}

// Whether these bytes have the length of a text that is told to have that one.
fn read_text(size: u8, bytes: &[u8]) -> Result<Form, FrameFault>
    ensures fault { IfErr result (λ fault. text_fault size bytes.now ≡ Some fault) }
    ensures left { IfOk result (λ form. text_fault size bytes.now ≡ text_byte_fault bytes.now) }
    ensures text { IfOk result (λ form. form ≡ forms.Text) }
    ensures length { IfOk result (λ form. ◌≡◌ {A = ℕ} size (length bytes.now)) }
{
    if size as usize > MAX_TEXT {
        return Err(FrameFault::ValueForm);
    }
    if bytes.len() != size as usize {
        return Err(FrameFault::Length);
    }
    Ok(Form::Text)
}

/// Writes the message to the front of `out`, as that version spells it, and returns how many bytes it has.
pub fn write_message(version: Version, msg: Msg, out: &mut [u8]) -> usize
    requires room { 69 ≤ length out.old }
    requires carried { IsTrue (carries version msg) }
    ensures written { out.new ≡ message version msg ++ drop (length (message version msg)) out.old }
    ensures length { result ≡ length (message version msg) }
{
    match msg {
        Msg::AskFork => {
            out[0] = ASK_FORK;
            1
        }
        Msg::Fork => {
            out[0] = FORK;
            1
        }
        Msg::AskBottle(bottle) => {
            out[0] = ASK_BOTTLE;
            BigEndian::write_u16(&mut out[1..], bottle);
            3
        }
        Msg::Bottle(bottle, value) => {
            out[0] = BOTTLE;
            BigEndian::write_u16(&mut out[1..], bottle);
            3 + write_value(version, value, &mut out[3..])
        }
    }
}

// Writes the value to the front of `out`, as that version spells it, and returns how many bytes it has.
fn write_value(version: Version, value: Value, out: &mut [u8]) -> usize
    requires room { 66 ≤ length out.old }
    requires admitted { IsTrue (admits version value) }
    ensures written { out.new ≡ value_bytes version value ++ drop (length (value_bytes version value)) out.old }
    ensures length { result ≡ length (value_bytes version value) }
{
    match version {
        Version::One => {
            out[..8].copy_from_slice(&value.to_bytes());
            8
        }
        Version::Two => match value {
            Value::Number(_) => {
                out[0] = NUMBER;
                out[1..9].copy_from_slice(&value.to_bytes());
                9
            }
            Value::Text(text) => write_text(&text, out),
        },
    }
}

// Writes the text to the front of `out`, with its form and length, and returns how many bytes these have.
fn write_text(text: &Text, out: &mut [u8]) -> usize
    requires room { 66 ≤ length out.old }
    ensures written { out.new ≡ 2 ∷ length text.now ∷ text.now ++ drop (2 + length text.now) out.old }
    ensures length { result ≡ 2 + length text.now }
{
    let bytes = text.as_bytes();
    let end = 2 + bytes.len();
    out[0] = TEXT;
    out[1] = bytes.len() as u8;
    out[2..end].copy_from_slice(bytes);
    end
}
