// Frames of version 02 that carry a text.

use super::is_spelled;
use bottle_values::{Text, Value, Version};
use frame_codec::{Frame, FrameFault, Msg, decode};
use std::process::Abort;

const HI: [u8; 33] =
    *b"\x44\x50\x02\x01\x00\x00\x00\x2a\x01\x00\x00\x00\x00\x00\x00\x00\x00\x01\x00\x00\x00\x00\x00\x00\x00\x01\x04\x00\x01\x02\x02\x68\x69";

const NONE: [u8; 31] =
    *b"\x44\x50\x02\x01\x00\x00\x00\x2a\x01\x00\x00\x00\x00\x00\x00\x00\x00\x01\x00\x00\x00\x00\x00\x00\x00\x01\x04\x00\x01\x02\x00";

const LONGEST: [u8; 95] =
    *b"\x44\x50\x02\x01\x00\x00\x00\x2a\x01\x00\x00\x00\x00\x00\x00\x00\x00\x01\x00\x00\x00\x00\x00\x00\x00\x01\x04\x00\x01\x02\x40 !#$%&'()*+,-./0123456789:;<=>?@ABCDEFGHIJKLMNOPQRSTUVWXYZ[\\]^z~";

fn carrying(rt: &impl Abort, bytes: &[u8]) -> Frame {
    let Some(text) = Text::of(bytes) else {
        panic!(rt; "no text")
    };
    let msg = Msg::Bottle(1, Value::Text(text));
    Frame::data(Version::Two, 42, 1, 0, 1, 1, msg)
}

#[test]
fn texts_have_their_spelling(rt: HostRuntime) {
    is_spelled(&rt, carrying(&rt, b"hi"), &HI);
    is_spelled(&rt, carrying(&rt, b""), &NONE);
    is_spelled(&rt, carrying(&rt, &LONGEST[31..]), &LONGEST);
}

// What is read of the frame with "hi" where another byte stands at this place.
fn read_with(place: usize, byte: u8) -> Result<Frame, FrameFault> {
    let mut bytes = HI;
    if place < bytes.len() {
        bytes[place] = byte;
    }
    decode(&bytes)
}

#[test]
fn each_fault_is_told(rt: HostRuntime) {
    assert_eq!(rt; read_with(29, 3), Err(FrameFault::ValueForm));
    assert_eq!(rt; read_with(30, 0x41), Err(FrameFault::ValueForm));
    assert_eq!(rt; decode(&HI[..32]), Err(FrameFault::Length));
    assert_eq!(rt; read_with(31, 0x22), Err(FrameFault::TextByte));
}

// As the form says a number, the frame would have 38 bytes; the length of a text says how long the frame is, and more than
// 64 is a form that no value has. In version 01 the same bytes are too few.
// Cut anywhere, and with more behind: the length is told before a byte of the text, and a length that no text has before both,
// where it is there.
// At each place of a text each byte may stand that is visible or a space, but no quotation mark.
// Frames and messages are the same where all that they say is.
