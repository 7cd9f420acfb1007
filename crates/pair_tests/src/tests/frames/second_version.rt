// Frames of version 02: those of version 01 with another third byte, and a bottle's value with its form before it.

use super::is_spelled;
use bottle_values::{Value, Version};
use frame_codec::{Frame, Msg};
use std::process::Abort;

const ACK: [u8; 26] =
    *b"\x44\x50\x02\x02\x00\x00\x00\x2a\x00\x01\x00\x00\x00\x00\x00\x00\x00\x00\x00\x00\x00\x00\x00\x00\x00\x03";

const ASK_FORK: [u8; 27] =
    *b"\x44\x50\x02\x01\x00\x00\x00\x2a\x01\x00\x00\x00\x00\x00\x00\x00\x00\x01\x00\x00\x00\x00\x00\x00\x00\x00\x01";

const FORK: [u8; 27] =
    *b"\x44\x50\x02\x01\x00\x00\x00\x2a\x01\x00\x00\x00\x00\x00\x00\x00\x00\x02\x00\x00\x00\x00\x00\x00\x00\x02\x02";

const ASK_BOTTLE: [u8; 29] =
    *b"\x44\x50\x02\x01\x00\x00\x00\x2a\x00\x01\x00\x00\x00\x00\x00\x00\x00\x01\x00\x00\x00\x00\x00\x00\x00\x00\x03\x00\x01";

const BOTTLE: [u8; 38] =
    *b"\x44\x50\x02\x01\x00\x00\x00\x2a\x00\x01\x00\x00\x00\x00\x00\x00\x00\x01\x00\x00\x00\x00\x00\x00\x00\x00\x04\x00\x05\x01\xff\xff\xff\xff\xff\xff\xff\xff";

#[test]
fn each_case_has_its_spelling(rt: HostRuntime) {
    let two = Version::Two;
    is_spelled(&rt, Frame::ack(two, 42, 0, 1, 3), &ACK);
    is_spelled(
        &rt,
        Frame::data(two, 42, 1, 0, 1, 0, Msg::AskFork),
        &ASK_FORK,
    );
    is_spelled(&rt, Frame::data(two, 42, 1, 0, 2, 2, Msg::Fork), &FORK);
    let asks = Msg::AskBottle(1);
    is_spelled(&rt, Frame::data(two, 42, 0, 1, 1, 0, asks), &ASK_BOTTLE);
    let bottle = Msg::Bottle(5, Value::from(-1));
    is_spelled(&rt, Frame::data(two, 42, 0, 1, 1, 0, bottle), &BOTTLE);
}

// What is read of the bottle with another version, tag or form, and of so many bytes, a zero behind its own.
// A form is told from the byte on where it stands, whatever the length, and not before; after the version and the tag, and of a
// bottle of version 02 alone.
