ghost use Rattle.std.specs.Prelude.{◌≡◌, ◌<◌, ◌^◌, Ok};
ghost use Rattle.frame_codec.specs.Limits.{sequence_space};

use bottle_values::{Value, Version};
use frame_codec::{Frame, FrameFault, MAX_LENGTH, Msg, decode, encode};
use std::process::Abort;
use std::test::Fail;

mod second_version;
mod texts;

const BOTTLE: [u8; 37] =
    *b"\x44\x50\x01\x01\x00\x00\x00\x2a\x00\x01\x00\x00\x00\x00\x00\x00\x00\x01\x00\x00\x00\x00\x00\x00\x00\x00\x04\x00\x05\xff\xff\xff\xff\xff\xff\xff\xff";

const ACK: [u8; 26] =
    *b"\x44\x50\x01\x02\x00\x00\x00\x2a\x00\x01\x00\x00\x00\x00\x00\x00\x00\x00\x00\x00\x00\x00\x00\x00\x00\x03";

const ASK_FORK: [u8; 27] =
    *b"\x44\x50\x01\x01\x00\x00\x00\x2a\x01\x00\x00\x00\x00\x00\x00\x00\x00\x01\x00\x00\x00\x00\x00\x00\x00\x00\x01";

const FORK: [u8; 27] =
    *b"\x44\x50\x01\x01\x00\x00\x00\x2a\x01\x00\x00\x00\x00\x00\x00\x00\x00\x02\x00\x00\x00\x00\x00\x00\x00\x02\x02";

const ASK_BOTTLE: [u8; 29] =
    *b"\x44\x50\x01\x01\x00\x00\x00\x2a\x00\x01\x00\x00\x00\x00\x00\x00\x00\x01\x00\x00\x00\x00\x00\x00\x00\x00\x03\x00\x01";

const EIGHT: [u8; 37] =
    *b"\x44\x50\x01\x01\x00\x00\x00\x09\x00\x01\x00\x00\x00\x00\x00\x00\x00\x01\x00\x00\x00\x00\x00\x00\x00\x01\x04\x00\x00\x00\x00\x00\x00\x00\x00\x00\x08";

fn bottle(run: u32, count: u64, record: u16, number: i64) -> Frame
    requires { count < sequence_space }
{
    Frame::data(
        Version::One,
        run,
        0,
        1,
        1,
        count,
        Msg::Bottle(record, Value::from(number)),
    )
}

// The frame is read from the bytes, and they are written into a buffer whose rest stays.
fn is_spelled(rt: &impl Abort, frame: Frame, bytes: &[u8]) {
    assert_eq!(rt; decode(bytes), Ok(frame));
    assert_eq!(rt; read_again(&frame), Ok(frame));
    let mut out = [0xaa; MAX_LENGTH];
    let length = encode(&frame, &mut out);
    assert_eq!(rt; length, bytes.len());
    assert!(rt; length <= MAX_LENGTH);
    assert_eq!(rt; &out[..length], bytes);
    for byte in &out[length..] {
        assert_eq!(rt; *byte, 0xaa);
    }
}

// What was written is read again: a caller shows it from the clauses of the two functions.
fn read_again(frame: &Frame) -> Result<Frame, FrameFault>
    ensures { result ≡ Ok frame.now }
{
    let mut out = [0; MAX_LENGTH];
    let length = encode(frame, &mut out);
    decode(&out[..length])
}

#[test]
fn each_case_has_its_spelling(rt: HostRuntime) {
    is_spelled(&rt, bottle(42, 0, 5, -1), &BOTTLE);
    is_spelled(&rt, bottle(9, 1, 0, 8), &EIGHT);
    is_spelled(&rt, Frame::ack(Version::One, 42, 0, 1, 3), &ACK);
    is_spelled(
        &rt,
        Frame::data(Version::One, 42, 1, 0, 1, 0, Msg::AskFork),
        &ASK_FORK,
    );
    is_spelled(
        &rt,
        Frame::data(Version::One, 42, 1, 0, 2, 2, Msg::Fork),
        &FORK,
    );
    is_spelled(
        &rt,
        Frame::data(Version::One, 42, 0, 1, 1, 0, Msg::AskBottle(1)),
        &ASK_BOTTLE,
    );
}

#[test]
fn one_byte_of_a_bottle_is_wrong(rt: HostRuntime) {
    for (at, byte, fault) in [
        (3, 0x03, FrameFault::Kind),
        (11, 0x01, FrameFault::Number),
        (19, 0x01, FrameFault::Count),
        (26, 0x00, FrameFault::Tag),
        (26, 0x05, FrameFault::Tag),
    ] {
        let mut bytes = BOTTLE;
        assert!(rt; at < bytes.len());
        bytes[at] = byte;
        assert_eq!(rt; decode(&bytes), Err(fault), "byte {at} as {byte}");
    }
    let mut numbered = ACK;
    numbered[17] = 1;
    assert_eq!(rt; decode(&numbered), Err(FrameFault::Number));
}

#[test]
fn faults_are_printed_with_their_codes(rt: HostRuntime) -> Result<(), Fail> {
    for (fault, text) in [
        (FrameFault::Short, "F1 Short"),
        (FrameFault::Magic, "F2 Magic"),
        (FrameFault::Version, "F3 Version"),
        (FrameFault::Kind, "F4 Kind"),
        (FrameFault::Number, "F5 Number"),
        (FrameFault::Count, "F6 Count"),
        (FrameFault::Tag, "F7 Tag"),
        (FrameFault::Length, "F8 Length"),
        (FrameFault::ValueForm, "F9 ValueForm"),
        (FrameFault::TextByte, "F10 TextByte"),
    ] {
        let printed = format!(in rt.alloc(); "{fault}")?;
        assert_eq!(rt; printed.as_str(), text);
    }
    Ok(())
}
