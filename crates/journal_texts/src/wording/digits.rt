//! Bytes as digits.

ghost use Rattle.std.specs.Prelude.{◌≡◌, ◌*◌, ◌/◌, ◌≤◌, ◌<◌, ◌++◌, length, true, false, Some, None, IfOk, OnOk, option_map};
ghost use Rattle.std.specs.List.{list_all};
ghost use Rattle.std.specs.String.{string_bytes};
ghost use Rattle.hex.specs.Hex.{is_hex_digit};
ghost use Rattle.journal_texts.specs.wording.Digits.{digits_of, bytes_in, frame_digits, IsFrameWord};
ghost use Rattle.journal_texts.specs.declared.wording.digits.FrameWord.TheVariants as said;

use crate::wording::blocks::{BLOCK, bytes_by_blocks};
use frame_codec::{Frame, MAX_LENGTH, decode, encode};
use hex::FromHexError;
use std::alloc::{AllocError, Global};

/// What a word says where a frame stands.
#[derive(Clone, Copy, PartialEq, Eq)]
pub enum FrameWord {
    /// The frame that its digits spell.
    Spelled(Frame),
    /// Its digits are bytes that spell no frame.
    NoFrame,
    /// It isn't digits, or they are an odd number.
    NoDigits,
}

/// Bytes as digits, with lower-case letters.
pub fn digits(alloc: Global, bytes: &[u8]) -> Result<String, AllocError>
    ensures digits { IfOk result (λ text. string_bytes text ≡ digits_of bytes.now) }
    ensures reads_back { IfOk result (λ text. bytes_in (string_bytes text) ≡ Some bytes.now) }
{
    hex::encode(alloc, bytes)
}

/// The bytes of a word of digits, in either case.
pub fn bytes(alloc: Global, word: &[u8]) -> Result<Option<Vec<u8>>, AllocError>
    ensures { IfOk result (λ o. option_map (λ v. v.items) o ≡ bytes_in word.now) }
{
    match hex::decode(alloc, word) {
        Ok(bytes) => Ok(Some(bytes)),
        Err(FromHexError::OutOfMemory) => Err(AllocError),
        Err(_) => Ok(None),
    }
}

/// A frame's bytes are added as digits. Takes no memory but the text's.
pub fn add_frame_digits(text: &mut String, frame: &Frame) -> Result<(), AllocError>
    ensures digits { OnOk result (string_bytes text.new ≡ string_bytes text.old ++ frame_digits frame.now) }
    ensures reads_back { IsFrameWord (frame_digits frame.now) (said.Spelled frame.now) }
{
    let mut bytes = [0; MAX_LENGTH];
    let length = encode(frame, &mut bytes);
    add_digits(text, &bytes[..length])
}

/// Bytes are added as digits, no more of them than a frame can have.
fn add_digits(text: &mut String, bytes: &[u8]) -> Result<(), AllocError>
    requires { length bytes.now ≤ MAX_LENGTH }
    ensures digits { OnOk result (string_bytes text.new ≡ string_bytes text.old ++ digits_of bytes.now) }
    ensures reads_back { bytes_in (digits_of bytes.now) ≡ Some bytes.now }
{
    let mut room = [0; 2 * MAX_LENGTH];
    let digits = &mut room[..2 * bytes.len()];
    let Ok(()) = hex::encode_to_slice(bytes, digits) else {
        unreachable!()
    };
    match str::from_utf8(digits) {
        Ok(digits) => text.push_str(digits),
        Err(_) => unreachable!(),
    }
}

/// What a word says where a frame stands. Takes no memory.
pub fn frame_word(word: &[u8]) -> FrameWord
    ensures { IsFrameWord word.now result }
{
    if word.len() > 2 * MAX_LENGTH {
        return longer_word(word);
    }
    let half = word.len() / 2;
    let mut bytes = [0; MAX_LENGTH];
    let room = &mut bytes[..half];
    if !has_bytes(word, room) {
        return FrameWord::NoDigits;
    }
    match decode(room) {
        Ok(frame) => FrameWord::Spelled(frame),
        Err(_) => FrameWord::NoFrame,
    }
}

/// The bytes of a word of digits; whether it is one. A frame's are looked at by blocks.
#[tactic(auto, using(crate::proofs::wording_lemmas::DigitWords::odd_digits, crate::proofs::wording_lemmas::DigitWords::other_digits))]
fn has_bytes(word: &[u8], bytes: &mut [u8]) -> bool
    requires { length bytes.old ≡ length word.now / 2 }
    ensures bytes { result ≡ true → bytes_in word.now ≡ Some bytes.new }
    ensures none { result ≡ false → bytes_in word.now ≡ None }
{
    if word.len() % 2 == 1 {
        return false;
    }
    if word.len() < BLOCK {
        return hex::decode_to_slice(word, bytes).is_ok();
    }
    bytes_by_blocks(word, bytes)
}

/// The same, for more digits than a frame can have.
#[tactic(auto, using(crate::proofs::wording_lemmas::DigitWords::odd_digits, crate::proofs::wording_lemmas::DigitWords::other_digits, crate::proofs::wording_lemmas::DigitWords::longer_digits))]
fn longer_word(word: &[u8]) -> FrameWord
    requires { 2 * MAX_LENGTH < length word.now }
    ensures { IsFrameWord word.now result }
{
    if word.len() % 2 == 1 {
        return FrameWord::NoDigits;
    }
    if are_digits(word) {
        FrameWord::NoFrame
    } else {
        FrameWord::NoDigits
    }
}

fn are_digits(word: &[u8]) -> bool
    ensures { result ≡ list_all is_hex_digit word.now }
{
    word.iter().all(|c| is_digit(*c))
}

fn is_digit(c: u8) -> bool
    ensures { result ≡ is_hex_digit c }
{
    matches!(c, b'0'..=b'9' | b'a'..=b'f' | b'A'..=b'F')
}
