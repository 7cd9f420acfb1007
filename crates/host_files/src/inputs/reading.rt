//! Reading on.

ghost use Rattle.std.specs.Prelude.{◌+◌, ◌<◌, ◌≤◌, ◌≡◌, ◌^◌, IfOk, OnOk, length, max, true};
ghost use Rattle.std.specs.Io.KnownBytes.{IsAtEnd};
ghost use Rattle.host_files.specs.inputs.refinement.Reading.{Grows, IsFilled};

use crate::inputs::fault::InputFault;
use std::io::{ErrorKind, Read};

/// After so many reads an input is taken to have no end.
///
/// `FileTooLarge` is the cause then.
const READS: u32 = 1_000_000_000;

/// How many bytes are asked for at first, and at most.
const FIRST_PART: usize = 8192;

const LONGEST_PART: usize = 1_048_576;

/// Reads until there are so many bytes, or to the end. A read that is interrupted is tried again.
///
/// As much is asked for as is there already, so a long text takes few reads, and a short one little memory. What was asked for
/// and didn't come is room that is cut off again.
pub(crate) fn fill<R: Read>(
    reader: &mut R,
    bytes: &mut Vec<u8>,
    most: usize,
) -> Result<(), InputFault>
    ensures filled { OnOk result (IsFilled (R.remaining reader.old) (R.remaining reader.new) bytes.old.items bytes.new.items most) }
    ensures bounded { OnOk result (length bytes.new.items ≤ max most (length bytes.old.items)) }
{
    for _ in 0..READS {
        let room = next_part(bytes.len(), most);
        if room == 0 {
            return Ok(());
        }
        if is_end(reader, bytes, room)? {
            return Ok(());
        }
    }
    Err(InputFault::Failed(ErrorKind::FileTooLarge))
}

/// How many bytes are asked for where so many are there, of the most.
fn next_part(held: usize, most: usize) -> usize
    ensures within { held + result ≤ max most held }
    ensures none { result ≡ 0 → most ≤ held }
    ensures few { result ≤ LONGEST_PART }
{
    let part = held.max(FIRST_PART).min(LONGEST_PART);
    most.saturating_sub(held).min(part)
}

/// One read, of so many bytes at most. Whether it found the end.
fn is_end<R: Read>(reader: &mut R, bytes: &mut Vec<u8>, room: usize) -> Result<bool, InputFault>
    requires some { 0 < room }
    requires few { room ≤ LONGEST_PART }
    ensures grown { OnOk result (Grows (R.remaining reader.old) (R.remaining reader.new) bytes.old.items bytes.new.items) }
    ensures end { IfOk result (λ over. over ≡ true → IsAtEnd (R.remaining reader.new)) }
    ensures bounded { OnOk result (length bytes.new.items ≤ length bytes.old.items + room) }
{
    let held = bytes.len();
    bytes.resize(held + room, 0)?;
    match reader.read(&mut bytes[held..]) {
        Ok(n) => {
            bytes.truncate(held + n);
            Ok(n == 0)
        }
        Err(e) => {
            bytes.truncate(held);
            if e.kind() != ErrorKind::Interrupted {
                return Err(InputFault::Failed(e.kind()));
            }
            Ok(false)
        }
    }
}
