//! Why a system refuses something, for people.

use std::io::ErrorKind;

/// Why an input can't be read.
pub fn read_cause(kind: ErrorKind) -> &'static str {
    match kind {
        ErrorKind::NotFound => "no such file",
        ErrorKind::FileTooLarge => "it has no end",
        ErrorKind::WouldBlock => "nothing is there yet, and it does not wait",
        _ => path_cause(kind).unwrap_or(device_cause(kind)),
    }
}

/// What is amiss with the path of a file, if that is why it can't be read, written or made.
pub fn path_cause(kind: ErrorKind) -> Option<&'static str> {
    match kind {
        ErrorKind::IsADirectory => Some("it is a folder"),
        ErrorKind::NotADirectory => Some("a part of its path is no folder"),
        ErrorKind::FilesystemLoop => Some("its symbolic links lead round in a ring"),
        ErrorKind::InvalidFilename => Some("its name is too long"),
        ErrorKind::InvalidInput => Some("no file can have this name"),
        _ => None,
    }
}

/// What is said where the output can't be written, before the cause.
pub const WRITE_FAILED: &str = "X5 WriteFailed: the output cannot be written";

/// Why the output can't be written.
pub fn write_cause(kind: ErrorKind) -> &'static str {
    match kind {
        ErrorKind::StorageFull => "no space is left on its device",
        ErrorKind::QuotaExceeded => "the user's share of its disk is used up",
        ErrorKind::FileTooLarge => "a file may not be so long",
        ErrorKind::ReadOnlyFilesystem => "its disk may only be read",
        ErrorKind::WriteZero => "its device takes no more",
        ErrorKind::WouldBlock => "its device has no room now, and does not wait",
        ErrorKind::BrokenPipe => "its reader has gone away",
        _ => device_cause(kind),
    }
}

/// What may fail at any device.
fn device_cause(kind: ErrorKind) -> &'static str {
    match kind {
        ErrorKind::PermissionDenied => "permission denied",
        ErrorKind::NotConnected => "it is closed",
        ErrorKind::TimedOut => "its device did not answer in time",
        ErrorKind::ResourceBusy => "its device is in use",
        ErrorKind::StaleNetworkFileHandle => "its server has it no more",
        ErrorKind::OutOfMemory => "out of memory",
        _ => "its device fails",
    }
}
