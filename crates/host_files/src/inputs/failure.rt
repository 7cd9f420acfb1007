//! Why a device fails.

use std::io::{Error, ErrorKind};

/// What the operating system answers of a descriptor that is closed.
const CLOSED: i32 = 9;

/// The kind of a device's error. A device that is closed is `NotConnected`, for which the standard library has no kind.
pub fn failure_kind(error: &Error) -> ErrorKind {
    match error.raw_os_error() {
        Some(CLOSED) => ErrorKind::NotConnected,
        _ => error.kind(),
    }
}
