//! The files and the standard input of the operating system.

ghost use Rattle.std.specs.Prelude.{None};

use crate::inputs::failure::failure_kind;
use crate::inputs::sources::Sources;
use std::io::{Error, ErrorKind, Input, Read};
use std::os::unix::fs::MetadataExt;
use std::rt::Files;
use std::{fs, io};

/// The files and the standard input that a program was started with. What they have isn't known.
#[derive(Drop)]
pub struct Devices<'a, R: Files + Input> {
    rt: &'a R,
    // Why the standard input can't be read, where its first look says so.
    failed: Option<ErrorKind>,
}

impl<'a, R: Files + Input> Devices<'a, R> {
    /// Made before any file is opened: where the standard input is closed, the first file would stand in its place.
    pub fn new(rt: &'a R) -> Devices<'a, R> {
        let failed = first_look(&mut rt.reader());
        Devices { rt, failed }
    }
}

/// Why a reader can't be read, where a read of nothing says so.
fn first_look<R: Read>(reader: &mut R) -> Option<ErrorKind> {
    match reader.read(&mut []) {
        Ok(_) => None,
        Err(error) => Some(failure_kind(&error)),
    }
}

impl<R: Files + Input> Sources for Devices<'_, R> {
    type File = Device<R::File>;

    type Standard = Device<R::Reader>;

    ghost file_text = { λ _ _. None };

    ghost standard_text = { λ _. None };

    fn open(&self, name: &str) -> io::Result<Device<R::File>> {
        let reader = fs::open(self.rt, name)?;
        Ok(Device {
            reader,
            failed: None,
        })
    }

    fn find(&self, name: &str) -> io::Result<Option<Device<R::File>>> {
        match fs::metadata(self.rt, name) {
            Ok(found) if found.is_file() => Ok(Some(self.open(name)?)),
            Ok(_) => Ok(None),
            Err(error) if error.kind() == ErrorKind::NotFound => Ok(None),
            Err(error) => Err(error),
        }
    }

    fn is_read_from(&self, word: &str, name: &str) -> bool {
        if word == "-" {
            return is_one_file(self.rt, STANDARD_INPUT, name);
        }
        word == name || is_one_file(self.rt, word, name)
    }

    fn is_open_to_others(&self, name: &str) -> io::Result<bool> {
        let found = fs::metadata(self.rt, name)?;
        Ok(found.mode() & OTHERS != 0)
    }

    fn standard(&self) -> Device<R::Reader> {
        Device {
            reader: self.rt.reader(),
            failed: self.failed,
        }
    }
}

/// The bits of a file's mode that say what others than its owner may do with it.
const OTHERS: u32 = 0o077;

/// The name of what is the standard input.
const STANDARD_INPUT: &str = "/dev/stdin";

/// Whether two names are of one file of a disk.
fn is_one_file<R: Files>(rt: &R, one: &str, other: &str) -> bool {
    match (fs::metadata(rt, one), fs::metadata(rt, other)) {
        (Ok(one), Ok(other)) => {
            one.is_file() && one.dev() == other.dev() && one.ino() == other.ino()
        }
        _ => false,
    }
}

/// A reader of which nothing is known before it is read.
#[derive(Drop)]
pub struct Device<R: Read + Drop> {
    reader: R,
    failed: Option<ErrorKind>,
}

impl<R: Read + Drop> Read for Device<R> {
    ghost remaining = { λ _. None };

    fn read(&mut self, buf: &mut [u8]) -> io::Result<usize> {
        match self.failed {
            Some(kind) => Err(Error::from(kind)),
            None => self.reader.read(buf),
        }
    }
}
