//! The files of the operating system.

ghost use Rattle.std.specs.Prelude.{None, OnOk};
ghost use Rattle.std.specs.Io.KnownBytes.{Appends};

use crate::outputs::targets::Targets;
use std::fs::{File, OpenOptions};
use std::io::{Error, ErrorKind, Write};
use std::rt::Files;
use std::{fs, io};

/// The folders and files that a program was started among. What they have isn't known.
#[derive(Drop)]
pub struct Disk<'a, R: Files> {
    rt: &'a R,
}

impl<'a, R: Files> Disk<'a, R> {
    pub fn new(rt: &'a R) -> Disk<'a, R> {
        Disk { rt }
    }
}

impl<R: Files> Targets for Disk<'_, R> {
    ghost written = { λ _. None };

    fn has_folder(&self, name: &str) -> io::Result<bool> {
        if is_folder(self.rt, name) {
            return Ok(true);
        }
        fs::create_dir(self.rt, name)?;
        fs::remove_dir(self.rt, name)?;
        Ok(false)
    }

    fn try_file(&self, name: &str) -> io::Result<()> {
        match fs::metadata(self.rt, name) {
            Ok(found) if found.is_file() => open_to_write(self.rt, name),
            Ok(found) if found.is_dir() => Err(Error::from(ErrorKind::IsADirectory)),
            Ok(_) => Ok(()),
            Err(error) if error.kind() == ErrorKind::NotFound => make_and_remove(self.rt, name),
            Err(error) => Err(error),
        }
    }

    fn make_folder(&mut self, name: &str) -> io::Result<()> {
        match fs::create_dir(self.rt, name) {
            Ok(()) => Ok(()),
            Err(_) if is_folder(self.rt, name) => Ok(()),
            Err(error) => Err(error),
        }
    }

    /// A fault that the system tells only when a file is closed isn't told: it is asked for none then.
    ///
    /// The kit closes files where they are dropped. A file isn't synced, which is a choice: nothing is started from
    /// what is written here. An Ok says that the system took the whole text, as for the standard output.
    fn write_file(&mut self, name: &str, text: &[u8]) -> io::Result<()> {
        let mut file = fs::create(self.rt, name)?;
        write_whole(&mut file, text)
    }
}

fn is_folder<R: Files>(rt: &R, name: &str) -> bool {
    match fs::metadata(rt, name) {
        Ok(found) => found.is_dir(),
        Err(_) => false,
    }
}

/// A file that is there is opened, and keeps what it has.
fn open_to_write<R: Files>(rt: &R, name: &str) -> io::Result<()> {
    let _file = OpenOptions::new().write(true).open(rt, name)?;
    Ok(())
}

/// A file that isn't there is made, and is gone then. One that was made meanwhile, or to which a name leads on, isn't touched.
fn make_and_remove<R: Files>(rt: &R, name: &str) -> io::Result<()> {
    match File::create_new(rt, name) {
        Ok(_file) => fs::remove_file(rt, name),
        Err(error) if error.kind() == ErrorKind::AlreadyExists => Ok(()),
        Err(error) => Err(error),
    }
}

/// All of the text goes out, and what a writer holds back of it too.
pub fn write_whole<W: Write>(writer: &mut W, text: &[u8]) -> io::Result<()>
    ensures whole { OnOk result (Appends (W.contents writer.old) (W.contents writer.new) text.now) }
{
    writer.write_all(text)?;
    writer.flush()
}
