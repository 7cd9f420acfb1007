//! A store in a file of the operating system.

ghost use Rattle.std.specs.Prelude.{◌≡◌, None, Some, true, false, OnOk, OnErr};
ghost use Rattle.std.specs.Io.KnownBytes.{Appends};
ghost use Rattle.journal_stores.specs.Stores.{Stands, Keeps, IsFound, Finds};

use crate::record::Record;
use crate::store::{Store, StoreFailed};
use std::fs::{File, OpenFile, TryLockError};
use std::io;
use std::io::{Read, Write};
use std::marker::Model;

/// A file that a store may have: one that only one handle holds at a time.
pub trait StoreFile: Read + Write + OpenFile + Drop {
    /// Holds the file until it is closed, if no other handle holds it.
    fn try_hold(&self) -> Result<(), TryLockError>;
}

impl StoreFile for File {
    fn try_hold(&self) -> Result<(), TryLockError> {
        self.try_lock()
    }
}

/// What an append to a file waits for, and so which losses the appended bytes outlast.
///
/// The second costs a thousandth of the first. The file, what was found there and its name in the folder are synced at
/// each start either way: that costs once.
#[derive(Clone, Copy, Debug, PartialEq, Eq)]
pub enum Sync {
    /// The disk has the bytes: they are found after a loss of the process, and of the machine.
    Data,
    /// The system has the bytes: they are found after a loss of the process. After one of the machine some or all of what was
    /// appended since the store was opened may be missing.
    Nothing,
}

/// A file that this handle holds, and to which bytes are appended and synced. Contracts see what was kept of it and each append
/// that was answered by an `Ok` since, in order; what was written to the file, where its type tells; and whether an append failed.
/// What a start finds there isn't known.
#[derive(Drop)]
pub struct FileStore<F: StoreFile> {
    file: F,
    sync: Sync,
    stood: Record,
    has_failed: bool,
}

impl<F: StoreFile> Model for FileStore<F> {
    ghost use Rattle.journal_stores.specs.Stores.{Filed};

    ghost Value = { Filed };

    ghost view = { λ s. record { stood = s.stood.bytes; written = F.contents s.file; failed = s.has_failed } };
}

impl<F: StoreFile> FileStore<F> {
    // A store in that file, which is held and synced, and has these bytes.
    pub(crate) fn over(file: F, sync: Sync, bytes: &[u8]) -> FileStore<F>
        ensures stood { result.stood ≡ bytes.now }
        ensures usable { result.failed ≡ false }
    {
        let mut stood = Record::new();
        stood.add(bytes);
        FileStore {
            file,
            sync,
            stood,
            has_failed: false,
        }
    }
}

impl<F: StoreFile> Store for FileStore<F> {
    ghost stood = { λ s. Some s.stood };

    ghost found = { λ _. None };

    ghost failed = { λ s. s.failed };

    fn has_failed(&self) -> bool {
        self.has_failed
    }

    fn append(&mut self, bytes: &[u8]) -> Result<(), StoreFailed>
        requires { self.old.failed ≡ false }
        ensures stands { OnOk result (Stands (Some self.old.stood) bytes.now (Some self.new.stood)) }
        ensures keeps { OnErr result (Keeps (Some self.old.stood) (Some self.new.stood)) }
        ensures written { OnOk result (Appends self.old.written self.new.written bytes.now) }
        ensures whole { OnOk result (IsFound (Some self.new.stood) None) }
        ensures finds { OnErr result (Finds (Some self.old.stood) bytes.now None) }
        ensures usable { OnOk result (self.new.failed ≡ false) }
        ensures broken { OnErr result (self.new.failed ≡ true) }
    {
        let Ok(()) = write_and_sync(&mut self.file, bytes, self.sync) else {
            self.has_failed = true;
            return Err(StoreFailed);
        };
        self.stood.add(bytes);
        Ok(())
    }
}

// All of the bytes are written, and then synced where that is asked for.
fn write_and_sync<F: Write + OpenFile>(file: &mut F, bytes: &[u8], sync: Sync) -> io::Result<()>
    ensures whole { OnOk result (Appends (F.contents file.old) (F.contents file.new) bytes.now) }
{
    file.write_all(bytes)?;
    match sync {
        Sync::Data => file.sync_data(),
        Sync::Nothing => Ok(()),
    }
}
