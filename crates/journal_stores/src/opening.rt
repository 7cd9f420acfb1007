//! How a store in a file is made, and how it is found again.

ghost use Rattle.std.specs.Prelude.{◌≡◌, ◌≤◌, [], length, take, false, IfOk, IfSome};

use crate::file::{FileStore, StoreFile, Sync};
use std::alloc::Global;
use std::fs::{OpenOptions, TryLockError};
use std::io::Read;
use std::marker::Model;
use std::path::Path;
use std::rt::Files;
use std::{fs, io};
use thiserror::Error;

/// Why a store in a file can't be had.
#[derive(Debug, Drop, Error)]
pub enum OpenFault {
    /// Another process has it, or another handle of this one.
    #[error("the store is in use")]
    InUse,
    /// What the system answered: `AlreadyExists` where a file to be made is there, `NotFound` where one to be found isn't.
    #[error(transparent)]
    Failed(#[from] io::Error),
}

impl From<TryLockError> for OpenFault {
    fn from(error: TryLockError) -> OpenFault {
        match error {
            TryLockError::WouldBlock => OpenFault::InUse,
            TryLockError::Error(error) => OpenFault::Failed(error),
        }
    }
}

impl<F: StoreFile> FileStore<F> {
    /// A new store, in a file that is made. From now on a start finds it there, with nothing in it.
    ///
    /// # Errors
    /// `InUse`, or what the system answers. Then a file may be there, with nothing in it.
    pub fn create<R: Files<File = F>>(
        files: &R,
        name: &str,
        sync: Sync,
    ) -> Result<FileStore<F>, OpenFault>
        ensures stood { IfOk result (λ s. s.stood ≡ []) }
        ensures usable { IfOk result (λ s. s.failed ≡ false) }
    {
        let mut how = OpenOptions::new();
        how.read(true).append(true).create_new(true);
        Ok(FileStore::over(hold(files, &how, name)?, sync, &[]))
    }
}

/// A store that was found in a file, before it goes on. Contracts see the bytes that were found.
#[derive(Drop)]
pub struct FoundStore<F: StoreFile> {
    file: F,
    bytes: Vec<u8>,
}

impl<F: StoreFile> Model for FoundStore<F> {
    ghost use Rattle.std.specs.Prelude.{ℕ, List};

    ghost Value = { List ℕ };

    ghost view = { λ s. s.bytes.items };
}

impl<F: StoreFile> FoundStore<F> {
    /// The store in the file of that name. What is found there stands: a later start finds it too.
    ///
    /// # Errors
    /// `InUse`, or what the system answers. Nothing is changed.
    pub fn open<R: Files<File = F>>(
        files: &R,
        alloc: Global,
        name: &str,
    ) -> Result<FoundStore<F>, OpenFault> {
        let mut how = OpenOptions::new();
        how.read(true).append(true);
        let mut file = hold(files, &how, name)?;
        let bytes = read_whole(&mut file, alloc)?;
        Ok(FoundStore { file, bytes })
    }

    /// What was found.
    pub fn bytes(&self) -> &[u8]
        ensures { result.now ≡ self.now }
    {
        self.bytes.as_slice()
    }

    /// The store goes on after the first `kept` bytes of what was found. The rest, a part of what couldn't be appended, is cut off.
    ///
    /// # Errors
    /// What the system answers.
    pub fn go_on(self, kept: usize, sync: Sync) -> io::Result<FileStore<F>>
        requires { kept ≤ length self }
        ensures stood { IfOk result (λ s. s.stood ≡ take kept self) }
        ensures usable { IfOk result (λ s. s.failed ≡ false) }
    {
        if kept < self.bytes.len() {
            self.file.set_len(kept as u64)?;
            self.file.sync_all()?;
        }
        Ok(FileStore::over(self.file, sync, &self.bytes[..kept]))
    }
}

// All that the file has.
fn read_whole<F: Read>(file: &mut F, alloc: Global) -> io::Result<Vec<u8>>
    ensures { IfOk result (λ bytes. IfSome (F.remaining file.old) (λ all. bytes.items ≡ all)) }
{
    let mut bytes = Vec::new(alloc);
    file.read_to_end(&mut bytes)?;
    Ok(bytes)
}

// The file of that name is held; what it has, and its name in its folder, stands.
fn hold<F: StoreFile, R: Files<File = F>>(
    files: &R,
    how: &OpenOptions,
    name: &str,
) -> Result<F, OpenFault> {
    let file = how.open(files, name)?;
    file.try_hold()?;
    file.sync_all()?;
    let folder = fs::open(files, folder_of(name))?;
    folder.sync_all()?;
    Ok(file)
}

// The folder in which a file of that name is.
fn folder_of(name: &str) -> &str {
    match Path::new(name).parent() {
        Some(folder) if !folder.as_str().is_empty() => folder.as_str(),
        _ => ".",
    }
}
