//! Files in memory.

ghost use Rattle.std.specs.Prelude.{◌≡◌, [], Some, IfOk};

use crate::outputs::targets::Targets;
use std::alloc::{AllocError, Global};
use std::io;
use std::io::{Error, ErrorKind};
use std::marker::Model;

/// A file that was written. Contracts see its name and its text.
#[derive(Drop)]
pub struct MemoryFile {
    name: String,
    text: Vec<u8>,
}

impl Model for MemoryFile {
    ghost use Rattle.std.specs.Prelude.{ℕ, List};
    ghost use Rattle.std.specs.String.{string_bytes};

    ghost Value = { List ℕ × List ℕ };

    ghost view = { λ f. (string_bytes f.name, f.text.items) };
}

impl MemoryFile {
    fn of(alloc: Global, name: &str, text: &[u8]) -> Result<MemoryFile, AllocError>
        ensures { IfOk result (λ f. f ≡ (name.now, text.now)) }
    {
        let name = String::from_str(alloc, name)?;
        let mut copy = Vec::new(alloc);
        copy.extend_from_slice(text)?;
        Ok(MemoryFile { name, text: copy })
    }

    pub fn name(&self) -> &str
        ensures { result.now ≡ self.now.0 }
    {
        self.name.as_str()
    }

    pub fn text(&self) -> &[u8]
        ensures { result.now ≡ self.now.1 }
    {
        self.text.as_slice()
    }
}

/// Keeps what is written to it. A file whose name has a `/` needs the folder before the last one, and this has to be made. Contracts
/// see the files.
#[derive(Drop)]
pub struct InMemory {
    alloc: Global,
    files: Vec<MemoryFile>,
    folders: Vec<String>,
    calls: usize,
    fails: Option<(usize, ErrorKind)>,
    locked: Option<(String, ErrorKind)>,
}

impl Model for InMemory {
    ghost use Rattle.std.specs.Prelude.{ℕ, List};

    ghost Value = { List (List ℕ × List ℕ) };

    ghost view = { λ m. m.files.items };
}

impl InMemory {
    /// One to which nothing was written. It fails only for want of memory, or of a folder.
    pub fn new(alloc: Global) -> InMemory
        ensures { result ≡ [] }
    {
        InMemory {
            alloc,
            files: Vec::new(alloc),
            folders: Vec::new(alloc),
            calls: 0,
            fails: None,
            locked: None,
        }
    }

    /// The call with that number fails so, of those to come and those that were, from 0 on.
    pub fn fail_at(&mut self, call: usize, kind: ErrorKind)
        ensures { self.new ≡ self.old }
    {
        self.fails = Some((call, kind));
    }

    /// The file or folder of that name can't be written or made from now on, for this.
    pub fn lock(&mut self, name: &str, kind: ErrorKind) -> Result<(), AllocError>
        ensures { self.new ≡ self.old }
    {
        self.locked = Some((String::from_str(self.alloc, name)?, kind));
        Ok(())
    }

    /// The files that were written, the first first, each as often as it was.
    pub fn files(&self) -> &[MemoryFile]
        ensures { result.now ≡ self.now }
    {
        self.files.as_slice()
    }

    /// The folders that were made, the first first, each as often as it was asked for.
    pub fn folders(&self) -> &[String] {
        self.folders.as_slice()
    }

    // How this call is to fail, if it is.
    fn failure(&mut self) -> Option<ErrorKind>
        ensures { self.new ≡ self.old }
    {
        let call = self.calls;
        self.calls = self.calls.saturating_add(1);
        match self.fails {
            Some((fails, kind)) if fails == call => Some(kind),
            _ => None,
        }
    }

    // Why that name can't be written or made, if it can't.
    fn lock_of(&self, name: &str) -> Option<ErrorKind> {
        match &self.locked {
            Some((locked, kind)) if locked.as_str() == name => Some(*kind),
            _ => None,
        }
    }

    // Whether this folder was made.
    fn was_made(&self, folder: &str) -> bool {
        for made in self.folders.as_slice() {
            if made.as_str() == folder {
                return true;
            }
        }
        false
    }

    // Whether the folder of a file of that name is there.
    fn has_place(&self, name: &str) -> bool {
        match name.rsplit_once('/') {
            Some((folder, _)) => self.was_made(folder),
            None => true,
        }
    }
}

impl Targets for InMemory {
    ghost written = { λ m. Some m };

    fn has_folder(&self, name: &str) -> io::Result<bool> {
        match self.lock_of(name) {
            Some(kind) => Err(Error::from(kind)),
            None => Ok(self.was_made(name)),
        }
    }

    fn try_file(&self, name: &str) -> io::Result<()> {
        match self.lock_of(name) {
            Some(kind) => Err(Error::from(kind)),
            None if !self.has_place(name) => Err(Error::from(ErrorKind::NotFound)),
            None => Ok(()),
        }
    }

    fn make_folder(&mut self, name: &str) -> io::Result<()> {
        if let Some(kind) = self.lock_of(name) {
            return Err(Error::from(kind));
        }
        if let Some(kind) = self.failure() {
            return Err(Error::from(kind));
        }
        let folder = String::from_str(self.alloc, name)?;
        self.folders.push(folder)?;
        Ok(())
    }

    fn write_file(&mut self, name: &str, text: &[u8]) -> io::Result<()> {
        if let Some(kind) = self.lock_of(name) {
            return Err(Error::from(kind));
        }
        if let Some(kind) = self.failure() {
            return Err(Error::from(kind));
        }
        if !self.has_place(name) {
            return Err(Error::from(ErrorKind::NotFound));
        }
        let file = MemoryFile::of(self.alloc, name, text)?;
        self.files.push(file)?;
        Ok(())
    }
}
