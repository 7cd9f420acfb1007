//! A store in memory.

ghost use Rattle.std.specs.Prelude.{◌≡◌, ◌++◌, [], Some, true, false, OnOk, OnErr};
ghost use Rattle.journal_stores.specs.Stores.{MayBeFound};

use crate::store::{Store, StoreFailed};
use std::alloc::{AllocError, Global};
use std::marker::Model;

/// Keeps what is appended. Contracts see the bytes that stand, those that are found after them, and whether an append failed.
#[derive(Drop)]
pub struct MemoryStore {
    bytes: Vec<u8>,
    torn: Vec<u8>,
    calls: usize,
    /// The call that fails, and how many of its bytes are found then.
    fails: Option<(usize, usize)>,
    has_failed: bool,
}

impl Model for MemoryStore {
    ghost use Rattle.std.specs.Prelude.{◌≡◌, [], false};
    ghost use Rattle.journal_stores.specs.Stores.{Kept};

    ghost Value = { Kept };

    ghost view = { λ m. record { stood = m.bytes.items; torn = m.torn.items; failed = m.has_failed } };

    ghost invariant = { λ m. m.has_failed ≡ false → m.torn.items ≡ [] };
}

impl MemoryStore {
    /// One in which nothing stands. It fails only for want of memory.
    pub fn new(alloc: Global) -> MemoryStore
        ensures { result ≡ record { stood = []; torn = []; failed = false } }
    {
        MemoryStore {
            bytes: Vec::new(alloc),
            torn: Vec::new(alloc),
            calls: 0,
            fails: None,
            has_failed: false,
        }
    }

    /// The append with that number fails, of those to come and those that were, from 0 on; so many of its bytes are found then.
    pub fn fail_at(&mut self, call: usize, found: usize)
        ensures { self.new ≡ self.old }
    {
        self.fails = Some((call, found));
    }

    /// What stands.
    pub fn bytes(&self) -> &[u8]
        ensures { result.now ≡ self.now.stood }
    {
        self.bytes.as_slice()
    }

    /// What a start finds after it: a beginning of the bytes whose append failed.
    pub fn torn(&self) -> &[u8]
        ensures { result.now ≡ self.now.torn }
    {
        self.torn.as_slice()
    }

    // How many bytes are found of this call, if it is to fail.
    fn failure(&mut self) -> Option<usize>
        ensures { self.new ≡ self.old }
    {
        let call = self.calls;
        self.calls = self.calls.saturating_add(1);
        match self.fails {
            Some((fails, found)) if fails == call => Some(found),
            _ => None,
        }
    }

    // The append of these failed. So many of them are found, or none where there is no memory for them.
    fn tear(&mut self, bytes: &[u8], found: usize)
        requires { self.old.failed ≡ false }
        ensures stood { self.new.stood ≡ self.old.stood }
        ensures found { MayBeFound self.old.stood bytes.now (self.new.stood ++ self.new.torn) }
        ensures failed { self.new.failed ≡ true }
    {
        let part = &bytes[..found.min(bytes.len())];
        let _ = self.torn.extend_from_slice(part);
        self.has_failed = true;
    }

    fn add(&mut self, bytes: &[u8]) -> Result<(), AllocError>
        ensures added { OnOk result (self.new ≡ record self.old { stood = self.old.stood ++ bytes.now }) }
        ensures same { OnErr result (self.new ≡ self.old) }
        ensures whole { self.new.failed ≡ false → self.new.torn ≡ [] }
    {
        self.bytes.extend_from_slice(bytes)?;
        Ok(())
    }
}

impl Store for MemoryStore {
    ghost stood = { λ m. Some m.stood };

    ghost found = { λ m. Some (m.stood ++ m.torn) };

    ghost failed = { λ m. m.failed };

    fn has_failed(&self) -> bool {
        self.has_failed
    }

    fn append(&mut self, bytes: &[u8]) -> Result<(), StoreFailed> {
        if let Some(found) = self.failure() {
            self.tear(bytes, found);
            return Err(StoreFailed);
        }
        let Ok(()) = self.add(bytes) else {
            self.tear(bytes, 0);
            return Err(StoreFailed);
        };
        Ok(())
    }
}
