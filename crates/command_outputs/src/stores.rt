//! Where an office keeps its journal while it runs.

ghost use Rattle.std.specs.Prelude.{◌≡◌, ◌≤◌, [], Option, List, ℕ, None, false, length, take, IfOk, IfSome};

use journal_stores::{FileStore, FoundStore, OpenFault, Store, StoreFile, Sync};
use std::alloc::Global;
use std::io;
use std::rt::Files;

/// A store that was found, before it goes on.
pub trait Found: Drop {
    // The bytes that were found.
    ghost had: { Self → List ℕ };

    /// What was found.
    fn had(&self) -> &[u8]
        ensures { result.now ≡ had self.now };
}

/// What opens stores, as `host_files::outputs::Targets` is what files are written to.
pub trait Stores {
    type Found: Found;

    type Store: Store + Drop;

    // What the store of that name has, where that is known.
    ghost has: { Self → List ℕ → Option (List ℕ) };

    /// A new store of that name, in which nothing stands.
    ///
    /// # Errors
    /// `InUse`, or what the system answers: `AlreadyExists` where one is there.
    fn create(&mut self, name: &str, sync: Sync) -> Result<Self::Store, OpenFault>
        ensures usable { IfOk result (λ s. Self.Store.failed s ≡ false) }
        ensures empty { IfOk result (λ s. IfSome (Self.Store.stood s) (λ bytes. bytes ≡ [])) };

    /// The store of that name. Nothing is changed.
    ///
    /// # Errors
    /// `InUse`, or what the system answers: `NotFound` where none is there.
    fn find(&self, alloc: Global, name: &str) -> Result<Self::Found, OpenFault>
        ensures { IfOk result (λ f. IfSome (has self.now name.now) (λ bytes. Self.Found.had f ≡ bytes)) };

    /// A store that was found goes on after the first so many of its bytes, and the rest is cut off.
    ///
    /// # Errors
    /// What the system answers.
    fn go_on(&mut self, found: Self::Found, kept: usize, sync: Sync) -> io::Result<Self::Store>
        requires { kept ≤ length (Self.Found.had found) }
        ensures usable { IfOk result (λ s. Self.Store.failed s ≡ false) }
        ensures stands { IfOk result (λ s. IfSome (Self.Store.stood s) (λ bytes. bytes ≡ take kept (Self.Found.had found))) };
}

/// Stores in the files that a program was started among. What they have isn't known.
#[derive(Drop)]
pub struct StoreFiles<'a, R: Files> {
    rt: &'a R,
}

impl<'a, R: Files> StoreFiles<'a, R> {
    pub fn new(rt: &'a R) -> StoreFiles<'a, R> {
        StoreFiles { rt }
    }
}

impl<R: Files> Stores for StoreFiles<'_, R>
where
    R::File: StoreFile,
{
    type Found = FoundStore<R::File>;

    type Store = FileStore<R::File>;

    ghost has = { λ _ _. None };

    fn create(&mut self, name: &str, sync: Sync) -> Result<FileStore<R::File>, OpenFault> {
        FileStore::create(self.rt, name, sync)
    }

    fn find(&self, alloc: Global, name: &str) -> Result<FoundStore<R::File>, OpenFault> {
        FoundStore::open(self.rt, alloc, name)
    }

    fn go_on(
        &mut self,
        found: FoundStore<R::File>,
        kept: usize,
        sync: Sync,
    ) -> io::Result<FileStore<R::File>> {
        found.go_on(kept, sync)
    }
}

impl<F: StoreFile> Found for FoundStore<F> {
    ghost had = { λ f. f };

    fn had(&self) -> &[u8] {
        self.bytes()
    }
}
