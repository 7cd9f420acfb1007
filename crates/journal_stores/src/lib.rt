//! Where a journal stands: bytes that are appended and synced, so that they are found after a loss.
//!
//! - [`Store`] appends (definitions in `specs/Stores.antt`). After an `Ok` the bytes stand, after those that stood (clause
//!   `stands`), and that is what is found, where it is known what is (`whole`). After an `Err` what stood still stands (`keeps`),
//!   a beginning of the bytes may be found after it (`finds`), and nothing more is appended (`broken`, and the condition of
//!   `append`).
//! - A program's own is [`FileStore`]. It is made by [`FileStore::create`], or found by [`FoundStore::open`] and goes on by
//!   [`FoundStore::go_on`], which cuts off what isn't kept; only one handle has it at a time. [`Sync`] says what an append waits
//!   for. What stands in it is what was kept and then the bytes of each append that was answered by an `Ok`: a record of the
//!   answers, that no code but `append` adds to. That the bytes are written before the answer is a clause where the file's type
//!   tells what is written to it (`written`), and `std`'s doesn't; that they are synced is tested.
//! - Not known is what a start finds in a file. It finds what stands, and after a failed append a beginning of its bytes after
//!   that, if the system's answers hold of the disk, no other program writes to the file, and no earlier copy of it is put back.
//! - [`MemoryStore`] tells all. It may fail at a call, and then has a beginning of what was to be appended.
//!
//! Not said: how long an append takes, that one ever succeeds; and of a file of `std`, that bytes were written and
//! synced, that the rest was cut off, and that another process is refused. Tests and `tests/system/disks.py` show these.
#![tactic(auto)]

mod file;
mod memory;
mod opening;
mod record;
mod store;

pub use crate::file::{FileStore, StoreFile, Sync};
pub use crate::memory::MemoryStore;
pub use crate::opening::{FoundStore, OpenFault};
pub use crate::store::{Store, StoreFailed};
