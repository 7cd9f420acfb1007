//! What was appended, as only clauses read it. No memory has it, so a proof by hand may set it to anything: those of `new` and `add`
//! are the only ones.

ghost use Rattle.std.specs.Prelude.{◌≡◌, ◌++◌, [], List, ℕ};
ghost use Rattle.std.specs.Borrow.{ftrue};

use std::marker::{Model, PhantomData};

/// Bytes that only clauses read.
///
/// No contract of the system's calls says what a file has, so a store in a file tells what was answered as stored. Its
/// two functions alone set it, `append` adds to it at its `Ok` and nowhere else, and whoever reads that one function
/// knows what it is a record of. So what is promised above of a store holds of a file under the premise that a start
/// finds these bytes.
#[derive(Drop)]
pub struct Record {
    of: PhantomData<u8>,
    pub ghost bytes: { List ℕ },
}

impl Model for Record {
    ghost also_owns = { λ _. ftrue };
}

impl Record {
    /// None yet.
    pub(crate) fn new() -> Record
        ensures { result.bytes ≡ [] }
    {
        Record { of: PhantomData }
    }

    /// These too, after those that there are.
    pub(crate) fn add(&mut self, _bytes: &[u8])
        ensures { self.new.bytes ≡ self.old.bytes ++ _bytes.now }
    {}
}
