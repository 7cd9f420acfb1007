//! What a program reads from.

ghost use Rattle.std.specs.Prelude.{◌≡◌, ℕ, List, Option, None, IfNone, IfOk, IfSome, false, true};
ghost use Rattle.host_files.specs.inputs.Words.{is_dash};

use std::io;
use std::io::Read;

/// Files by name, and a standard input.
pub trait Sources {
    type File: Read + Drop;

    type Standard: Read + Drop;

    // What the file of that name has, and what the standard input has, where that is known.
    ghost file_text: { Self → List ℕ → Option (List ℕ) };

    ghost standard_text: { Self → Option (List ℕ) };

    /// Opens the file of that name.
    fn open(&self, name: &str) -> io::Result<Self::File>
        ensures { IfOk result (λ f. Self.File.remaining f ≡ file_text self.now name.now) };

    /// Opens the file of that name, where one is there. What is no file of a disk, as a pipe or a terminal, is none, and isn't opened.
    ///
    /// What a source's files have is known to its clauses, so what a run finds of a file that it will write is told by
    /// them. A pipe would wait for its other end.
    fn find(&self, name: &str) -> io::Result<Option<Self::File>>
        ensures text { IfOk result (λ found. IfSome found (λ f. Self.File.remaining f ≡ file_text self.now name.now)) }
        ensures nowhere { IfOk result (λ found. IfNone found (file_text self.now name.now ≡ None)) };

    /// Whether the text of a word is read from the file of that name: the word may be another name of it, or - where the standard input
    /// is that file.
    fn is_read_from(&self, word: &str, name: &str) -> bool
        ensures same { is_dash word.now ≡ false → word.now ≡ name.now → result ≡ true }
        ensures text { result ≡ true → is_dash word.now ≡ false → file_text self.now word.now ≡ file_text self.now name.now };

    /// Whether others than its owner may read or write the file of that name.
    fn is_open_to_others(&self, name: &str) -> io::Result<bool>;

    /// The standard input. It is asked for once.
    fn standard(&self) -> Self::Standard
        ensures { Self.Standard.remaining result ≡ standard_text self.now };
}
