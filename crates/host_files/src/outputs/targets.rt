//! What a program writes files to.

ghost use Rattle.std.specs.Prelude.{◌≡◌, ℕ, List, [], ◌∷◌, Option, OnErr, OnOk};
ghost use Rattle.host_files.specs.outputs.Written.{AddsFiles, KeepsFiles};

use std::io;

/// Folders, and files in them, by name.
pub trait Targets {
    // The files that were written whole, each with its name and its text, in the order in which they were written, where that
    // is known.
    ghost written: { Self → Option (List (List ℕ × List ℕ)) };

    /// Whether a folder of that name is there; where none is, one could be made now, or it is told why not. Nothing is changed.
    fn has_folder(&self, name: &str) -> io::Result<bool>;

    /// The file of that name could be written now, or it is told why not. What it has stays, and where none is there, none is after it.
    /// What is no file of a disk, as a pipe or a terminal, isn't tried.
    fn try_file(&self, name: &str) -> io::Result<()>;

    /// There is a folder of that name from now on: it is made, in a folder that is there, or it was there. A file of that name
    /// is none.
    fn make_folder(&mut self, name: &str) -> io::Result<()>
        ensures { KeepsFiles (written self.old) (written self.new) };

    /// The file of that name has just this text from now on: it is made, or what it had is gone. At a fault there may be a file
    /// that has the beginning of it.
    fn write_file(&mut self, name: &str, text: &[u8]) -> io::Result<()>
        ensures adds { OnOk result (AddsFiles (written self.old) (written self.new) ((name.now, text.now) ∷ [])) }
        ensures fails { OnErr result (KeepsFiles (written self.old) (written self.new)) };
}
