//! Texts in memory.

ghost use Rattle.std.specs.Prelude.{◌≡◌, map, option_map};
ghost use Rattle.host_files.specs.inputs.Words.{text_named};

use crate::inputs::sources::Sources;
use std::io;
use std::io::ErrorKind;

/// Files in memory, each with its name, and a standard input: a source whose texts are known.
#[derive(Clone, Copy)]
pub struct Texts<'a> {
    pub files: &'a [(&'a str, &'a [u8])],
    pub standard: &'a [u8],
}

impl<'a> Texts<'a> {
    /// The text of the first file of that name.
    fn text_named(&self, name: &str) -> Option<&'a [u8]>
        ensures { option_map (λ text. text.now) result ≡ text_named name.now (map (λ f. (f.0.now, f.1.now)) self.now.files.now) }
    {
        for (file, text) in self.files {
            if *file == name {
                return Some(*text);
            }
        }
        None
    }
}

impl<'a> Sources for Texts<'a> {
    ghost use Rattle.std.specs.Prelude.{Some, map};
    ghost use Rattle.host_files.specs.inputs.Words.{text_named};

    type File = &'a [u8];

    type Standard = &'a [u8];

    ghost file_text = { λ s name. text_named name (map (λ f. (f.0.now, f.1.now)) s.files.now) };

    ghost standard_text = { λ s. Some s.standard.now };

    fn open(&self, name: &str) -> io::Result<&'a [u8]> {
        self.text_named(name)
            .ok_or(io::Error::from(ErrorKind::NotFound))
    }

    fn find(&self, name: &str) -> io::Result<Option<&'a [u8]>> {
        Ok(self.text_named(name))
    }

    fn is_read_from(&self, word: &str, name: &str) -> bool {
        if word == "-" {
            return false;
        }
        word == name
    }

    fn is_open_to_others(&self, _name: &str) -> io::Result<bool> {
        Ok(false)
    }

    fn standard(&self) -> &'a [u8] {
        self.standard
    }
}
