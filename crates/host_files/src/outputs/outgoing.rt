//! Texts that go out in parts.

ghost use Rattle.std.specs.Prelude.{◌≡◌, ◌<◌, [], false, true, OnOk};
ghost use Rattle.std.specs.Io.KnownBytes.{Keeps, append_known};
ghost use Rattle.std.specs.String.{string_bytes, string_len};

use crate::outputs::disk::write_whole;
use std::alloc::Global;
use std::io;
use std::io::Write;

/// So many bytes gather before they go out.
pub const PART: usize = 65_536;

/// A text on its way to a writer. What is added to it gathers, and goes out once it is a part: so a text of any length takes
/// no more memory than a part and what is added at once.
#[derive(Drop)]
pub struct Outgoing {
    /// What hasn't gone out.
    pub text: String,
    /// Whether some may have.
    pub went: bool,
}

impl Outgoing {
    /// An empty text.
    pub fn new(alloc: Global) -> Outgoing
        ensures text { string_bytes result.text ≡ [] }
        ensures went { result.went ≡ false }
    {
        Outgoing {
            text: String::new(alloc),
            went: false,
        }
    }

    /// What has gathered goes out, where it is a part: so less than a part is left. What the writer holds, with what hasn't gone out
    /// after it, stays the same.
    pub fn write_part<W: Write>(&mut self, writer: &mut W) -> io::Result<()>
        ensures bytes { OnOk result (Keeps (append_known (W.contents writer.old) (string_bytes self.old.text)) (append_known (W.contents writer.new) (string_bytes self.new.text))) }
        ensures few { OnOk result (string_len self.new.text < PART) }
        ensures before { self.new.went ≡ false → self.old.went ≡ false }
        ensures still { self.new.went ≡ false → writer.new ≡ writer.old }
    {
        if self.text.len() >= PART {
            return self.write_gathered(writer);
        }
        Ok(())
    }

    /// All that has gathered goes out. By itself, so that a short text pays nothing for it.
    #[inline(never)]
    fn write_gathered<W: Write>(&mut self, writer: &mut W) -> io::Result<()>
        ensures bytes { OnOk result (Keeps (append_known (W.contents writer.old) (string_bytes self.old.text)) (append_known (W.contents writer.new) (string_bytes self.new.text))) }
        ensures few { OnOk result (string_len self.new.text < PART) }
        ensures went { self.new.went ≡ true }
    {
        self.went = true;
        match writer.write_all(self.text.as_bytes()) {
            Ok(()) => {
                self.text.clear();
                Ok(())
            }
            Err(error) => Err(error),
        }
    }

    /// All that has gathered goes out, and what the writer holds back too.
    pub fn write_rest<W: Write>(self, writer: &mut W) -> io::Result<()>
        ensures { OnOk result (Keeps (append_known (W.contents writer.old) (string_bytes self.text)) (W.contents writer.new)) }
    {
        write_whole(writer, self.text.as_bytes())
    }
}
