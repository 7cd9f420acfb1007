//! The output of a command.

ghost use Rattle.std.specs.Prelude.{IfErr, OnOk};
ghost use Rattle.std.specs.Io.KnownBytes.{Appends};
ghost use Rattle.command_outputs.specs.Fault.{IsWriteFault};

use crate::fault::Fault;
use host_files::inputs::failure_kind;
use std::io::Write;

/// The whole text goes out.
pub fn write_whole<W: Write>(out: &mut W, text: &str) -> Result<(), Fault>
    ensures written { OnOk result (Appends (W.contents out.old) (W.contents out.new) text.now) }
    ensures fault { IfErr result IsWriteFault }
{
    match host_files::outputs::write_whole(out, text.as_bytes()) {
        Ok(()) => Ok(()),
        Err(error) => Err(Fault::WriteFailed(failure_kind(&error))),
    }
}
