//! What is told as it comes, and goes out in parts.

ghost use Rattle.std.specs.Prelude.{◌≡◌, ◌<◌, false, Some, slice_get, IfErr, OnOk};
ghost use Rattle.std.specs.List.{flat_map};
ghost use Rattle.std.specs.String.{string_bytes, string_len};
ghost use Rattle.std.specs.Io.KnownBytes.{Appends, Keeps, append_known};
ghost use Rattle.session_meaning.specs.declared.ending.Outcome.{Outcome};
ghost use Rattle.frame_world.specs.Headline.{outcomes};
ghost use Rattle.session_reports.specs.form.Forms.{outcome_as};
ghost use Rattle.world_schedule.specs.reports.Telling.{Unwritten};
ghost use Rattle.world_schedule.specs.reports.WorldReport.{world_report};

use crate::World;
use crate::reports::fault::TellingFault;
use crate::reports::world::{add_nth, add_rest};
use host_files::inputs::failure_kind;
use host_files::outputs::{Outgoing, PART};
use session_reports::form::Form;
use std::io::{ErrorKind, Write};

/// The report of a world in that form goes out, after what is on its way: what [`add_world`](crate::reports::world::add_world) adds to a text.
pub fn tell_world<W: Write>(
    form: Form,
    world: &World,
    unfinished: usize,
    told: Outgoing,
    out: &mut W,
) -> Result<(), TellingFault>
    ensures written { OnOk result (Appends (append_known (W.contents out.old) (string_bytes told.text)) (W.contents out.new) (world_report form world.now unfinished)) }
    ensures unwritten { IfErr result (Unwritten ((told.went ≡ false) × (out.new ≡ out.old))) }
{
    let mut told = told;
    tell_finished(form, world, &mut told, out)?;
    match add_rest(&mut told.text, form, world, unfinished) {
        Ok(()) => write_out(told, out),
        Err(_) => Err(out_of_memory(told.went)),
    }
}

/// The lines of the finished sessions, in finishing order.
fn tell_finished<W: Write>(
    form: Form,
    world: &World,
    told: &mut Outgoing,
    out: &mut W,
) -> Result<(), TellingFault>
    ensures lines { OnOk result (Appends (append_known (W.contents out.old) (string_bytes told.old.text)) (append_known (W.contents out.new) (string_bytes told.new.text)) (flat_map (outcome_as form world.now.plan) (outcomes world.now))) }
    ensures before { told.new.went ≡ false → told.old.went ≡ false }
    ensures still { told.new.went ≡ false → out.new ≡ out.old }
    ensures fault { IfErr result (Unwritten (told.new.went ≡ false)) }
{
    for i in 0..world.finished().len() {
        tell_nth(form, world, i, told, out)?;
    }
    Ok(())
}

/// The line of the session that finished as the `i`-th, from 0.
fn tell_nth<W: Write>(
    form: Form,
    world: &World,
    i: usize,
    told: &mut Outgoing,
    out: &mut W,
) -> Result<(), TellingFault>
    ensures line { OnOk result ((o : Outcome) → slice_get (outcomes world.now) i ≡ Some o
        → Appends (append_known (W.contents out.old) (string_bytes told.old.text)) (append_known (W.contents out.new) (string_bytes told.new.text)) (outcome_as form world.now.plan o)) }
    ensures before { told.new.went ≡ false → told.old.went ≡ false }
    ensures still { told.new.went ≡ false → out.new ≡ out.old }
    ensures fault { IfErr result (Unwritten (told.new.went ≡ false)) }
{
    match add_nth(&mut told.text, form, world, i) {
        Ok(()) => write_on(told, out),
        Err(_) => Err(out_of_memory(told.went)),
    }
}

/// What is on its way goes on, where it is a part: so less than a part is left.
pub fn write_on<W: Write>(told: &mut Outgoing, out: &mut W) -> Result<(), TellingFault>
    ensures bytes { OnOk result (Keeps (append_known (W.contents out.old) (string_bytes told.old.text)) (append_known (W.contents out.new) (string_bytes told.new.text))) }
    ensures few { OnOk result (string_len told.new.text < PART) }
    ensures before { told.new.went ≡ false → told.old.went ≡ false }
    ensures still { told.new.went ≡ false → out.new ≡ out.old }
    ensures fault { IfErr result (Unwritten ⊥) }
{
    match told.write_part(out) {
        Ok(()) => Ok(()),
        Err(error) => Err(TellingFault::WriteFailed(failure_kind(&error))),
    }
}

/// All that is on its way goes out.
fn write_out<W: Write>(told: Outgoing, out: &mut W) -> Result<(), TellingFault>
    ensures bytes { OnOk result (Keeps (append_known (W.contents out.old) (string_bytes told.text)) (W.contents out.new)) }
    ensures fault { IfErr result (Unwritten ⊥) }
{
    match told.write_rest(out) {
        Ok(()) => Ok(()),
        Err(error) => Err(TellingFault::WriteFailed(failure_kind(&error))),
    }
}

/// That memory ran out, where some may have gone out or none did.
pub fn out_of_memory(went: bool) -> TellingFault
    ensures { Unwritten (went ≡ false) result }
{
    if went {
        TellingFault::WriteFailed(ErrorKind::OutOfMemory)
    } else {
        TellingFault::Memory
    }
}
