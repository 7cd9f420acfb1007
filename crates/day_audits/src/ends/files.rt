//! Which sessions of a file haven't finished.

ghost use Rattle.std.specs.Prelude.{◌≡◌, ◌≤◌, ◌++◌, ◌==◌, All, IfOk, IsTrue, OnOk, count_by, length};
ghost use Rattle.std.specs.String.{string_bytes};
ghost use Rattle.session_meaning.specs.ProgramValue.{ProgramValue};
ghost use Rattle.session_language.specs.Limits.{most_sessions};
ghost use Rattle.session_programs.specs.Program.{fits};
ghost use Rattle.day_audits.specs.left.LeftTexts.{ReadsBack, texts_of};
ghost use Rattle.day_audits.specs.ends.FileEnds.{is_unfinished, IsLeftOfFile, one_left};

use crate::left::add_program;
use crate::left::laws::texts_are_read_in_turn;
use office_map::OfficeId;
use session_programs::Program;
use std::alloc::{AllocError, Global};
use world_schedule::World;

/// The text of the sessions of a file whose office has no outcome with the ticket that they have in the file, in the order of the file.
pub fn left_of_file(
    alloc: Global,
    world: &World,
    programs: &[Program],
) -> Result<String, AllocError>
    requires fit { All (λ p. IsTrue (fits world.now.plan p)) programs.now }
    requires few { length programs.now ≤ most_sessions }
    ensures { IfOk result (λ text. IsLeftOfFile world.now programs.now (string_bytes text)) }
{
    texts_are_read_in_turn();
    let mut text = String::new(alloc);
    for i in 0..programs.len() {
        add_unfinished(alloc, &mut text, world, &programs[..i], &programs[i])?;
    }
    Ok(text)
}

/// The text of a session of a file is added, which comes after these, if it hasn't finished.
fn add_unfinished(
    alloc: Global,
    text: &mut String,
    world: &World,
    before: &[Program],
    program: &Program,
) -> Result<(), AllocError>
    requires fit { IsTrue (fits world.now.plan program.now) }
    requires few { length before.now ≤ most_sessions }
    ensures added { OnOk result (string_bytes text.new ≡ string_bytes text.old ++ texts_of world.now.plan (one_left world.now before.now program.now)) }
    ensures read { OnOk result (All (ReadsBack world.now.plan) (one_left world.now before.now program.now)) }
{
    if is_unfinished(world, before, program) {
        add_program(alloc, text, world.plan(), program)
    } else {
        Ok(())
    }
}

/// Whether the office of a session of a file, which comes after these, has no outcome with its ticket.
fn is_unfinished(world: &World, before: &[Program], program: &Program) -> bool
    requires fit { IsTrue (fits world.now.plan program.now) }
    requires few { length before.now ≤ most_sessions }
    ensures { result ≡ is_unfinished world.now before.now program.now }
{
    let office = program.office();
    world
        .office(office)
        .outcome(count_of(before, office) + 1)
        .is_none()
}

/// How many of these sessions are of an office.
fn count_of(programs: &[Program], office: OfficeId) -> u32
    requires { length programs.now ≤ most_sessions }
    ensures count { result ≡ count_by (λ (p : ProgramValue). p.office == office) programs.now }
    ensures few { result ≤ most_sessions }
{
    let mut count = 0;
    for program in programs {
        if program.office() == office {
            count += 1;
        }
    }
    count
}
