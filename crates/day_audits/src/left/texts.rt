//! The texts of the sessions that are left.

ghost use Rattle.std.specs.Prelude.{◌≡◌, ◌++◌, All, IsTrue, OnOk};
ghost use Rattle.std.specs.List.{flat_map};
ghost use Rattle.std.specs.String.{string_bytes};
ghost use Rattle.session_programs.specs.Program.{fits, text_under};
ghost use Rattle.day_audits.specs.left.Left.{left_programs};
ghost use Rattle.day_audits.specs.left.LeftTexts.{texts_of, ReadsBack};

use crate::left::left::sessions_left;
use office_map::Plan;
use session_language::laws::reads_back;
use session_programs::Program;
use site_core::{Office, Session};
use std::alloc::{AllocError, Global};

/// The texts of the sessions that an office has left are added, in order of ticket.
pub fn add_left(alloc: Global, text: &mut String, office: &Office) -> Result<(), AllocError>
    ensures added { OnOk result (string_bytes text.new ≡ string_bytes text.old ++ texts_of office.now.plan (left_programs office.now)) }
    ensures read { OnOk result (All (ReadsBack office.now.plan) (left_programs office.now)) }
{
    let sessions = sessions_left(alloc, office)?;
    add_each(alloc, text, office.plan(), &sessions)
}

/// The texts of these sessions are added.
fn add_each(
    alloc: Global,
    text: &mut String,
    plan: &Plan,
    sessions: &[Session],
) -> Result<(), AllocError>
    requires { All (λ s. IsTrue (fits plan.now s.program)) sessions.now }
    ensures added { OnOk result (string_bytes text.new ≡ string_bytes text.old ++ flat_map (λ s. text_under plan.now s.program) sessions.now) }
    ensures read { OnOk result (All (λ s. ReadsBack plan.now s.program) sessions.now) }
{
    for session in sessions {
        add_program(alloc, text, plan, &session.program)?;
    }
    Ok(())
}

/// The text of a session is added, which is read as it.
pub fn add_program(
    alloc: Global,
    text: &mut String,
    plan: &Plan,
    program: &Program,
) -> Result<(), AllocError>
    requires { IsTrue (fits plan.now program.now) }
    ensures added { OnOk result (string_bytes text.new ≡ string_bytes text.old ++ text_under plan.now program.now) }
    ensures read { ReadsBack plan.now program.now }
{
    reads_back(program, plan);
    let told = program.text(alloc, plan)?;
    text.push_str(&told)
}
