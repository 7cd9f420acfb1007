//! Sessions from texts.

ghost use Rattle.std.specs.Prelude.{◌≡◌, ◌<◌, ◌≤◌, ◌+◌, ◌^◌, length, IfOk, IsTrue, All};
ghost use Rattle.session_language.specs.Limits.{most_text, most_sessions};
ghost use Rattle.session_programs.specs.Program.{fits};
ghost use Rattle.text_lines.specs.Text.{lines, statements_from};
ghost use Rattle.session_language.specs.Reading.{sessions_of, read_lines, at_line, take_line};
ghost use Rattle.session_language.specs.refinement.ReaderRefinement.{reading_of, Fails};
ghost use Rattle.bottle_values.specs.Memory.{UnlessMemory};

use crate::fault::{LangFault, SessionRefusal, SessionRule, Stop};
use crate::limits::TEXT_LIMIT;
use crate::reader::Reader;
use office_map::Plan;
use session_programs::Program;
use std::alloc::Global;
use text_lines::{Statements, first_line};

/// The programs of the sessions in a text, in order. The first faulty line is refused.
#[tactic(auto, unfolding(crate::specs::Reading::sessions_of), using(crate::proofs::session_reading::ProgramsFit::sessions_fit, crate::proofs::session_reading::ProgramsFit::sessions_few))]
pub fn read_sessions(alloc: Global, text: &[u8], plan: &Plan) -> Result<Vec<Program>, LangFault>
    ensures meaning { UnlessMemory (λ v. v.items) Fails result (sessions_of plan.now text.now) }
    ensures fit { IfOk result (λ v. All (λ p. IsTrue (fits plan.now p)) v.items) }
    ensures few { IfOk result (λ v. length v.items ≤ most_sessions) }
{
    if text.len() > TEXT_LIMIT {
        return Err(refused(SessionRule::TooLong, 0));
    }
    let reader = read_lines(
        alloc,
        plan,
        Reader::new(alloc),
        Statements {
            rest: text,
            number: 1,
        },
    )?;
    if reader.open_session.is_some() {
        return Err(refused(SessionRule::Syntax, count_of_lines(text) + 1));
    }
    Ok(reader.into_done())
}

fn read_lines(
    alloc: Global,
    plan: &Plan,
    reader: Reader,
    statements: Statements<'_>,
) -> Result<Reader, LangFault>
    requires { statements.number + length statements.rest.now < 2 ^ 64 }
    ensures { UnlessMemory reading_of Fails result (read_lines plan.now (reading_of reader) (statements_from statements.entry.number (lines statements.entry.rest.now))) }
{
    let mut reader = reader;
    let mut left = statements;
    while let Some((number, line)) = left.next() {
        read_line(alloc, plan, &mut reader, number, line)?;
    }
    Ok(reader)
}

fn read_line(
    alloc: Global,
    plan: &Plan,
    reader: &mut Reader,
    number: u64,
    line: &[u8],
) -> Result<(), LangFault>
    ensures { UnlessMemory (λ _. (reading_of reader.new)) Fails result (at_line number (take_line plan.now (reading_of reader.old) line.now)) }
{
    match reader.take_line(alloc, plan, line) {
        Ok(()) => Ok(()),
        Err(Stop::Refused(rule)) => Err(refused(rule, number)),
        Err(Stop::Memory) => Err(LangFault::Memory),
    }
}

fn refused(rule: SessionRule, line: u64) -> LangFault
    ensures { result ≡ LangFault.Refused (record { rule = rule; line = line }) }
{
    LangFault::Refused(SessionRefusal { rule, line })
}

/// How many lines a text has.
fn count_of_lines(text: &[u8]) -> u64
    requires { length text.now ≤ most_text }
    ensures value { result ≡ length (lines text.now) }
    ensures few { result ≤ most_text }
{
    let mut rest = text;
    let mut count = 0;
    while !rest.is_empty() {
        rest = first_line(rest).1;
        count += 1;
    }
    count
}
