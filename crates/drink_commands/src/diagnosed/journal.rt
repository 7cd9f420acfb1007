//! What is said of a refused journal.

use crate::diagnosed::header::say_header;
use crate::diagnosed::line::say_line;
use diagnostics::shown::{line_at, say_unreadable};
use journal_texts::JournalRefusal;
use office_map::Plan;
use std::alloc::{AllocError, Global};
use text_lines::{Statements, words};

/// A line that is refused, and the plan that it is read under.
#[derive(Clone, Copy)]
pub(crate) struct Refused<'a> {
    pub alloc: Global,
    pub plan: &'a Plan,
    pub line: &'a [u8],
}

/// What is said of the refusal of a journal's text under this plan.
pub fn of_journal(
    alloc: Global,
    text: &[u8],
    plan: &Plan,
    refusal: JournalRefusal,
) -> Result<String, AllocError> {
    let mut said = String::new(alloc);
    match line_at(text, refusal.line) {
        None => said.push_str(
            "no line says anything, and the first one has to be `journal 1 run N office NAME`",
        )?,
        Some(line) => {
            if !say_unreadable(&mut said, line)? {
                let refused = Refused { alloc, plan, line };
                let words = words(alloc, line)?;
                if is_first(text, refusal.line) {
                    say_header(&mut said, refused, &words)?;
                } else {
                    say_line(&mut said, refused, &words)?;
                }
            }
        }
    }
    Ok(said)
}

/// Whether no line above the one with this number says anything.
fn is_first(text: &[u8], line: u64) -> bool {
    let mut statements = Statements {
        rest: text,
        number: 1,
    };
    match statements.next() {
        Some((number, _)) => number == line,
        None => false,
    }
}
