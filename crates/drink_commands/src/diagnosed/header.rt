//! What is said of a first line.

use crate::diagnosed::journal::Refused;
use diagnostics::shown::{Quoted, Text, say_no_name, say_no_office, say_other_text, say_word};
use journal_texts::wording::words::is;
use std::alloc::AllocError;
use text_lines::{is_name, number};

/// Of the words of a first line.
pub(crate) fn say_header(
    said: &mut String,
    refused: Refused<'_>,
    words: &[&[u8]],
) -> Result<(), AllocError> {
    if words.len() != 6 || !is_header(words[0], words[2], words[4]) {
        say_word(
            said,
            "the first line has to be `journal 1 run N office NAME`, and not ",
            refused.line,
            "",
        )?;
        return say_other_text(said, Text::Journal, refused.line);
    }
    if !is(words[1], "1") {
        return say_word(
            said,
            "the version of a journal is `1`, and not ",
            words[1],
            "",
        );
    }
    say_origin(said, refused, words[3], words[5])
}

/// Whether these are a header's words beside the version, the run and the name.
fn is_header(journal: &[u8], run: &[u8], office: &[u8]) -> bool {
    is(journal, "journal") && is(run, "run") && is(office, "office")
}

/// Of the run and the office that a header names.
fn say_origin(
    said: &mut String,
    refused: Refused<'_>,
    run: &[u8],
    name: &[u8],
) -> Result<(), AllocError> {
    let Some(number) = number(run) else {
        let (run, last) = (Quoted(run), u32::MAX);
        return write!(said, "{run} is no run, which is 0 to {last}");
    };
    if !is_name(name) {
        return say_no_name(said, name);
    }
    let planned = refused.plan.run();
    if number != u64::from(planned) {
        return write!(
            said,
            "the journal is of run {number}, and the plan has run {planned}"
        );
    }
    say_no_office(said, refused.plan, name)
}
