//! How sessions end, as a text.

use session_meaning::{Gives, Outcome, RecordValues};
use std::alloc::AllocError;
use std::fmt::Write;

pub fn describe(text: &mut String, outcomes: &[Outcome]) -> Result<(), AllocError> {
    for outcome in outcomes {
        describe_one(text, outcome)?;
    }
    Ok(())
}

fn describe_one(text: &mut String, outcome: &Outcome) -> Result<(), AllocError> {
    let office = outcome.office.number();
    let ticket = outcome.ticket;
    let end = outcome.ending.end;
    write!(text, "{office}.{ticket} {end:?} reads")?;
    tell_values(text, &outcome.ending.reads)?;
    text.push_str(" writes")?;
    tell_values(text, &outcome.ending.writes)?;
    text.push_str(" gives")?;
    tell_gives(text, &outcome.ending.gives)?;
    text.push_str("; ")
}

fn tell_values(text: &mut String, values: &RecordValues) -> Result<(), AllocError> {
    for (r, value) in values.as_slice() {
        write!(text, " {}={}", r.number(), value)?;
    }
    Ok(())
}

fn tell_gives(text: &mut String, gives: &Gives) -> Result<(), AllocError> {
    for i in 0..gives.len() {
        write!(text, " {}", gives.get(i))?;
    }
    Ok(())
}
