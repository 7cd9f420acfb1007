//! What a line is to a client's stream.

ghost use Rattle.std.specs.Prelude.{◌≡◌, MatchOption, None, Some};
ghost use Rattle.text_lines.specs.Text.{words_of};
ghost use Rattle.session_streams.specs.requests.Requests.{line_of, only_word, record_in, ticket_in};
ghost use Rattle.session_streams.specs.requests.refinement.{seen_line};

use office_map::{OfficeId, Plan, RecordId};
use session_language::SessionRule;
use text_lines::{first_word, is_same_word, number, short_name};

/// A line by its first word: what stands after `ticket` or `value`, or a line of sessions.
#[derive(Clone, Copy)]
pub(crate) enum Line<'a> {
    Ticket(&'a [u8]),
    Look(&'a [u8]),
    Session,
}

/// What a line is.
pub(crate) fn line_of(line: &[u8]) -> Line<'_>
    ensures { seen_line result ≡ line_of line.now }
{
    let Some((word, rest)) = first_word(line) else {
        return Line::Session;
    };
    if is_same_word(word, b"ticket") {
        Line::Ticket(rest)
    } else if is_same_word(word, b"value") {
        Line::Look(rest)
    } else {
        Line::Session
    }
}

/// The only word of what is left of a line.
fn only_word(rest: &[u8]) -> Option<&[u8]>
    ensures { MatchOption result (only_word (words_of rest.now) ≡ None) (λ w. only_word (words_of rest.now) ≡ Some w.now) }
{
    let (word, more) = first_word(rest)?;
    match first_word(more) {
        None => Some(word),
        Some(_) => None,
    }
}

/// The ticket that this says.
pub(crate) fn ticket_in(rest: &[u8]) -> Option<u32>
    ensures { result ≡ ticket_in (words_of rest.now) }
{
    let number = number(only_word(rest)?)?;
    match u32::try_from(number) {
        Ok(0) => None,
        Ok(ticket) => Some(ticket),
        Err(_) => None,
    }
}

/// The record of this office that this names.
pub(crate) fn record_in(plan: &Plan, me: OfficeId, rest: &[u8]) -> Result<RecordId, SessionRule>
    ensures { result ≡ record_in plan.now me (words_of rest.now) }
{
    let Some(word) = only_word(rest) else {
        return Err(SessionRule::Syntax);
    };
    let Some(name) = short_name(word) else {
        return Err(SessionRule::Syntax);
    };
    match plan.record_of_name(&name) {
        Some(record) if plan.has_end(record, me) => Ok(record),
        _ => Err(SessionRule::UnknownRecord),
    }
}
