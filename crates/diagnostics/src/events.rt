//! What is said of the words of events, which scripts and journals share.

use crate::shown::{Quoted, is_one_of, say_word};
use std::alloc::AllocError;

/// The rules, with what each is done to.
const RULES: &str =
    "start, hungry, askfork OFFICE, givefork OFFICE, eat, leave, askbottle RECORD, givebottle RECORD, drink, work N and finish";

/// Adds why a rule's name and the word after it, or no bytes where nothing follows, say no rule of the plan. A `work` may have
/// so many instructions at most.
pub fn say_rule(
    said: &mut String,
    rule: &[u8],
    argument: &[u8],
    most: u16,
) -> Result<(), AllocError> {
    if is_one_of(rule, "start hungry eat leave drink finish") {
        return say_word(said, "nothing may follow the rule, and not ", argument, "");
    }
    match thing_after(rule) {
        None => say_no_rule(said, rule),
        Some(thing) if argument.is_empty() => say_nothing_after(said, rule, thing),
        Some(thing) => say_no_thing(said, argument, thing, most),
    }
}

/// What a rule is done to.
#[derive(Clone, Copy)]
enum Thing {
    Office,
    Record,
    Instructions,
}

/// What has to stand after the name of a rule, if there is such a rule.
fn thing_after(rule: &[u8]) -> Option<Thing> {
    if is_one_of(rule, "askfork givefork") {
        Some(Thing::Office)
    } else if is_one_of(rule, "askbottle givebottle") {
        Some(Thing::Record)
    } else if is_one_of(rule, "work") {
        Some(Thing::Instructions)
    } else {
        None
    }
}

fn say_nothing_after(said: &mut String, rule: &[u8], thing: Thing) -> Result<(), AllocError> {
    let rule = Quoted(rule);
    let thing = match thing {
        Thing::Office => "an office",
        Thing::Record => "a record",
        Thing::Instructions => "a number of instructions",
    };
    write!(said, "the rule {rule} needs {thing} after it")
}

fn say_no_thing(said: &mut String, word: &[u8], thing: Thing, most: u16) -> Result<(), AllocError> {
    let word = Quoted(word);
    let thing = match thing {
        Thing::Office => "office",
        Thing::Record => "record",
        Thing::Instructions => {
            return write!(
                said,
                "{word} is no number of instructions, which is 1 to {most}"
            );
        }
    };
    write!(
        said,
        "{word} is no {thing} of the plan, and the rule needs one"
    )
}

fn say_no_rule(said: &mut String, rule: &[u8]) -> Result<(), AllocError> {
    say_word(said, "", rule, " is no rule; the rules are ")?;
    said.push_str(RULES)
}

/// Adds that a word is no ticket.
pub fn say_no_ticket(said: &mut String, word: &[u8]) -> Result<(), AllocError> {
    let word = Quoted(word);
    let last = u32::MAX;
    write!(said, "{word} is no ticket, which is 1 to {last}")
}

/// Adds that a word is no number of a message that waits to be sent.
pub fn say_no_message(said: &mut String, word: &[u8]) -> Result<(), AllocError> {
    say_word(
        said,
        "",
        word,
        " is no number of a message that waits, which is counted from 1, or 0 for the count alone",
    )
}
