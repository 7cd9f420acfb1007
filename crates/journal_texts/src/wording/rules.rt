//! The words of rules.

ghost use Rattle.std.specs.Prelude.{◌≡◌, ◌++◌, ◌∷◌, OnOk};
ghost use Rattle.std.specs.String.{string_bytes};
ghost use Rattle.journal_texts.specs.wording.Words.{line_of_words};
ghost use Rattle.journal_texts.specs.wording.Rules.{rule_named, rule_with, rule_words};

use crate::wording::words::{count_by, is, office_by, office_name, record_by, record_name};
use office_map::Plan;
use site_core::{LONGEST_PIECE, Rule};
use std::alloc::AllocError;

/// The rule that a word says by itself.
pub fn rule_named(name: &[u8]) -> Option<Rule>
    ensures { result ≡ rule_named name.now }
{
    if is(name, "start") {
        Some(Rule::Start)
    } else if is(name, "hungry") {
        Some(Rule::Hungry)
    } else if is(name, "eat") {
        Some(Rule::Eat)
    } else if is(name, "leave") {
        Some(Rule::Leave)
    } else if is(name, "drink") {
        Some(Rule::Drink)
    } else if is(name, "finish") {
        Some(Rule::Finish)
    } else {
        None
    }
}

/// The rule that a word says with one that names an office or a record, or a number of instructions.
pub fn rule_with(plan: &Plan, name: &[u8], argument: &[u8]) -> Option<Rule>
    ensures { result ≡ rule_with plan.now name.now argument.now }
{
    if is(name, "askfork") {
        Some(Rule::AskFork(office_by(plan, argument)?))
    } else if is(name, "givefork") {
        Some(Rule::GiveFork(office_by(plan, argument)?))
    } else if is(name, "askbottle") {
        Some(Rule::AskBottle(record_by(plan, argument)?))
    } else if is(name, "givebottle") {
        Some(Rule::GiveBottle(record_by(plan, argument)?))
    } else if is(name, "work") {
        Some(Rule::Work(count_by(LONGEST_PIECE, argument)?))
    } else {
        None
    }
}

/// A rule's words are added, with a space between. Where memory runs out, a part of them may be.
pub fn add_rule(text: &mut String, plan: &Plan, rule: Rule) -> Result<(), AllocError>
    ensures { OnOk result (string_bytes text.new ≡ string_bytes text.old ++ line_of_words (rule_words plan.now rule)) }
{
    match rule {
        Rule::Start => text.push_str("start"),
        Rule::Hungry => text.push_str("hungry"),
        Rule::AskFork(v) => add_with(text, "askfork", office_name(plan, v)),
        Rule::GiveFork(v) => add_with(text, "givefork", office_name(plan, v)),
        Rule::Eat => text.push_str("eat"),
        Rule::Leave => text.push_str("leave"),
        Rule::AskBottle(r) => add_with(text, "askbottle", record_name(plan, r)),
        Rule::GiveBottle(r) => add_with(text, "givebottle", record_name(plan, r)),
        Rule::Drink => text.push_str("drink"),
        Rule::Work(n) => write!(text, "work {n}"),
        Rule::Finish => text.push_str("finish"),
    }
}

/// Two words are added, with a space between.
fn add_with(text: &mut String, name: &str, argument: &str) -> Result<(), AllocError>
    ensures { OnOk result (string_bytes text.new ≡ string_bytes text.old ++ (name.now ++ 32 ∷ argument.now)) }
{
    text.push_str(name)?;
    text.push_str(" ")?;
    text.push_str(argument)
}
