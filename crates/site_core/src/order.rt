//! Which rule an office does next, left to itself.

ghost use Rattle.std.specs.Prelude.{◌≡◌, ◌++◌, map, find, [], ◌∷◌};
ghost use Rattle.office_map.specs.PlanValue.{records_of, neighbours_of};
ghost use Rattle.office_journal.specs.declared.rule.Rule.TheVariants as rules;
ghost use Rattle.site_core.specs.Limits.{usual_piece};
ghost use Rattle.site_core.specs.agendas.Agenda as sessions;
ghost use Rattle.site_core.specs.Offices as offices;
ghost use Rattle.site_core.specs.RuleOrder.{rules_in_order};
ghost use Rattle.site_core.specs.agendas.refinement.AgendaOfCode.{Means};
ghost use Rattle.site_core.specs.refinement.OfficeOfCode.{office_at};

use crate::agendas::Agenda;
use crate::limits::USUAL_PIECE;
use crate::neighbours::Pairs;
use crate::rules::may;
use office_journal::Rule;

/// The first rule that may be done, in the order in which an office looks at them.
pub fn next_rule(pairs: &Pairs, agenda: &Agenda) -> Option<Rule>
    ensures { (a : sessions.Agenda) → Means agenda.now a → result ≡ find (offices.may pairs.now.plan pairs.now.me (office_at pairs.now a)) (rules_in_order pairs.now.plan pairs.now.me) }
{
    if let Some(rule) = give_bottle(pairs) {
        return Some(rule);
    }
    if let Some(rule) = give_fork(pairs) {
        return Some(rule);
    }
    if let Some(rule) = of_no_pair(pairs, agenda) {
        return Some(rule);
    }
    if let Some(rule) = ask_bottle(pairs) {
        return Some(rule);
    }
    ask_fork(pairs)
}

/// The first of the rules that are of no neighbour and no record.
fn of_no_pair(pairs: &Pairs, agenda: &Agenda) -> Option<Rule>
    ensures { (a : sessions.Agenda) → Means agenda.now a → result ≡ find (offices.may pairs.now.plan pairs.now.me (office_at pairs.now a)) (rules.Finish ∷ rules.Work usual_piece ∷ rules.Drink ∷ rules.Eat ∷ rules.Leave ∷ rules.Start ∷ rules.Hungry ∷ []) }
{
    if may(pairs, agenda, &Rule::Finish) {
        Some(Rule::Finish)
    } else if may(pairs, agenda, &Rule::Work(USUAL_PIECE)) {
        Some(Rule::Work(USUAL_PIECE))
    } else if may(pairs, agenda, &Rule::Drink) {
        Some(Rule::Drink)
    } else if may(pairs, agenda, &Rule::Eat) {
        Some(Rule::Eat)
    } else if may(pairs, agenda, &Rule::Leave) {
        Some(Rule::Leave)
    } else if may(pairs, agenda, &Rule::Start) {
        Some(Rule::Start)
    } else if may(pairs, agenda, &Rule::Hungry) {
        Some(Rule::Hungry)
    } else {
        None
    }
}

/// A bottle that is given, of the least record.
fn give_bottle(pairs: &Pairs) -> Option<Rule>
    ensures { (a : sessions.Agenda) → result ≡ find (offices.may pairs.now.plan pairs.now.me (office_at pairs.now a)) (map rules.GiveBottle (records_of pairs.now.plan pairs.now.me)) }
{
    match pairs.first_given() {
        Some(r) => Some(Rule::GiveBottle(r)),
        None => None,
    }
}

/// A fork that is given, to the least neighbour.
fn give_fork(pairs: &Pairs) -> Option<Rule>
    ensures { (a : sessions.Agenda) → result ≡ find (offices.may pairs.now.plan pairs.now.me (office_at pairs.now a)) (map rules.GiveFork (neighbours_of pairs.now.plan pairs.now.me)) }
{
    match pairs.first_fork_given() {
        Some(v) => Some(Rule::GiveFork(v)),
        None => None,
    }
}

/// A bottle that is asked for, of the least record.
fn ask_bottle(pairs: &Pairs) -> Option<Rule>
    ensures { (a : sessions.Agenda) → result ≡ find (offices.may pairs.now.plan pairs.now.me (office_at pairs.now a)) (map rules.AskBottle (records_of pairs.now.plan pairs.now.me)) }
{
    match pairs.first_asked() {
        Some(r) => Some(Rule::AskBottle(r)),
        None => None,
    }
}

/// A fork that is asked for, of the least neighbour.
fn ask_fork(pairs: &Pairs) -> Option<Rule>
    ensures { (a : sessions.Agenda) → result ≡ find (offices.may pairs.now.plan pairs.now.me (office_at pairs.now a)) (map rules.AskFork (neighbours_of pairs.now.plan pairs.now.me)) }
{
    match pairs.first_fork_asked() {
        Some(v) => Some(Rule::AskFork(v)),
        None => None,
    }
}
