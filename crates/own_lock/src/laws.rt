//! Laws of states with a history, and of the steps at a lock.

ghost use Rattle.own_lock.specs.Entries.{ExtendingIsReflexive, ExtendingIsTransitive};
ghost use Rattle.own_lock.specs.Steps.{StepsKeepTheRule, TheRuleHoldsThroughout, WordLeftIsFound};

use crate::kept::Kept;

/// A state extends itself.
pub fn extending_is_reflexive<S: Kept>()
    ensures { ExtendingIsReflexive S.key S.entries }
{}

/// A state that extends an extension of another extends that other.
pub fn extending_is_transitive<S: Kept>()
    ensures { ExtendingIsTransitive S.key S.entries }
{}

/// Each step at the table of a lock keeps its rule.
pub fn steps_keep_the_rule<S: Kept>()
    ensures { StepsKeepTheRule S.tag_of S.key S.entries S.fits }
{}

/// From the opening on, the rule of a lock holds after every list of steps.
///
/// The rule is promised by the laws alone. They are statements about the definitions, and the code meets them because
/// each call of the table asks for the rule's being kept. A call that looked at the word and said that the rule holds
/// there would say no more: some table under the rule can always be thought up, whatever the call answers.
pub fn the_rule_holds_throughout<S: Kept>()
    ensures { TheRuleHoldsThroughout S.tag_of S.key S.entries S.fits }
{}

/// From a step that leaves word to the next giving back the word is 2, whatever others do: so no pass that gives the state
/// back takes those that wait for none.
pub fn word_left_is_found<S: Kept>()
    ensures { WordLeftIsFound S.tag_of S.key S.entries S.fits }
{}
