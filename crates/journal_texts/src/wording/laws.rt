//! Laws of the definitions that the contracts cite.

ghost use Rattle.journal_texts.specs.wording.Words.{LinesAreCutIntoTheirWords};
ghost use Rattle.journal_texts.specs.wording.Rules.{RulesReadBack};

/// A line of words with a space between is cut into these words.
pub fn lines_are_cut_into_their_words()
    ensures { LinesAreCutIntoTheirWords }
{}

/// What a rule is written as are words, and they say that rule and nothing else.
pub fn rules_read_back()
    ensures { RulesReadBack }
{}
