//! Laws of the measures and the needs that contracts cite.

ghost use Rattle.session_programs.specs.measures.Laws.{EndsWithinItsCost, NeedsWhatItNames};

/// A session does something, and at most one more than its cost.
pub fn ends_within_its_cost()
    ensures { EndsWithinItsCost }
{}

/// The records that a session needs are just those that it names, each once, in order of number.
pub fn needs_what_it_names()
    ensures { NeedsWhatItNames }
{}
