//! What the rounds of a service come to.

ghost use Rattle.serving.specs.ServingLaws.{EachIsAnsweredOnce, OutcomesAreToldOnce};

/// What is asked is answered in the order in which it came, each once, by one line.
pub fn each_is_answered_once()
    ensures { EachIsAnsweredOnce }
{}

/// What finishes is told in its order, each once.
pub fn outcomes_are_told_once()
    ensures { OutcomesAreToldOnce }
{}
