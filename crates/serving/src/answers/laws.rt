//! What a ticket promises.

ghost use Rattle.serving.specs.answers.TicketLaws.{TicketsAreNumbered, TicketsAreGiven, TicketsAreSafe};

/// The sessions that an office submitted have the tickets that it gave, from 1 on, one after the other.
pub fn tickets_are_numbered()
    ensures { TicketsAreNumbered }
{}

/// The ticket that is said of a session is the next, and the session has it from then on.
pub fn tickets_are_given()
    ensures { TicketsAreGiven }
{}

/// A session that has a ticket keeps it; asked for again nothing is submitted, and what is said is what became of it.
pub fn tickets_are_safe()
    ensures { TicketsAreSafe }
{}
