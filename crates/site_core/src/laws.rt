//! Laws of offices and their journals.

ghost use denote.Param.Send.{IsSend};
ghost use Rattle.site_core.specs.contracts.office.Office as office;
ghost use Rattle.site_core.specs.Journals.{StepsAddTheirEntry, FullAtTheLimit, ReadIsReceived};
ghost use Rattle.site_core.specs.RuleOrder.{NoneNextIsAtRest};
ghost use Rattle.site_core.specs.RulesInTurn.{NextIsDoneWhereThereIsRoom};
ghost use Rattle.site_core.specs.Tickets.{SessionsGoInOrder, WithdrawnForGood};
ghost use Rattle.site_core.specs.Growing.{LinksOnlyGrow};

/// An accepted event adds its one entry, with its reply, and a refused one adds nothing.
pub fn steps_add_their_entry()
    ensures { StepsAddTheirEntry }
{}

/// A journal that is said to be full is full.
pub fn full_at_the_limit()
    ensures { FullAtTheLimit }
{}

/// What is taken of what was read of bytes is what is received of them.
pub fn what_is_read_is_received()
    ensures { ReadIsReceived }
{
    steps_add_their_entry();
}

/// An office takes its sessions one after another as they were submitted, so they finish in the order of their tickets.
pub fn sessions_go_in_order()
    ensures { SessionsGoInOrder }
{}

/// A session that was withdrawn never finishes and isn't withdrawn again, and its ticket is given to no other.
pub fn withdrawn_for_good()
    ensures { WithdrawnForGood }
{}

/// Where no rule comes next, no rule of any kind may be done, of whatever neighbour or record, and with a piece of whatever
/// size: under each consistent plan, as every `Plan` is, and of whatever office.
pub fn none_next_is_at_rest()
    ensures { NoneNextIsAtRest }
{}

/// The rule that comes next is refused for want of room alone: at a full journal, or of memory.
pub fn next_is_done_where_there_is_room()
    ensures { NextIsDoneWhereThereIsRoom }
{}

/// What an office knows of its links only grows along its journal: what its neighbours took, the numbers that it used, and
/// what it took.
///
/// It is a law over journals, with no invariant: an event of whatever office leaves no link with less.
pub fn links_only_grow()
    ensures { LinksOnlyGrow }
{}

/// An office may be handed from thread to thread.
///
/// The prover finds such facts by a search through a type's parts. An office has too many for one search, and those of
/// a program hold themselves, so the proof goes part by part (`proofs/OfficeCrosses.antt`).
pub fn an_office_crosses_threads()
    ensures { IsSend office.the_row }
{}
