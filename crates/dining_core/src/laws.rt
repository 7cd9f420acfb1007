//! Laws of all tables with the forks and request tokens on the way.

ghost use Rattle.dining_core.specs.Worlds.{EachHasOnePlace, StrangersShareNothing, NeighboursStay, EatersHaveTheirForks, NeighboursEatApart, ForksStartDirty, OnlyEatingTurns, TheEaterComesLast, NeverARing, StartsInThePlansOrder, NoRingFromAnAcceptedPlan};
ghost use Rattle.dining_core.specs.Standstill.{CleanForksAreForTheHungry, TheThirstyWaitForAnEater};

/// After every list of events the fork of two neighbours is at one of them, or on the way, and so is its request token.
///
/// What is on the way is counted, by sender and receiver. The world could say whether a fork is on the way; then what a
/// world of links is for it, where messages wait in lists, would depend on the law that there is no more than one. A
/// count is read off a list as it is, and that it is at most 1 is a law.
pub fn each_has_one_place()
    ensures { EachHasOnePlace }
{}

/// Two offices that are no neighbours never have a fork or a request token between them.
pub fn strangers_share_nothing()
    ensures { StrangersShareNothing }
{}

/// No event changes with whom an office sits.
pub fn neighbours_stay()
    ensures { NeighboursStay }
{}

/// After every list of events an office that eats has the fork of each of its neighbours.
pub fn eaters_have_their_forks()
    ensures { EatersHaveTheirForks }
{}

/// Two neighbours never eat at once.
pub fn neighbours_eat_apart()
    ensures { NeighboursEatApart }
{}

/// At the start an office precedes the neighbour that has their fork.
pub fn forks_start_dirty()
    ensures { ForksStartDirty }
{}

/// No event but eating changes who precedes whom.
///
/// Laws of one event ask for no more than they use: this one needs the one place of that pair's fork, and that the
/// eater comes last the eater's own forks. So they hold of more worlds than events lead to.
pub fn only_eating_turns()
    ensures { OnlyEatingTurns }
{}

/// Who eats comes after all others, and these stay in order.
pub fn the_eater_comes_last()
    ensures { TheEaterComesLast }
{}

/// Where precedence has no ring at the start, no event makes one.
///
/// Who comes first is told by a list of offices, not by ranks. A list shows that there is no ring by itself, and an
/// eater goes to its end; a rank would have to be chosen anew at each meal.
pub fn never_a_ring()
    ensures { NeverARing }
{}

/// In an order of the plan's offices these precede one another at the start.
pub fn starts_in_the_plans_order()
    ensures { StartsInThePlansOrder }
{}

/// From every plan that is accepted, after every list of events, precedence has no ring.
pub fn no_ring_from_an_accepted_plan()
    ensures { NoRingFromAnAcceptedPlan }
{}

/// After every list of events an office that has a clean fork is hungry.
pub fn clean_forks_are_for_the_hungry()
    ensures { CleanForksAreForTheHungry }
{}

/// Whichever offices are thirsty: from every plan that is accepted, after every list of events, where no office may do a
/// rule, nothing is on the way and an office is thirsty, one that is thirsty eats.
///
/// A function tells which offices are thirsty, of which the law knows nothing: it is the bottles' to say, and the law
/// holds whatever they say. The rules that no office may do are named, each with its guard, so a rule that is added
/// changes neither the definition nor its proof.
pub fn the_thirsty_wait_for_an_eater()
    ensures { TheThirstyWaitForAnEater }
{}
