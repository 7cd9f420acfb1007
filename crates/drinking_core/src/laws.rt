//! Laws of all bars with the bottles and request tokens on the way.

ghost use Rattle.drinking_core.specs.Worlds.{EachHasItsSpots, EachHasOnePlace, StrangersShareNothing, UnknownRecordsAreNowhere, RecordsStay, PeersStay, NoOtherSpot, BottlesStartWithTheirValues, ValuesStay, FinishingWrites, DrinkersHaveWhatTheyNeed};
ghost use Rattle.drinking_core.specs.Standstill.{TheThirstyLackAFork};

/// After every list of events the bottle of each record is with one of its ends or on the way from one to the other,
/// and so is the bottle's request token.
///
/// Where a bottle is, with its value, is told by its spot: with an office, or on the way from one to another, and
/// nowhere else. So the laws of values need no plan and no ends. What is on the way is a list, by record, sender and
/// receiver; that it has at most one element is a law. What comes is the first, so a world whose messages wait in order
/// is such a world as it is.
pub fn each_has_its_spots()
    ensures { EachHasItsSpots }
{}

/// After every list of events the bottle of a record has one place between the record's ends, and so has its request
/// token; between two other offices neither has one.
///
/// Places are counted, as for forks. What an office has counts for its record's other end alone, so the count needs the
/// plan.
pub fn each_has_one_place()
    ensures { EachHasOnePlace }
{}

/// Two offices that are no neighbours never have a bottle or a request token between them.
pub fn strangers_share_nothing()
    ensures { StrangersShareNothing }
{}

/// Of a record that the plan doesn't have there is never a bottle or a request token, at any office or on the way.
pub fn unknown_records_are_nowhere()
    ensures { UnknownRecordsAreNowhere }
{}

/// No event changes which records an office has.
pub fn records_stay()
    ensures { RecordsStay }
{}

/// No event changes whom an office asks for a record's bottle, and to whom it gives it.
pub fn peers_stay()
    ensures { PeersStay }
{}

/// A bottle that is somewhere is nowhere else, and has one value.
pub fn no_other_spot()
    ensures { NoOtherSpot }
{}

/// At the start each bottle is at the plan's end with the plan's value.
pub fn bottles_start_with_their_values()
    ensures { BottlesStartWithTheirValues }
{}

/// No event but the end of a session changes the value of a bottle.
pub fn values_stay()
    ensures { ValuesStay }
{}

/// Where an office ends its session, what was written goes into the bottles that it has, and into no other.
pub fn finishing_writes()
    ensures { FinishingWrites }
{}

/// After every list of events an office that drinks has the bottle of each of its records that its session needs.
pub fn drinkers_have_what_they_need()
    ensures { DrinkersHaveWhatTheyNeed }
{}

/// Whichever forks each office holds: after every list of events, where no office drinks or may do a rule, and nothing is
/// on the way, a thirsty office lacks a fork.
///
/// Who holds which forks is told by a function, as `dining_core`'s law is told who is thirsty. So each of the two laws
/// stands on the events of its own part alone, and joining them takes no more than handing each the other's answer.
pub fn the_thirsty_lack_a_fork()
    ensures { TheThirstyLackAFork }
{}
