//! The headline, over definitions: what holds of every world that a list of events leads to.

ghost use Rattle.frame_world.specs.Headline.{Always, HasSerialSessions, HasSerialValues, HasOnePlaceEach, NeighboursEatApart, EatersHaveTheirForks, DrinkersHaveTheirBottles, FramesAreTaken, NoneIsEarly, CountsAreTimely, NumbersTellMessages, PrecedenceHasNoRing, FramesInRangeGoByBytes};
ghost use Rattle.frame_world.specs.Strict.{IsStrict};
ghost use Rattle.frame_world.specs.Tickets.{HaveTheirTickets, TicketsRise, TellsEachOffice};
ghost use Rattle.frame_world.specs.Standstill.{NeverStuck, RulesAreDone, MessagesAreTaken};
ghost use Rattle.frame_world.specs.RequestsFollow.{RequestsFollow, RequestsFindTheirThings};
ghost use Rattle.frame_world.specs.Termination.{StepsUseUpWork, EveryRunEnds, WhoGoesOnFinishes};
ghost use Rattle.frame_world.specs.Waiting.{EachIsHeldOrWaits, FewMessagesWait, NoFrameIsFarAhead};
ghost use Rattle.frame_world.specs.refinement.PartsLaws.{PartsLaws};

use dining_core::laws as tables;
use drinking_core::laws as bars;
use frame_codec::laws::each_spelling_is_of_one_frame;
use session_meaning::laws::writes_what_it_has;
use session_programs::measures::laws::ends_within_its_cost;
use site_core::laws::{links_only_grow, none_next_is_at_rest, sessions_go_in_order};
use token_channel::laws::{opens_as_the_plan_starts, what_comes_was_away, what_follows_was_away};

/// The finished sessions read, gave and wrote what they do when they run alone, one after another in finishing order.
pub fn sessions_are_serial()
    ensures { Always HasSerialSessions }
{
    parts_hold();
}

/// The serial order is strict: what has finished when a session is submitted comes before it. Whatever happens, the
/// finishing order only grows at its end.
pub fn order_is_strict()
    ensures { Always IsStrict }
{}

/// Each finished session has the ticket that was answered when it was submitted.
pub fn finished_have_their_tickets()
    ensures { Always HaveTheirTickets }
{}

/// The finished sessions of an office have rising tickets, so no ticket of it stands twice.
pub fn tickets_rise()
    ensures { Always TicketsRise }
{
    sessions_go_in_order();
}

/// What an office tells of its finished sessions is what the finishing list has of it, in the same order.
pub fn each_office_is_told()
    ensures { Always TellsEachOffice }
{}

/// Each record has one bottle, which has the value of that serial run.
pub fn bottles_are_serial()
    ensures { Always HasSerialValues }
{
    parts_hold();
    bars::each_has_its_spots();
    bars::no_other_spot();
}

/// Each fork, bottle and request token of two offices is at one place, and two offices have no other.
pub fn things_have_one_place()
    ensures { Always HasOnePlaceEach }
{
    tables::each_has_one_place();
    bars::each_has_one_place();
}

/// Two neighbours never eat at once.
pub fn neighbours_never_eat_at_once()
    ensures { Always NeighboursEatApart }
{
    tables::neighbours_eat_apart();
}

/// An office that eats has the fork of each of its neighbours.
pub fn who_eats_has_its_forks()
    ensures { Always EatersHaveTheirForks }
{
    tables::neighbours_stay();
    tables::eaters_have_their_forks();
}

/// An office drinks just where it works, and has the bottles that its session needs with the values that its work began
/// with.
pub fn who_drinks_has_its_bottles()
    ensures { Always DrinkersHaveTheirBottles }
{
    parts_hold();
}

/// From every accepted plan precedence never has a ring.
pub fn precedence_has_no_ring()
    ensures { PrecedenceHasNoRing }
{
    tables::no_ring_from_an_accepted_plan();
}

/// No frame that was sent is refused for what it says, whatever is lost, repeated or reordered: an office never answers that
/// it can't be read, or that the channel to its sender refuses it.
pub fn sent_frames_are_taken()
    ensures { Always FramesAreTaken }
{
    tables::each_has_one_place();
    bars::each_has_one_place();
}

/// A frame in the format's ranges has bytes that spell it and no other, and whichever office gets them takes that frame. So
/// what a world hands on as frames may go as bytes.
pub fn frames_go_by_bytes()
    ensures { FramesInRangeGoByBytes }
{
    each_spelling_is_of_one_frame();
}

/// The count of each frame that was ever sent is at least what its sender had taken when it sent the frame's message.
pub fn counts_are_timely()
    ensures { Always CountsAreTimely }
{
    links_only_grow();
}

/// A number is of one message: two frames that an office ever sent to another under one number have the same message.
pub fn numbers_tell_messages()
    ensures { Always NumbersTellMessages }
{}

/// Each thing that an office shares with another is held there, or waits there once for the other, or neither.
pub fn each_is_held_or_waits()
    ensures { Always EachIsHeldOrWaits }
{}

/// Of B records between two neighbours at most `2 + 2B` messages wait at either.
pub fn few_messages_wait()
    ensures { Always FewMessagesWait }
{
    opens_as_the_plan_starts();
}

/// No frame that was ever sent has a number more than 18 past what its addressee took.
pub fn no_frame_is_far_ahead()
    ensures { Always NoFrameIsFarAhead }
{
    opens_as_the_plan_starts();
    tables::each_has_one_place();
    bars::each_has_one_place();
}

/// No event is answered that a frame comes too early: the addressee of each frame that was ever sent has a place for its
/// message, or had it before.
pub fn none_is_early()
    ensures { Always NoneIsEarly }
{
    no_frame_is_far_ahead();
}

/// From every accepted plan there is something to do in every world, or no session is left: what comes next is a rule that
/// may be done, or a message that is next, or else no office has a session that is current or waits.
pub fn never_stuck()
    ensures { NeverStuck }
{
    parts_hold();
    who_eats_has_its_forks();
    none_next_is_at_rest();
    tables::each_has_one_place();
    tables::the_thirsty_wait_for_an_eater();
    bars::the_thirsty_lack_a_fork();
}

/// A rule that may be done is answered Done, unless the office's journal is full.
pub fn rules_are_done()
    ensures { Always RulesAreDone }
{}

/// The message that is next for a neighbour is sent, and its frame is taken, unless one of the two journals is full.
pub fn messages_are_taken()
    ensures { Always MessagesAreTaken }
{
    sent_frames_are_taken();
}

/// A request token never overtakes its thing: where both are on the way to an office, the thing comes first.
pub fn requests_follow()
    ensures { Always RequestsFollow }
{
    tables::each_has_one_place();
    bars::each_has_one_place();
    bars::peers_stay();
}

/// A request that an office takes finds there what it asks for.
pub fn requests_find_their_things()
    ensures { Always RequestsFindTheirThings }
{
    tables::each_has_one_place();
    bars::each_has_one_place();
    bars::peers_stay();
}

/// Each step lowers the work that is left, and nothing but a submitted session raises it.
pub fn steps_use_up_work()
    ensures { Always StepsUseUpWork }
{
    parts_hold();
    tables::each_has_one_place();
    bars::each_has_one_place();
    ends_within_its_cost();
}

/// In whatever order rules are done and frames come, from each world at most so many steps are made as its work left tells,
/// until a session is submitted.
pub fn every_run_ends()
    ensures { EveryRunEnds }
{
    steps_use_up_work();
}

/// Whoever goes on making steps, and submits nothing more, finishes every session.
pub fn who_goes_on_finishes()
    ensures { Always WhoGoesOnFinishes }
{
    steps_use_up_work();
}

/// What the parts promise by themselves.
fn parts_hold()
    ensures { PartsLaws }
{
    what_comes_was_away();
    what_follows_was_away();
    writes_what_it_has();
    bars::records_stay();
    bars::peers_stay();
    bars::bottles_start_with_their_values();
    bars::values_stay();
    bars::finishing_writes();
}
