//! What holds of schedules beside what offices tell.

ghost use Rattle.journal_weave.specs.Laws.{NoneGoesFurther, WovenIsSerial};
ghost use Rattle.journal_weave.specs.WorldRecords.{WovenIsRecord, WorldsAreWoven, SchedulesDifferInOrder, WorldsAreFoundAgain};

use frame_world::laws::{
    bottles_are_serial, each_office_is_told, finished_have_their_tickets, sessions_are_serial,
};

/// A schedule that goes along with what is told can go on, or has all that any other has.
pub fn none_goes_further()
    ensures { NoneGoesFurther }
{}

/// The sessions of a woven schedule read, gave and wrote what they do in a serial run, in its finishing order.
pub fn woven_is_serial()
    ensures { WovenIsSerial }
{
    sessions_are_serial();
    bottles_are_serial();
}

/// Journals are woven from a schedule just where all its events are accepted, and they are the record of its world.
pub fn woven_is_record()
    ensures { WovenIsRecord }
{}

/// The journals of every world that events lead to, good or refused, are woven from a schedule, which leads to that world.
///
/// It leads to the world itself, and not only to one with its journals. So which events were refused is of no matter
/// for any law of schedules.
pub fn worlds_are_woven()
    ensures { WorldsAreWoven }
{
    woven_is_record();
}

/// Two schedules of the same journals lead to the same offices, and to worlds that differ in order alone.
///
/// It is said of worlds, and of all that a world is: offices, each office's finished sessions in order, frames,
/// bottles. So it holds of whatever reads a world, and of schedules that nobody found. That the frames are the same
/// ones in another order is said by counting those that pass a test, whatever it is: so no frames have to be compared,
/// and no exchanges named.
pub fn schedules_differ_in_order()
    ensures { SchedulesDifferInOrder }
{
    finished_have_their_tickets();
    each_office_is_told();
}

/// A world differs in order alone from each to which a schedule leads that is woven from its journals.
pub fn worlds_are_found_again()
    ensures { WorldsAreFoundAgain }
{
    worlds_are_woven();
    schedules_differ_in_order();
}
