//! Laws of the definitions that the contracts cite.

ghost use Rattle.simulation.specs.scripts.Advancing.{OfficesAdvanceByTheirNextRules};
ghost use Rattle.simulation.specs.scripts.ScriptLines.{LinesReadBack, ScriptsReadBack};
ghost use Rattle.simulation.specs.scripts.Settling.{WorldsSettleByTheirNextSteps, WorldsSettleInOneWay};
ghost use Rattle.simulation.specs.scripts.Termination.{SettleEnds, SettleFinishes, ScriptsSettleToTheirEnds};

use frame_world::laws::{every_run_ends, messages_are_taken, never_stuck, rules_are_done};

/// The line that prints an event of a script reads back as that event, and as nothing else.
pub fn lines_read_back()
    ensures { LinesReadBack }
{}

/// The text that prints events is a script, and asks for what they do and nothing else.
pub fn scripts_read_back()
    ensures { ScriptsReadBack }
{}

/// An office that is told to advance does the rules that come next, one after the other, as many as it tells: all that were
/// asked for, or fewer, where no rule is next any more or the next one is refused. Nothing else happens.
pub fn offices_advance_by_their_next_rules()
    ensures { OfficesAdvanceByTheirNextRules }
{}

/// A world that is told to settle takes the steps that come next, one after the other, each of which is accepted: until no
/// office has a session left, which is told as finished; or as many as were asked for, where one has, which is told as open;
/// or until one is refused, where a journal is full. Nothing else happens.
pub fn worlds_settle_by_their_next_steps()
    ensures { WorldsSettleByTheirNextSteps }
{
    never_stuck();
    rules_are_done();
    messages_are_taken();
}

/// What is told of a world that settles so is one thing: just as many steps as were done while a session was left, how it
/// ended, and the world then.
pub fn worlds_settle_in_one_way()
    ensures { WorldsSettleInOneWay }
{}

/// A world that settles by more steps than its work left tells, or than its journals have room for, is finished after at most
/// so many as its work left tells, or a journal is full: it isn't told as open.
pub fn settle_ends()
    ensures { SettleEnds }
{
    worlds_settle_by_their_next_steps();
    never_stuck();
    rules_are_done();
    messages_are_taken();
    every_run_ends();
}

/// Where each journal has room for as many entries as its work left tells, it is finished.
pub fn settle_finishes()
    ensures { SettleFinishes }
{
    worlds_settle_by_their_next_steps();
    never_stuck();
    rules_are_done();
    messages_are_taken();
    every_run_ends();
}

/// In every script each line that settles the world by as many steps ends so.
pub fn scripts_settle_to_their_ends()
    ensures { ScriptsSettleToTheirEnds }
{
    settle_ends();
}
