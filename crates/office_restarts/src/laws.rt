//! What holds of offices that are lost and opened again.

ghost use Rattle.office_restarts.specs.Restarts.{RestartsAreOneWorld, WhatStoodStands};
ghost use Rattle.office_restarts.specs.Termination.{FewStepsStand, OfficesThatGoOnFinish};

use frame_world::laws::{never_stuck, steps_use_up_work};
use journal_weave::laws::woven_is_serial;

/// Offices that are lost and opened again from what stood of their journals, of which no frame left before its entry stood, are
/// one world in which none was ever lost: the headline holds of what their journals tell.
pub fn restarts_are_one_world()
    ensures { RestartsAreOneWorld }
{
    woven_is_serial();
}

/// What stood of an office's journal once stands for good, however often it is lost.
pub fn what_stood_stands()
    ensures { WhatStoodStands }
{}

/// However much is lost and done again, no more steps ever stand than the plan starts with work, and the submitted sessions bring.
pub fn few_steps_stand()
    ensures { FewStepsStand }
{
    steps_use_up_work();
}

/// Offices that go on, each with its rounds, where of each message that waits some frame arrives, finish every session that stands,
/// however often they are lost, if nothing more is submitted.
pub fn offices_that_go_on_finish()
    ensures { OfficesThatGoOnFinish }
{
    steps_use_up_work();
    never_stuck();
}
