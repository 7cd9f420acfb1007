//! What holds of the worlds of two days.

ghost use Rattle.day_audits.specs.days.TwoDays.{WorldsOfTwoDaysAreOneRun};

use crate::carried::laws::days_are_one_run;

/// The sessions of two days end as in one serial run.
pub fn worlds_of_two_days_are_one_run()
    ensures { WorldsOfTwoDaysAreOneRun }
{
    days_are_one_run();
}
