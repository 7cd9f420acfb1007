//! What holds of plans that carry values on.

ghost use Rattle.day_audits.specs.carried.Days.{CarriedStartsWith, DaysAreOneRun};
ghost use Rattle.day_audits.specs.carried.RunNumbers.{DaysHaveNumbersOfTheirOwn};

/// The plan that carries values on starts with them.
pub fn carried_starts_with()
    ensures { CarriedStartsWith }
{}

/// Sessions on a plan, and then others on the plan that carries its values on, end as in one serial run of all of them.
pub fn days_are_one_run()
    ensures { DaysAreOneRun }
{}

/// Of 4,294,967,296 days in turn no two have one run number.
pub fn days_have_numbers_of_their_own()
    ensures { DaysHaveNumbersOfTheirOwn }
{}
