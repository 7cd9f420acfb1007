//! The run number of the next day.

ghost use Rattle.std.specs.Prelude.{◌≡◌};
ghost use Rattle.day_audits.specs.carried.RunNumbers.{run_after};

/// The run number of the day that comes after the one with this number: one more, and 0 after the greatest.
pub fn next_run(run: u32) -> u32
    ensures { result ≡ run_after run 1 }
{
    run.wrapping_add(1)
}
