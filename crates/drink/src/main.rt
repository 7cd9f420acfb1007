//! The program `drink`: it hands the runtime, and the standard error, to [`drink_program::run`].
#![tactic(auto)]

use std::process::ExitCode;

fn main(rt: HostRuntime) -> ExitCode {
    ExitCode::from(drink_program::run(&rt, &rt.stderr()))
}
