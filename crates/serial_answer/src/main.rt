//! The program of the command `serial` alone: it hands the runtime to [`serial_command::run`].
#![tactic(auto)]

use std::process::ExitCode;

fn main(rt: HostRuntime) -> ExitCode {
    ExitCode::from(serial_command::run(&rt))
}
