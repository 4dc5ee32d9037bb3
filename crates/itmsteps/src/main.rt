//! The program `itmsteps`: the steps of a script's run, as a table or a picture, or the picture of a history.
#![tactic(auto)]

mod choice;
mod command;
mod failure;
mod histories;
mod showing;

use std::process::ExitCode;

fn main(rt: HostRuntime) -> ExitCode {
    ExitCode::from(command::run(&rt, &mut rt.stderr()))
}
