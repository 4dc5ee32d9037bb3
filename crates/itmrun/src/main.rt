//! The program `itmrun`: scripts of transactional calls, run to histories, or printed; and histories, judged.
#![tactic(auto)]

mod command;

use std::process::ExitCode;

fn main(rt: HostRuntime) -> ExitCode {
    ExitCode::from(command::run(&rt, &mut rt.stderr()))
}
