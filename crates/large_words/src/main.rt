//! Two threads over a large memory in place: `large_words [MEBIBYTES]` lays words of so many MiB, 256 where it is not said,
//! into a vector's cells, has two threads add to words all over them, and looks at each word where it lies.
#![tactic(auto)]

mod command;
mod fault;
mod layout;
mod memory;
mod thread_work;
mod two_threads;

use std::process::ExitCode;

fn main(rt: HostRuntime) -> ExitCode {
    match command::run(&rt) {
        Ok(()) => ExitCode::SUCCESS,
        Err(fault) => ExitCode::from(fault::tell(&rt, &fault)),
    }
}
