//! How many transactions a second threads run over shared words, where transactions stand at one place of the program:
//! `bench_one_site WORKLOAD THREADS SIZE MILLISECONDS`.
#![tactic(auto)]

use bench_loads::bench;
use std::process::ExitCode;

fn main(rt: HostRuntime) -> ExitCode {
    ExitCode::from(bench::<1, HostRuntime>(&rt))
}
