//! How many transactions a second threads run over shared words, where transactions stand at two places of the program:
//! `bench_two_sites WORKLOAD THREADS SIZE MILLISECONDS`.
#![tactic(auto)]

use bench_loads::bench;
use std::process::ExitCode;

fn main(rt: HostRuntime) -> ExitCode {
    ExitCode::from(bench::<2, HostRuntime>(&rt))
}
