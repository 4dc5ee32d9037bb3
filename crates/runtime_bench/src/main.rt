//! How many transactions a second threads run over shared words, where transactions stand at ten places of the
//! program, and of transactions with an inner block: `runtime_bench WORKLOAD THREADS SIZE MILLISECONDS`.
#![tactic(auto)]

use bench_loads::bench;
use std::process::ExitCode;

fn main(rt: HostRuntime) -> ExitCode {
    ExitCode::from(bench::<10, HostRuntime>(&rt))
}
