//! The scripts of a program on threads: each thread of the program has a worker of its own over shared words.
#![tactic(auto)]

mod gather;
mod join;
mod start;
mod threads;
mod versions;
mod workers;

pub use report_rules::{HostFault, Report};
pub use threads::run_threads;
pub use tx_worker::{ActionSink, Gate, GateShut, Open, Quiet, Worked, work};
pub use versions::version_of;
