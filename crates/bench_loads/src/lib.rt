//! How many transactions a second threads run over shared words, where transactions stand at so many places of the program.
//! The programs above say how many: a place that never runs counts too, so no word of a command line can tell it.
#![tactic(auto)]

mod bodies;
mod command;
mod crowd;
mod draw;
mod fault;
mod measure;
mod nested;
mod sites;
mod task;
mod worker;
mod workload;

use std::rt::{Clock, Env};
use std::thread::Threads;

/// Does what the program's words say: `WORKLOAD THREADS SIZE MILLISECONDS`. Two more may follow: how often inner blocks may go
/// back to their begins alone in a transaction, and how many transactions each thread commits, in the place of the time. With
/// no words it runs some of each workload on one thread, and prints what they came to. Answers the program's status.
///
/// Each transaction is at another one of `SITES` places than the one before, each with calls of the runtime of its own. The
/// program has 1 of them, 2 or else 10, and the `nested` workload, at a place of its own, where it has 10.
pub fn bench<const SITES: u64, R: Env + Threads + Clock + AllocGlobal + Print + Eprint + Sync>(
    rt: &R,
) -> u8 {
    match command::run::<SITES, R>(rt) {
        Ok(()) => 0,
        Err(fault) => fault::tell(rt, fault),
    }
}
