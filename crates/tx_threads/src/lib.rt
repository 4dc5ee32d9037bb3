//! Threads with a client each over one memory: they are started and joined, and the memory is read.
#![tactic(auto)]

mod closing;
mod equality;
mod fault;
mod running;
mod seats;
mod serving;

pub use fault::ThreadsFault;
pub use running::{Joined, MAX_THREADS, run};
pub use seats::USUAL_LIMITS;
