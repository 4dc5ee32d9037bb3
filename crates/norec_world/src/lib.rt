//! Actors over one memory, one atomic step at a time.
#![tactic(auto)]

mod actor;
mod listed;
mod memory;
mod places;
mod schedule;
mod start;
mod work;
mod world;

pub use listed::Attempts;
pub use tx_attempts::{Again, Attempt, Bytes, CallRecord, Calls, Outcome, RanActions, Restarts};
pub use tx_runs::End;
pub use world::World;
pub use world_rules::{Operation, Passes, Setup, Told, WorldFault};
