//! What the tries of transactions did: the records of which histories are made.
#![tactic(auto)]

mod attempt;
mod equality;
mod lists;
mod restarts;
mod undone;

pub use attempt::{Again, Attempt, CallRecord, Outcome};
pub use lists::{Attempts, Bytes, Calls, RanActions};
pub use restarts::{AgainRoom, Restarts};
pub use undone::{count_undone, undone_before};
