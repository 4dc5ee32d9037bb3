//! Whether a history is legal: its committed attempts are run alone one after the other by position, and each other
//! attempt alone on what so many first ones leave. An inner block that ran again goes on from the arena that is told.
#![tactic(auto)]

mod answers;
mod endings;
mod equality;
mod matches;
mod replays;
mod restarts;
mod rows;
mod tables;
mod verdict;
mod walk;
mod whole;

pub use verdict::{BadKind, Fault, Finding, Spot, Verdict};
pub use whole::{check, early_versions, explain};
