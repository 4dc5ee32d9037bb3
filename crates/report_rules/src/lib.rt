//! A run of a program's threads as contracts see it, and what holds of it whatever the threads' code is.
#![tactic(auto)]

mod done;
mod equality;
mod report;

pub use done::Done;
pub use report::{HostFault, Report};
