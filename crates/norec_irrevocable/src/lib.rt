//! The calls of an irrevocable transaction. It holds the clock from call to call, so no other thread commits: what it
//! reads is loaded, one load for each word, and what it writes is stored at once.
#![tactic(auto)]

mod access;
mod blocks;
mod calls;
mod copy;
mod fill;
mod local;
mod read;
mod steps;
mod write;

pub use calls::{called, resumed};
pub use steps::step_of;
