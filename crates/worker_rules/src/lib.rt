//! A player's run on a thread as contracts see it, and what holds of it whatever the thread's code is.
#![tactic(auto)]

mod worked;

pub use worked::Worked;
