//! The calls of a transaction that may be tried again, and the steps that they ask for. It logs what it reads and keeps what it
//! writes to itself, until a commit takes the clock: NOrec, from "NOrec: Streamlining STM by Abolishing Ownership Records"
//! (Dalessandro, Spear, Scott, PPoPP 2010).
#![tactic(auto)]

mod calls;
mod local;
mod steps;

pub use calls::{called, resumed};
pub use steps::step_of;
