//! The commands that run a script: by its schedule, and on threads. Each reads it, and writes the history of the run.
#![tactic(auto)]

mod by_schedule;
mod endings;
mod on_threads;
mod playing;
mod running;
mod telling;

pub use by_schedule::sched;
pub use endings::Endings;
pub use on_threads::{tell_run, threads};
pub use playing::play;
pub use running::{begin, each_out};
