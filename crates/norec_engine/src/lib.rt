//! The transaction of one thread, as a machine that asks for one atomic step at a time: NOrec, from
//! "NOrec: Streamlining STM by Abolishing Ownership Records" (Dalessandro, Spear, Scott, PPoPP 2010).
#![tactic(auto)]

mod blocks;
mod engine;
mod fast_path;
mod next;
mod refused;
mod restarting;
mod rounds;
mod turns;

pub use blocks::entered;
pub use engine::Engine;
pub use norec_core::{Answer, Next, Undone};
pub use refused::EngineRefused;
