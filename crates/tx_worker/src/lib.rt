//! One thread's whole run over shared words: a player's transactions, one after the other, each try of them recorded.
#![tactic(auto)]

mod equality;
mod gate;
mod places;
mod run;
mod sink;
mod worked;
mod worker;

pub use gate::{Gate, GateShut, Open};
pub use run::work;
pub use sink::{ActionSink, Quiet};
pub use worked::Worked;
