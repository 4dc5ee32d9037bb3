//! The value log of a transaction: which value it has read of which word, in the order of first reading.
#![tactic(auto)]

mod index;
mod log;
mod rows;

pub use log::ValueLog;
