//! The plain machine: a transaction is a run of calls on a whole list of bytes.
#![tactic(auto)]

mod bytes;
mod journal;
mod limits;
mod pieces;
mod plain;

pub use limits::WORD;
pub use plain::Plain;
