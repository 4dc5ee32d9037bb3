//! The engine's calls for C. Their header is compiled/engine.h.
#![tactic(auto)]

pub mod accesses;
pub mod blocks;
mod cells;
mod client;
mod code;
mod datum;
mod handle;
mod kept;
mod number;
mod parts;
mod root;
pub mod seats;
pub mod whole_run;
