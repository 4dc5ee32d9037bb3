//! The open blocks of a transaction, one within the other: what each goes back to, and what it hands on.
#![tactic(auto)]

mod actions;
mod frames;
mod moment;
mod moments;
mod rollback;

pub use frames::Frames;
