//! What pictures of runs have in common: how they look, and their lanes.
#![tactic(auto)]

mod lanes;
mod looks;
mod parts;

pub use lanes::{lane_in, put_lanes};
pub use looks::{colours, look_of, put_front, style};
pub use parts::{put_pair, put_text};
