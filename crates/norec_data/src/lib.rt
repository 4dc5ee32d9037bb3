//! The fields of an engine as its callers see them, and what comes of an event.
#![tactic(auto)]

mod copies;
mod data;
mod end;
mod limits;
mod pending;
mod refusals;
mod turn;

pub use copies::{chunk_reading, chunks, direction};
pub use data::{Data, finish, roll_back};
pub use end::CallEnd;
pub use limits::EngineLimits;
pub use pending::{Cause, Pending};
pub use refusals::{access_refusal, begin_refusal, copy_refusal, mode_refusal};
pub use turn::Turn;
