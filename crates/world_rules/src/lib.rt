//! Actors and worlds as contracts see them, and what holds of them whatever their engines' code is.
#![tactic(auto)]

mod actor;
mod equality;
mod fault;
mod operation;
mod passes;
mod setup;

pub use actor::{Actor, Status};
pub use fault::WorldFault;
pub use operation::{Operation, Told};
pub use passes::Passes;
pub use setup::Setup;
