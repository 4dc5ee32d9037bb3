//! Transactions as closures: a body is run as one transaction, and tried again until it ends.
#![tactic(auto)]

mod block;
mod bytes;
mod client;
mod equality;
mod failed;
mod folding;
mod stopped;
mod transaction;
mod tried;
mod waiting;

pub use client::Client;
pub use failed::Failed;
pub use stopped::Stopped;
pub use transaction::Transaction;
pub use tried::Done;
