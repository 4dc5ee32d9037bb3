//! Tests of clients: of closures as transactions, by turns, with another client's commits between, and in threads at once.
#![tactic(auto)]

#[cfg(test)]
mod at_once;
mod learning;
#[cfg(test)]
mod tests;

pub use learning::learn;
