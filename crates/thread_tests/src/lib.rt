//! Tests of threads: of transactions over shared words by turns and beside one that holds the clock, of an engine that is
//! driven by hand, and of scripts on threads, in an order that a gate makes.
#![tactic(auto)]

#[cfg(test)]
mod tests;
