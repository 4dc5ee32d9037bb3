//! Tests of what no script shows: an engine, its parts and the plain machine, whose calls are served again where memory
//! was refused.
#![tactic(auto)]

#[cfg(test)]
mod tests;
