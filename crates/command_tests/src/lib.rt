//! Tests of what no file or terminal does at will: a reader that fails, writers that take less than they are given, or
//! nothing, or whose flush fails, and one that knows how far a run has come; and of what faults say.
#![tactic(auto)]

#[cfg(test)]
mod counted;
#[cfg(test)]
mod fakes;
#[cfg(test)]
mod tests;
