//! The words at the beginning, for the proofs alone.

use std::collections::LinkedList;

/// The words at the beginning, which the rule of the cells reads. It exists in proofs alone: no value of it is made.
pub struct InitialWords {
    pub words: LinkedList<u64>,
}
