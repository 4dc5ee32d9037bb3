//! Why there are no words.

use thiserror::Error;

/// Why `Words::new` answers no `Ok`.
#[derive(Clone, Copy, Debug, PartialEq, Eq, Error)]
pub enum WordsFault {
    /// There are no bytes, no whole number of words, or more bytes than a memory may have.
    #[error("the memory has a wrong size")]
    Length,
    /// Memory was refused.
    #[error("no memory")]
    Memory,
}
