//! What can go wrong.

use std::alloc::AllocError;
use std::io;
use thiserror::Error;
use tx_threads::ThreadsFault;

/// Why the day is not told of.
#[derive(Debug, Drop, Error)]
pub enum Fault {
    #[error("no room for the accounts")]
    Places,
    #[error("the tellers came to nothing: {0}")]
    Threads(#[from] ThreadsFault),
    #[error("a transfer failed")]
    Transfer,
    #[error("{0} in all accounts")]
    Sum(u64),
    #[error(transparent)]
    Memory(#[from(alloc)] AllocError),
    #[error(transparent)]
    Print(#[from] io::Error),
}
