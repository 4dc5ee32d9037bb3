//! Why there is nothing to tell.

use itm_runtime::Stop;
use std::alloc::AllocError;
use std::io;
use thiserror::Error;

/// Why there is nothing to tell.
#[derive(Debug, Drop, Error)]
pub enum Fault {
    #[error("usage: large_words [MEBIBYTES], a number from 1 to 32767; 256 where it is not said")]
    Usage,
    #[error("a transaction stopped: {0}")]
    Stopped(#[from] Stop),
    #[error("a transaction was tried too often")]
    Tries,
    #[error("a thread ended while it held the clock")]
    Held,
    #[error("the words are not what the transactions leave")]
    Wrong,
    #[error("no memory")]
    Memory(#[from(alloc)] AllocError),
    #[error("the system failed")]
    System(#[from] io::Error),
}

/// Says why on standard error; answers the program's status.
pub fn tell(rt: &impl Eprint, fault: &Fault) -> u8 {
    // where this fails, nothing more can be said
    let _ = eprintln!(rt; "large_words: {fault}");
    match fault {
        Fault::Usage => 1,
        Fault::Stopped(_) | Fault::Tries | Fault::Held | Fault::Wrong => 2,
        Fault::Memory(_) => 4,
        Fault::System(_) => 5,
    }
}
