//! Why nothing was measured.

use std::alloc::AllocError;
use std::io;
use std::num::ParseIntError;

/// Why nothing was measured.
#[derive(Clone, Copy, Debug, PartialEq, Eq)]
pub enum Fault {
    /// The words name no workload, or numbers out of range.
    Usage,
    /// Memory was refused.
    Memory,
    /// A thread ended while it held the clock.
    Held,
    /// The memory at the end is not what the commits leave.
    Wrong,
    /// The system failed.
    System,
}

impl From<AllocError> for Fault {
    fn from(_: AllocError) -> Fault {
        Fault::Memory
    }
}

impl From<io::Error> for Fault {
    fn from(_: io::Error) -> Fault {
        Fault::System
    }
}

/// A word that is no number.
impl From<ParseIntError> for Fault {
    fn from(_: ParseIntError) -> Fault {
        Fault::Usage
    }
}

/// Says why on standard error; answers the program's status.
pub fn tell(rt: &impl Eprint, fault: Fault) -> u8 {
    let (text, status) = match fault {
        Fault::Usage => (
            "usage: [counter|transfer|readonly|writes|nested THREADS SIZE MILLISECONDS [RESTARTS [COUNT]]]",
            1,
        ),
        Fault::Memory => ("no memory", 4),
        Fault::Held => ("a thread holds the clock", 2),
        Fault::Wrong => ("wrong final memory", 2),
        Fault::System => ("the system failed", 5),
    };
    // where this fails, nothing more can be said
    let _ = eprintln!(rt; "bench: {text}");
    status
}
