//! What a run came to.

use thiserror::Error;
use tx_history::History;
use tx_runs::End;

/// What a run on threads came to.
#[derive(Debug, Drop)]
pub struct Report {
    /// The attempts stand by thread, each thread's in their order.
    pub history: History,
    /// How each thread ended, by thread.
    pub ends: Vec<End>,
}

/// Why there is no report.
#[derive(Clone, Copy, PartialEq, Eq, Debug, Error)]
pub enum HostFault {
    /// Memory was refused. The workers that had started were joined first.
    #[error("no memory")]
    NoMemory,
    /// A thread was refused. The workers that had started were joined first.
    #[error("no thread")]
    NoThread,
    /// A thread's last transaction stays irrevocable and open: the clock is held for ever, and there are no final bytes.
    #[error("a thread holds the clock for ever")]
    Held,
}
