//! What is drawn of an event.

use step_table::Event;
use tx_attempts::Outcome;

/// What came of an event.
#[derive(Clone, Copy, Debug)]
pub enum Came {
    /// Its call goes on.
    GoesOn,
    /// A begin opened an attempt.
    Begun,
    /// A begin opened none.
    NotBegun,
    /// A call of an attempt that goes on has its reply.
    Replied,
    /// The innermost block runs again, and so many calls of its attempt have a reply up to its begin.
    Restarted(usize),
    /// An attempt ended so, at this position.
    Ended(Outcome, u64),
}

/// An event, and what is drawn of it.
#[derive(Clone, Copy, Debug)]
pub struct Mark {
    pub event: Event,
    /// An attempt of its thread was open before it.
    pub in_attempt: bool,
    /// How many calls of the open attempt have a reply after it, and after the local work that follows; 0 where none is open.
    pub calls: usize,
    pub came: Came,
}
