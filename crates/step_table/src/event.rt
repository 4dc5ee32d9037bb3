//! Events, as a table tells them.

use norec_world::Operation;

/// An event of a world.
#[derive(Clone, Copy, Debug)]
pub struct Event {
    /// How many events there were, with this one.
    pub number: u64,
    /// The thread that took it.
    pub thread: u8,
    pub operation: Operation,
    /// The clock after it.
    pub clock: u64,
}
