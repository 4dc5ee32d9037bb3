//! What comes of many events in a row.

/// What came of a schedule's entries.
#[derive(Clone, Copy, Debug, PartialEq, Eq)]
pub struct Passes {
    /// Entries that were events, with no fault.
    pub taken: usize,
    /// Entries that name no actor, or one that had ended.
    pub passed: usize,
    /// Entries that were events, after which the actor had found no memory.
    pub starved: usize,
}
