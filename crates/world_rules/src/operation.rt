//! What an actor waits for.

use itm_types::Step;

/// The operation that comes next from an actor.
#[derive(Clone, Copy, Debug)]
pub struct Operation {
    pub step: Step,
    /// What it finds on the cells as they are: the value loaded, the one that an exchange meets, or 0 for a store.
    pub found: u64,
}

/// What is told of an event.
#[derive(Clone, Copy, Debug)]
pub struct Told {
    /// The call in progress goes on.
    pub goes_on: bool,
    /// How many calls of the open attempt had a reply once the operation was done, before the local work that follows it; 0
    /// where none was open.
    pub calls: usize,
}
