//! Why an event did not come off.

use thiserror::Error;

/// Why `go` answers no `Ok`.
#[derive(Clone, Copy, Debug, PartialEq, Eq, Error)]
pub enum WorldFault {
    /// The world is as it was.
    #[error("there is no such actor")]
    NoSuchActor,
    /// The world is as it was.
    #[error("the actor has ended")]
    Ended,
    /// The event took place, and then memory was refused to its actor, which has ended.
    #[error("no memory")]
    NoMemory,
}
