//! Where memory is refused to a new engine.

use std::alloc::AllocError;
use undo_log::Arena;

/// Memory was refused to a new engine.
#[derive(Debug, Drop)]
pub struct EngineRefused {
    /// The arena, as it was handed in.
    pub arena: Arena,
}

/// For who has no more use for the arena.
impl From<EngineRefused> for AllocError {
    fn from(_: EngineRefused) -> AllocError {
        AllocError
    }
}
