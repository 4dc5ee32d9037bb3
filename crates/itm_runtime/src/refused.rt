//! Where memory is refused to a new thread.

use shared_words::Pass;
use std::alloc::AllocError;
use undo_log::Arena;

/// Memory was refused to a new thread: what it was to be made of, as it was handed in.
#[derive(Drop)]
pub struct ThreadRefused {
    pub pass: Pass,
    pub arena: Arena,
}

/// For who has no more use for the pass and the arena.
impl From<ThreadRefused> for AllocError {
    fn from(_: ThreadRefused) -> AllocError {
        AllocError
    }
}
