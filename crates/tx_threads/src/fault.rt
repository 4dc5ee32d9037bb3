//! Why no thread was started.

ghost use Rattle.std.specs.Prelude.{◌≡◌};
ghost use Rattle.tx_threads.specs.declared.fault.ThreadsFault.TheVariants.{Memory, Words};

use shared_words::WordsFault;
use std::alloc::AllocError;
use thiserror::Error;

/// Why no thread was started.
#[derive(Debug, Drop, PartialEq, Eq, Error)]
pub enum ThreadsFault {
    #[error("no words: {0}")]
    Words(WordsFault),
    #[error("no memory")]
    Memory,
}

impl From<WordsFault> for ThreadsFault {
    ghost from_gives = { λ why fault. fault ≡ Words why };

    fn from(why: WordsFault) -> ThreadsFault {
        ThreadsFault::Words(why)
    }
}

impl From<AllocError> for ThreadsFault {
    ghost from_gives = { λ _ fault. fault ≡ Memory };

    fn from(_: AllocError) -> ThreadsFault {
        ThreadsFault::Memory
    }
}
