//! Why a transaction does not go on.

ghost use Rattle.std.specs.Prelude.{◌≡◌, Some, IfOk, IfErr, OnOk};
ghost use Rattle.itm_runtime.specs.Stops.{answer_of, GoesOn};
ghost use Rattle.itm_runtime.specs.declared.stop.Stop.TheVariants.{Memory};

use itm_types::{Refusal, Reply};
use norec_core::Answer;
use std::alloc::AllocError;
use thiserror::Error;

/// Why a transaction does not go on as its program has it.
#[derive(Clone, Copy, Debug, PartialEq, Eq, Error)]
pub enum Stop {
    /// The call is refused. The transaction is as it was, open or not.
    #[error("the call is refused: {0:?}")]
    Refused(Refusal),
    /// The transaction is rolled back, and may be tried again: the fields are those of `Answer::Conflict`.
    #[error("a conflict")]
    Conflict { clock: u64, word: Option<u32> },
    /// The innermost block has gone back to just after its begin, and is to be run again from there: the fields are those
    /// of `Answer::Restarted`.
    #[error("the innermost block starts again")]
    Restarted { clock: u64, word: u32 },
    /// The transaction did not begin, and may be tried again.
    #[error("the clock is held")]
    Busy { clock: u64 },
    /// The transaction is rolled back: as many have committed as this thread's limits allow.
    #[error("as many have committed as may")]
    Full { at: u64 },
    /// Memory was refused. The transaction is as it was, open or not.
    #[error("no memory")]
    Memory,
}

impl Stop {
    /// The answer of a call after which the transaction goes on as its program has it, or why it does not. Takes no memory.
    pub fn check(answer: Answer) -> Result<Answer, Stop>
        ensures ok { IfOk result (λ a. a ≡ answer) }
        ensures goes_on { OnOk result (GoesOn answer) }
        ensures err { IfErr result (λ stop. answer_of stop ≡ Some answer) }
    {
        match answer {
            Answer::Reply(Reply::Refused(refusal)) => Err(Stop::Refused(refusal)),
            Answer::Conflict { clock, word } => Err(Stop::Conflict { clock, word }),
            Answer::Restarted { clock, word } => Err(Stop::Restarted { clock, word }),
            Answer::Busy { clock } => Err(Stop::Busy { clock }),
            Answer::Full { at } => Err(Stop::Full { at }),
            answer => Ok(answer),
        }
    }
}

impl From<AllocError> for Stop {
    ghost from_gives = { λ _ stop. stop ≡ Memory };

    fn from(_: AllocError) -> Stop {
        Stop::Memory
    }
}
