//! What the tries of transactions did.

ghost use Rattle.std.specs.Prelude.{◌≡◌};
ghost use Rattle.tx_attempts.specs.Attempts.{blank};

use crate::lists::{Bytes, Calls, RanActions};
use crate::restarts::Restarts;
use itm_types::{Call, Props, Reply};
use std::alloc::Global;

/// How an attempt stands.
#[derive(Clone, Copy, Debug, PartialEq, Eq)]
pub enum Outcome {
    /// It wrote and committed, at its position.
    Committed,
    /// It committed and wrote nothing.
    ReadOnly,
    /// Its block was cancelled.
    Cancelled,
    /// A logged word had changed, or no validation round was left.
    Conflict,
    /// As many writers as may be had committed.
    Full,
    /// Memory was refused to it.
    NoMemory,
    /// It has not ended.
    Unfinished,
}

/// A call with its reply.
#[derive(Debug, Drop, PartialEq, Eq)]
pub struct CallRecord {
    pub call: Call,
    pub reply: Reply,
}

/// That an inner block ran again from its begin.
#[derive(Debug, Drop)]
pub struct Again {
    /// How many calls stand up to its begin, which is the last of them.
    pub kept: usize,
    /// The arena from which it ran again.
    pub arena: Bytes,
    /// The actions that had run since its begin, in order, those of its rollback among them.
    pub undone: RanActions,
}

/// One try of an outermost block, from its accepted begin on.
#[derive(Debug, Drop)]
pub struct Attempt {
    pub outcome: Outcome,
    /// The properties of the block.
    pub props: Props,
    /// The actor.
    pub thread: u8,
    /// Which try of its block it is, counted from 1, those that never got past the begin too.
    pub nth: u32,
    /// How many writers had committed when its begin was called.
    pub began: u64,
    /// Half the snapshot: it saw the memory that so many first commits leave.
    pub at: u64,
    /// The actor's arena at the begin.
    pub arena: Bytes,
    /// The calls that have a reply, after the begin.
    pub calls: Calls,
    /// The inner blocks that ran again, by the calls up to their begins. What such a block did before is told nowhere else.
    pub restarts: Restarts,
    /// The actions that have run, in order: undo actions of what was rolled back, and commit actions once it has committed.
    pub ran: RanActions,
}

impl Attempt {
    /// An attempt that has not begun, in whose place one will. Takes no memory.
    #[inline(always)]
    pub fn blank(alloc: Global) -> Self
        ensures { result ≡ blank }
    {
        Attempt {
            outcome: Outcome::Unfinished,
            props: Props::default(),
            thread: 0,
            nth: 0,
            began: 0,
            at: 0,
            arena: Bytes::new(Vec::new(alloc)),
            calls: Calls::new(alloc),
            restarts: Restarts::none(),
            ran: RanActions::new(alloc),
        }
    }
}
