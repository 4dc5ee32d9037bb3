//! The numbers by which C is told what a call came to.

ghost use Rattle.std.specs.Prelude.{◌≡◌, Some};
ghost use Rattle.itm_runtime.specs.Stops.{answer_of};
ghost use Rattle.itm_c.specs.Codes.{answer_of_result, code_of};

use itm_runtime::Stop;
use itm_types::Reply;
use norec_core::Answer;
use std::alloc::AllocError;

/// The call is done.
pub const DONE: u32 = 0;

/// The transaction committed, and had written nothing.
pub const READ_ONLY: u32 = 32;

/// The transaction committed, and what it wrote stands in the cells.
pub const COMMITTED: u32 = 33;

/// The whole transaction is rolled back, and may be begun again.
pub const CONFLICT: u32 = 64;

/// The innermost block has gone back to just after its begin.
pub const RESTARTED: u32 = 65;

/// A begin found the clock held, and nothing has begun.
pub const BUSY: u32 = 66;

/// As many have committed as may.
pub const FULL: u32 = 67;

/// Memory was refused, and nothing is changed.
pub const MEMORY: u32 = 68;

/// As many threads have entered as may be at once.
pub const NO_SEAT: u32 = 69;

/// The transaction is irrevocable, and has to commit before its thread leaves.
pub const HELD: u32 = 70;

/// A thread that has entered has not left.
pub const STILL_ENTERED: u32 = 71;

/// The call is refused: this and the refusal's number.
pub const REFUSED: u32 = 80;

/// The number of a refusal of cells that are too few or too many.
pub const OUT_OF_RANGE: u32 = 82;

/// The number that tells of the answer.
#[inline(always)]
pub fn told(answer: Answer) -> u32
    ensures { result ≡ code_of (Some answer) }
{
    match answer {
        Answer::Reply(reply) => told_reply(reply),
        Answer::Committed {
            at: _,
            wrote: false,
        } => READ_ONLY,
        Answer::Committed { at: _, wrote: true } => COMMITTED,
        Answer::Conflict { .. } => CONFLICT,
        Answer::Restarted { .. } => RESTARTED,
        Answer::Busy { .. } => BUSY,
        Answer::Full { .. } => FULL,
    }
}

#[inline(always)]
fn told_reply(reply: Reply) -> u32
    ensures { result ≡ code_of (Some (Answer.Reply reply)) }
{
    match reply {
        Reply::Done | Reply::Bytes(_) => DONE,
        Reply::Code(code) => code,
        Reply::Refused(refusal) => REFUSED + refusal.number() as u32,
    }
}

/// The number that tells of the answer, or that memory was refused.
#[inline(always)]
pub fn told_if(answer: Result<Answer, AllocError>) -> u32
    ensures { result ≡ code_of (answer_of_result answer) }
{
    match answer {
        Ok(answer) => told(answer),
        Err(_) => MEMORY,
    }
}

/// The number that tells why a transaction does not go on.
#[inline(always)]
pub fn told_stop(stop: Stop) -> u32
    ensures { result ≡ code_of (answer_of stop) }
{
    match stop {
        Stop::Refused(refusal) => REFUSED + refusal.number() as u32,
        Stop::Conflict { .. } => CONFLICT,
        Stop::Restarted { .. } => RESTARTED,
        Stop::Busy { .. } => BUSY,
        Stop::Full { .. } => FULL,
        Stop::Memory => MEMORY,
    }
}
