//! The reply of a call.

ghost use Rattle.std.specs.Prelude.{◌≡◌, ◌≤◌};
ghost use Rattle.history_reader.specs.Fields.{rest_fields};
ghost use Rattle.history_reader.specs.Replies.{refusal_of, refused, accepted, reply_of, with_reply};

use crate::digits::value;
use crate::fields::{equals, next_field, no_field, one_field};
use crate::numbers::{byte, ranged};
use itm_types::{Refusal, Reply, Width};
use script_fields::{FaultKind, both, exactly};

/// Of which kind the reply of a call is, where it is not refused.
#[derive(Clone, Copy)]
pub enum ReplyKind {
    Done,
    Code,
    Bytes(Width),
}

#[tactic(auto, unfolding(crate::specs::Replies::refusal_of))]
fn refusal_of(number: u64) -> Refusal
    ensures { result ≡ refusal_of number }
{
    match number {
        1 => Refusal::Outside,
        2 => Refusal::OutOfRange,
        3 => Refusal::OutOfArena,
        4 => Refusal::Overlap,
        5 => Refusal::NoAbort,
        6 => Refusal::IsIrrevocable,
        7 => Refusal::NoIrrevocable,
        _ => Refusal::TooDeep,
    }
}

#[tactic(auto, unfolding(crate::specs::Replies::refused))]
fn refused(rest: Option<&[u8]>) -> Result<Reply, FaultKind>
    ensures { result ≡ refused (rest_fields rest.entry) }
{
    let number = ranged(1, 8, one_field(rest)?)?;
    Ok(Reply::Refused(refusal_of(number)))
}

#[tactic(auto, unfolding(crate::specs::Replies::accepted))]
fn accepted(kind: ReplyKind, first: &[u8], rest: Option<&[u8]>) -> Result<Reply, FaultKind>
    ensures { result ≡ accepted kind first.now (rest_fields rest.entry) }
{
    match kind {
        ReplyKind::Done => {
            exactly(b"ok", first)?;
            no_field(rest)?;
            Ok(Reply::Done)
        }
        ReplyKind::Code => {
            exactly(b"code", first)?;
            let code = byte(one_field(rest)?)?;
            Ok(Reply::Code(code as u32))
        }
        ReplyKind::Bytes(width) => {
            no_field(rest)?;
            let value = value(width, first)?;
            Ok(Reply::Bytes(value))
        }
    }
}

/// The reply of a call.
#[tactic(auto, unfolding(crate::specs::Replies::reply_of))]
fn reply_of(kind: ReplyKind, rest: Option<&[u8]>) -> Result<Reply, FaultKind>
    ensures { result ≡ reply_of kind (rest_fields rest.entry) }
{
    let (first, rest) = next_field(rest)?;
    if first == b"refused".as_slice() {
        refused(rest)
    } else {
        accepted(kind, first, rest)
    }
}

/// Operands, and the reply that stands behind them.
pub fn with_reply<A: Drop>(
    operands: Result<A, FaultKind>,
    kind: ReplyKind,
    rest: Option<&[u8]>,
) -> Result<(A, Reply), FaultKind>
    ensures { result ≡ with_reply operands kind (rest_fields rest.entry) }
{
    let rest = equals(rest)?;
    both(operands, reply_of(kind, rest))
}
