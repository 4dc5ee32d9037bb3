//! What the plain machine answers where a history tells another reply.

ghost use Rattle.std.specs.Prelude.{◌≡◌, ◌≤◌, IfOk, Some, length};
ghost use Rattle.history_checker.specs.Answers.{answer_of, spot_answer};
ghost use Rattle.history_checker.specs.Verdicts.{CanReplay};

use crate::replays::replay_answer;
use crate::tables::{attempt_at, count, place};
use crate::verdict::Spot;
use crate::walk::reach;
use itm_types::{MAX_ARENA, Reply};
use std::alloc::{AllocError, Global};
use tx_attempts::Attempt;
use tx_history::History;

/// What it answers to the first call of the attempt that has another reply.
fn answer_in(
    alloc: Global,
    history: &History,
    attempt: &Attempt,
) -> Result<Option<Reply>, AllocError>
    requires replays { CanReplay history.now }
    requires arena { length attempt.now.arena ≤ MAX_ARENA }
    ensures { IfOk result (λ answer. answer ≡ answer_of history.now (Some attempt.now)) }
{
    let attempts = history.attempts.as_slice();
    let placed = place(alloc, attempts, count(attempts))?;
    if placed.fault.is_some() {
        return Ok(None);
    }
    let reached = reach(alloc, history, &placed.slots, attempt.at)?;
    match reached {
        Some(mut plain) => replay_answer(alloc, &mut plain, attempt),
        None => Ok(None),
    }
}

/// What it answers at the attempt that is wrong, where one is: to the first of its calls that has another reply.
pub(crate) fn answer(
    alloc: Global,
    history: &History,
    spot: Option<Spot>,
) -> Result<Option<Reply>, AllocError>
    requires { CanReplay history.now }
    ensures { IfOk result (λ answer. answer ≡ spot_answer history.now spot) }
{
    let Some(spot) = spot else {
        return Ok(None);
    };
    let attempts = history.attempts.as_slice();
    if spot.attempt >= attempts.len() {
        return Ok(None);
    }
    answer_in(alloc, history, attempt_at(attempts, spot.attempt))
}
