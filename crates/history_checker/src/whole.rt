//! Histories are checked.

ghost use Rattle.std.specs.Prelude.{◌≡◌, ◌⊎◌, ◌↔◌, IfOk, Some};
ghost use Rattle.tx_attempts.specs.Counts.{count_committed};
ghost use Rattle.tx_history.specs.Legal.{IsLegal};
ghost use Rattle.tx_history.specs.declared.history.History.{History};
ghost use Rattle.tx_history.specs.declared.history.Version.TheVariants.{One, Two};
ghost use Rattle.history_checker.specs.declared.verdict.Verdict.TheVariants.{Legal};
ghost use Rattle.history_checker.specs.EarlyVerdicts.{early_verdict};
ghost use Rattle.history_checker.specs.Answers.{HasReason, finding_of};
ghost use Rattle.history_checker.specs.Verdicts.{bad, first_fault, verdict_of, CanReplay};

use crate::answers::answer;
use crate::endings::{final_verdict, told_fault};
use crate::rows::bad;
use crate::tables::{beyond, count, link, place};
use crate::verdict::{Finding, Spot, Verdict};
use crate::walk::walk_all;
use std::alloc::{AllocError, Global};
use tx_attempts::Attempt;
use tx_history::{History, Version};

/// A verdict, and the attempt that is wrong, where one is.
#[derive(Clone, Copy, Debug)]
struct Judged {
    verdict: Verdict,
    spot: Option<Spot>,
}

/// One of the attempts is wrong.
fn at_spot(version: Version, attempts: &[Attempt], spot: Spot) -> Judged
    ensures verdict { result.verdict ≡ bad version attempts.now spot }
    ensures spot { result.spot ≡ Some spot }
{
    Judged {
        verdict: bad(version, attempts, spot),
        spot: Some(spot),
    }
}

/// The verdict on a history, and the attempt that is wrong, where one is.
fn judge(alloc: Global, history: &History) -> Result<Judged, AllocError>
    requires { CanReplay history.now }
    ensures verdict { IfOk result (λ j. j.verdict ≡ verdict_of history.now) }
    ensures spot { IfOk result (λ j. j.spot ≡ first_fault history.now (count_committed history.now.attempts)) }
{
    let version = history.version;
    let attempts = history.attempts.as_slice();
    let count = count(attempts);
    let placed = place(alloc, attempts, count)?;
    if let Some(spot) = placed.fault {
        return Ok(at_spot(version, attempts, spot));
    }
    if let Some(spot) = beyond(attempts, count) {
        return Ok(at_spot(version, attempts, spot));
    }
    let links = link(alloc, attempts, count)?;
    let walked = walk_all(alloc, history, &placed.slots, &links)?;
    if let Some(spot) = walked.fault {
        return Ok(at_spot(version, attempts, spot));
    }
    if let Some(spot) = told_fault(&walked.told) {
        return Ok(at_spot(version, attempts, spot));
    }
    Ok(Judged {
        verdict: final_verdict(history, count, &walked.told, &walked.base),
        spot: None,
    })
}

/// Whether the history is legal, or the first line of its text that is wrong. It costs what the history holds and what
/// its calls touch; beside two copies of the memory it keeps what the calls of one attempt overwrite, each time anew.
pub fn check(alloc: Global, history: &History) -> Result<Verdict, AllocError>
    requires { CanReplay history.now }
    ensures verdict { IfOk result (λ v. v ≡ verdict_of history.now) }
    ensures legal { IfOk result (λ v. (v ≡ Legal) ↔ IsLegal history.now) }
{
    let judged = judge(alloc, history)?;
    Ok(judged.verdict)
}

/// The verdict as `check` tells it, with its reason: which attempt is wrong, and what the plain machine answers where the
/// history tells another reply.
pub fn explain(alloc: Global, history: &History) -> Result<Finding, AllocError>
    requires { CanReplay history.now }
    ensures finding { IfOk result (λ f. f ≡ finding_of history.now) }
    ensures reason { IfOk result (λ f. HasReason history.now f.spot f.answer) }
{
    let judged = judge(alloc, history)?;
    let answer = answer(alloc, history, judged.spot)?;
    Ok(Finding {
        verdict: judged.verdict,
        spot: judged.spot,
        answer,
    })
}

/// The verdict of a history of the first two versions is what it was before there were others: it is replayed with at most 16
/// open blocks. Does nothing.
pub fn early_versions()
    ensures { (h : History) → (h.version ≡ One) ⊎ (h.version ≡ Two) → verdict_of h ≡ early_verdict h }
{}
