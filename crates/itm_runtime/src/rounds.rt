//! Validation rounds, and the commit that is tried again after one, with no dispatch over all phases.
//!
//! Each function does the step that is asked for and those that come with it, and tells the next one.

ghost use Rattle.std.specs.Prelude.{◌≡◌, ◌+◌};
ghost use Rattle.norec_core.specs.Phases.{RoundStart};
ghost use Rattle.norec_engine.specs.BlockSteps.{WaitsForClock};
ghost use Rattle.norec_engine.specs.NextSteps.{next_in};
ghost use Rattle.norec_engine.specs.Rounds.{Validates};
ghost use Rattle.shared_words.specs.Passes.{Owns, view_of};
ghost use Rattle.call_rules.specs.Drives.{StepsOn};
ghost use Rattle.call_rules.specs.InCall.{InCall};
ghost use Rattle.call_rules.specs.Served.{Start};

use crate::blocks::write_back;
use itm_types::Step;
use norec_core::Answer;
use norec_engine::Engine;
use shared_words::{Pass, Words};
use std::alloc::Allocator;

/// A round: loads the clock, then the logged words as far as they are unchanged, and the clock again, as far as the engine
/// asks for them. At an odd clock, or where a block may go back to its begin alone, it leaves the rest to its caller.
#[inline(always)]
pub(crate) fn round<A: Allocator>(
    words: &Words<A>,
    pass: &mut Pass,
    engine: &mut Engine,
    answer: &mut Answer,
) -> Option<Step>
    requires own { Owns words.now pass.old }
    requires starts { Validates engine.old RoundStart 0 }
    requires due { (s : Start) × InCall s (view_of pass.old) engine.old (Step.Load 0) }
    ensures { StepsOn words.now (view_of pass.old) engine.old (Step.Load 0) pass.new engine.new (next_in result answer.new) }
{
    let seen = words.step(pass, Step::Load(0));
    let mut next = engine.round_started(seen, answer);
    while let Some(cell) = engine.row_ahead() {
        let seen = words.step(pass, Step::Load(cell));
        next = engine.row_loaded(seen, answer);
    }
    if engine.ends_round() {
        let seen = words.step(pass, Step::Load(0));
        next = engine.round_ended(seen, answer);
    }
    next
}

/// Takes the clock for a commit that has lost it before, stores the rows, and frees it. Where another value was found there, hands
/// it in: a new round begins, or the call is over where no try is left.
#[inline(always)]
pub(crate) fn commit_again<A: Allocator>(
    words: &Words<A>,
    pass: &mut Pass,
    engine: &mut Engine,
    answer: &mut Answer,
) -> Option<Step>
    requires own { Owns words.now pass.old }
    requires takes { WaitsForClock engine.old }
    requires due { (s : Start) × InCall s (view_of pass.old) engine.old (Step.Cas 0 engine.old.snapshot (engine.old.snapshot + 1)) }
    ensures { StepsOn words.now (view_of pass.old) engine.old (Step.Cas 0 engine.old.snapshot (engine.old.snapshot + 1)) pass.new engine.new (next_in result answer.new) }
{
    match write_back(words, pass, engine) {
        Ok(loads) => {
            let at = engine.rows_stored(loads);
            *answer = Answer::Committed { at, wrote: true };
            None
        }
        Err(found) => engine.resume_into(found, answer),
    }
}
