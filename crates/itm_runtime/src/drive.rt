//! The steps of a call, one after the other.

ghost use Rattle.std.specs.Prelude.{◌+◌};
ghost use Rattle.shared_words.specs.declared.view.View.{View};
ghost use Rattle.shared_words.specs.Passes.{IsOver, Owns, cells_of, view_of};
ghost use Rattle.shared_words.specs.Steps.{StepTells};
ghost use Rattle.call_rules.specs.Served.{Start};
ghost use Rattle.call_rules.specs.InCall.{InCall, IsDue, IsDone};
ghost use Rattle.call_rules.specs.Drives.{Finishes, HasStepped, StepsOn};
ghost use Rattle.norec_core.specs.declared.answer.Next.TheVariants.{Step as Asks};
ghost use Rattle.norec_engine.specs.NextSteps.{next_in};
ghost use Rattle.norec_engine.specs.WholeReads.{LoadsWord};

use crate::rounds::{commit_again, round};
use itm_types::{Reply, Step};
use norec_core::Answer;
use norec_engine::Engine;
use shared_words::{Pass, Words};
use std::alloc::Allocator;

/// Does the steps of a call, from this one on where it asks for one, up to its answer.
#[inline(always)]
pub(crate) fn finish<A: Allocator>(
    words: &Words<A>,
    pass: &mut Pass,
    engine: &mut Engine,
    first: Option<Step>,
    answer: &mut Answer,
)
    requires own { Owns words.now pass.old }
    requires due { (s : Start) × IsDue s (view_of pass.old) engine.old (next_in first answer.old) }
    ensures { Finishes words.now (view_of pass.old) engine.old (next_in first answer.old) answer.new pass.new engine.new }
{
    match first {
        Some(step) => drive(words, pass, engine, step, answer),
        None => {}
    }
}

/// Does the steps of a read of one whole word that it asks for: loads the word, and the clock to confirm it.
#[inline(always)]
pub(crate) fn finish_read<A: Allocator>(
    words: &Words<A>,
    pass: &mut Pass,
    engine: &mut Engine,
    word: u32,
) -> Answer
    requires own { Owns words.now pass.old }
    requires loads { LoadsWord engine.old word }
    requires due { (s : Start) × InCall s (view_of pass.old) engine.old (Step.Load (word + 1)) }
    ensures { Finishes words.now (view_of pass.old) engine.old (Asks (Step.Load (word + 1))) result pass.new engine.new }
{
    let value = words.step(pass, Step::Load(word + 1));
    let clock = words.step(pass, Step::Load(0));
    engine.load_fast(value);
    if clock != engine.snapshot() {
        return finish_moved(words, pass, engine, clock);
    }
    let mut answer = Answer::Reply(Reply::Done);
    engine.confirm_fast(word, clock, &mut answer);
    answer
}

/// The same once another one has committed: the clock was loaded, and is not the snapshot.
#[cold]
#[inline(never)]
pub(crate) fn finish_moved<A: Allocator>(
    words: &Words<A>,
    pass: &mut Pass,
    engine: &mut Engine,
    clock: u64,
) -> Answer
    requires own { Owns words.now pass.old }
    requires due { (s : Start) × (v : View) × IsOver (cells_of words.now) v × InCall s v engine.old (Step.Load 0) × StepTells v (Step.Load 0) clock (view_of pass.old) }
    ensures { (v : View) → HasStepped v (Step.Load 0) clock (view_of pass.old) → Finishes words.now v engine.old (Asks (Step.Load 0)) result pass.new engine.new }
{
    let mut answer = Answer::Reply(Reply::Done);
    let next = engine.resume_into(clock, &mut answer);
    finish(words, pass, engine, next, &mut answer);
    answer
}

/// Does the steps that the call asks for, from this one on, up to its answer.
#[inline(never)]
fn drive<A: Allocator>(
    words: &Words<A>,
    pass: &mut Pass,
    engine: &mut Engine,
    first: Step,
    answer: &mut Answer,
)
    requires own { Owns words.now pass.old }
    requires due { (s : Start) × InCall s (view_of pass.old) engine.old first }
    ensures { Finishes words.now (view_of pass.old) engine.old (Asks first) answer.new pass.new engine.new }
{
    let mut next = Some(first);
    while let Some(step) = next {
        next = go_on(words, pass, engine, step, answer);
    }
}

/// Does steps of a call, from this one on: where it is the first of a round or takes the clock for a commit, those that come
/// with it; else this one alone. Tells the next one.
#[inline(always)]
fn go_on<A: Allocator>(
    words: &Words<A>,
    pass: &mut Pass,
    engine: &mut Engine,
    step: Step,
    answer: &mut Answer,
) -> Option<Step>
    requires own { Owns words.now pass.old }
    requires due { (s : Start) × InCall s (view_of pass.old) engine.old step }
    ensures { StepsOn words.now (view_of pass.old) engine.old step pass.new engine.new (next_in result answer.new) }
{
    if engine.starts_round() {
        round(words, pass, engine, answer)
    } else if engine.waits_for_clock() {
        commit_again(words, pass, engine, answer)
    } else {
        any_step(words, pass, engine, step, answer)
    }
}

/// Does this step of a call, whatever it is; tells the next one.
#[inline(never)]
fn any_step<A: Allocator>(
    words: &Words<A>,
    pass: &mut Pass,
    engine: &mut Engine,
    step: Step,
    answer: &mut Answer,
) -> Option<Step>
    requires own { Owns words.now pass.old }
    requires due { (s : Start) × InCall s (view_of pass.old) engine.old step }
    ensures { StepsOn words.now (view_of pass.old) engine.old step pass.new engine.new (next_in result answer.new) }
{
    let found = words.step_over(pass, step, engine.got());
    engine.resume_into(found, answer)
}

/// Hands the value of a step in, and does the steps that are left.
#[inline(never)]
pub(crate) fn resume<A: Allocator>(
    words: &Words<A>,
    pass: &mut Pass,
    engine: &mut Engine,
    seen: u64,
    answer: &mut Answer,
)
    requires own { Owns words.now pass.old }
    requires done { (s : Start) × IsDone (cells_of words.now) s (view_of pass.old) engine.old seen }
    ensures { (v : View) (step : Step) → HasStepped v step seen (view_of pass.old) → Finishes words.now v engine.old (Asks step) answer.new pass.new engine.new }
{
    let next = engine.resume_into(seen, answer);
    finish(words, pass, engine, next, answer);
}
