//! Calls whose step or answer comes as one.

ghost use Rattle.std.specs.Prelude.{◌≡◌, ◌<◌, IsSome, false};
ghost use Rattle.norec_core.specs.Proceeds.{Fits};
ghost use Rattle.norec_engine.specs.NextSteps.{next_in};
ghost use Rattle.norec_core.specs.Moves.{Comes, IsResumed};

use crate::engine::Engine;
use itm_types::{Call, Props, Reply, Step};
use norec_core::{Answer, Next};
use std::alloc::AllocError;

impl Engine {
    /// An outermost block begins, `again` where an earlier try of it got past its begin; inside a transaction this is `call`.
    pub fn begin(&mut self, props: Props, room: u32, again: bool) -> Result<Next, AllocError>
        requires idle { self.old.waits ≡ None }
        ensures { Comes (λ next. next) self.old (Call.Begin props room) again result self.new }
    {
        let mut answer = Answer::Reply(Reply::Done);
        let step = self.begin_into(props, room, again, &mut answer)?;
        Ok(next(step, answer))
    }

    /// A call comes.
    pub fn call(&mut self, call: &Call) -> Result<Next, AllocError>
        requires idle { self.old.waits ≡ None }
        ensures { Comes (λ next. next) self.old call.now false result self.new }
    {
        let mut answer = Answer::Reply(Reply::Done);
        let step = self.call_into(call, &mut answer)?;
        Ok(next(step, answer))
    }

    /// The step that it waits for was done: `seen` is the value loaded, the value that an exchange found, or 0 after a store.
    pub fn resume(&mut self, seen: u64) -> Next
        requires waits { IsSome self.old.waits }
        requires fits { Fits self.old seen }
        ensures { IsResumed self.old seen result self.new }
    {
        let mut answer = Answer::Reply(Reply::Done);
        let step = self.resume_into(seen, &mut answer);
        next(step, answer)
    }
}

/// What comes next: the step, or where there is none, the answer.
#[inline(always)]
fn next(step: Option<Step>, answer: Answer) -> Next
    ensures { result ≡ next_in step answer }
{
    match step {
        Some(step) => Next::Step(step),
        None => Next::Answer(answer),
    }
}
