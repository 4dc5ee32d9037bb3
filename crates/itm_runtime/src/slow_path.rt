//! The slow path: calls that are not on the fast path, as functions of their own. They write the answer where the caller
//! has it: the fast path, which has none of its own to hand over, then moves none about. A function fills its locals at its
//! entry, on whatever path it goes on; so `read_slow` and `call_slow`, which stand where they are called, have the calls and
//! answers that only the slow path keeps in memory.

ghost use Rattle.std.specs.Prelude.{false};
ghost use Rattle.shared_words.specs.Passes.{Owns};
ghost use Rattle.call_rules.specs.CallResults.{IsAnswered, Returns};
ghost use Rattle.call_rules.specs.Standing.{start_of};

use crate::drive::finish;
use crate::thread::Thread;
use itm_types::{Call, Props, ReadHint, Reply, Width};
use norec_core::Answer;
use shared_words::Words;
use std::alloc::{AllocError, Allocator};

impl Thread {
    /// A begin.
    #[inline(never)]
    pub(crate) fn begin_slow<A: Allocator>(
        &mut self,
        words: &Words<A>,
        props: Props,
        room: u32,
        again: bool,
    ) -> Result<Answer, AllocError>
        requires own { Owns words.now self.old.pass }
        ensures { Returns (λ a. a) words.now self.old (Call.Begin props room) again result self.new }
    {
        let mut answer = Answer::Reply(Reply::Done);
        let first = self.engine.begin_into(props, room, again, &mut answer)?;
        finish(words, &mut self.pass, &mut self.engine, first, &mut answer);
        Ok(answer)
    }

    /// A read.
    #[inline(always)]
    pub(crate) fn read_slow<A: Allocator>(
        &mut self,
        words: &Words<A>,
        hint: ReadHint,
        width: Width,
        at: u64,
    ) -> Result<Answer, AllocError>
        requires own { Owns words.now self.old.pass }
        ensures { Returns (λ a. a) words.now self.old (Call.Read hint width at) false result self.new }
    {
        self.call_slow(words, &Call::Read { hint, width, at })
    }

    /// A call.
    #[inline(always)]
    pub(crate) fn call_slow<A: Allocator>(
        &mut self,
        words: &Words<A>,
        call: &Call,
    ) -> Result<Answer, AllocError>
        requires own { Owns words.now self.old.pass }
        ensures { Returns (λ a. a) words.now self.old call.now false result self.new }
    {
        let mut answer = Answer::Reply(Reply::Done);
        self.call_told(words, call, &mut answer)?;
        Ok(answer)
    }

    /// The same, with the answer where the caller has it.
    #[inline(never)]
    fn call_told<A: Allocator>(
        &mut self,
        words: &Words<A>,
        call: &Call,
        answer: &mut Answer,
    ) -> Result<(), AllocError>
        requires own { Owns words.now self.old.pass }
        ensures { Returns (λ done. answer.new) words.now self.old call.now false result self.new }
    {
        let first = self.engine.call_into(call, answer)?;
        finish(words, &mut self.pass, &mut self.engine, first, answer);
        Ok(())
    }

    /// A commit. Takes no memory.
    #[inline(never)]
    pub(crate) fn commit_slow<A: Allocator>(&mut self, words: &Words<A>) -> Answer
        requires own { Owns words.now self.old.pass }
        ensures { IsAnswered words.now (start_of self.old Call.Commit false) result self.new.pass self.new.engine }
    {
        let mut answer = Answer::Reply(Reply::Done);
        self.commit_told(words, &mut answer);
        answer
    }

    /// The same, with the answer where the caller has it.
    #[inline(never)]
    fn commit_told<A: Allocator>(&mut self, words: &Words<A>, answer: &mut Answer)
        requires own { Owns words.now self.old.pass }
        ensures { IsAnswered words.now (start_of self.old Call.Commit false) answer.new self.new.pass self.new.engine }
    {
        let Ok(()) = self.call_told(words, &Call::Commit, answer) else {
            unreachable!();
        };
    }
}
