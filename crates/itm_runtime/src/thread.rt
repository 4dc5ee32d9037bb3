//! A thread that runs transactions.

ghost use Rattle.std.specs.Prelude.{◌≡◌, ◌-◌, ◌^◌, ◌<◌, ◌≤◌, false, true, [], IsOk, IfOk, IfErr, OnErr};
ghost use Rattle.norec_core.specs.Core.{opening, in_transaction, irrevocable_room};
ghost use Rattle.user_actions.specs.Actions.{total};
ghost use Rattle.norec_core.specs.Proceeds.{IsUndone};
ghost use Rattle.norec_core.specs.Restarts.{IsRestart};
ghost use Rattle.norec_core.specs.Undoing.{after_undoing, undone_of};
ghost use Rattle.norec_core.specs.RestartingCalls.{arena_ahead};
ghost use Rattle.shared_words.specs.Passes.{Owns, commits_known, view_of, cells_of};
ghost use Rattle.call_rules.specs.Ties.{Stands};
ghost use Rattle.call_rules.specs.CallResults.{IsAnswered, Returns};
ghost use Rattle.call_rules.specs.Standing.{start_of};

use crate::blocks::{Begun, Ended, begin_block, commit_block, go_on_from};
use crate::drive::{finish, finish_read};
use crate::refused::ThreadRefused;
use itm_types::{
    Call, Datum, Limits, MAX_COMMITS, MAX_PATIENCE, Props, Ran, ReadHint, Reply, Width, WriteHint,
};
use norec_core::{Answer, Undone};
use norec_engine::{Engine, EngineRefused, entered};
use shared_words::{Pass, Words};
use std::alloc::{AllocError, Allocator, Global};
use std::marker::Model;
use undo_log::Arena;

/// The transactions of one thread over shared words, one after the other.
///
/// Each call takes the atomic steps that it needs, and returns its answer. Between two calls the clock is held only
/// where the transaction is irrevocable: a thread that is dropped then leaves it odd for ever, and no other one commits.
#[derive(Drop)]
pub struct Thread {
    pub(crate) pass: Pass,
    pub(crate) engine: Engine,
}

impl Model for Thread {
    ghost use Rattle.call_rules.specs.Standing.{Standing};

    ghost Value = { Standing };

    ghost use Rattle.shared_words.specs.Passes.{view_of};
    ghost use Rattle.call_rules.specs.Ties.{Stands};

    ghost view = { λ t. record { pass = t.pass; engine = t.engine } };

    ghost invariant = { λ t. Stands (view_of t.pass) t.engine };
}

impl Thread {
    /// A thread outside a transaction, with its arena, over the words that own the pass. Takes memory for the begins of open
    /// blocks; where that is refused, the pass and the arena come back.
    pub fn new<A: Allocator>(
        alloc: Global,
        words: &Words<A>,
        pass: Pass,
        arena: Arena,
        limits: Limits,
    ) -> Result<Thread, ThreadRefused>
        requires own { Owns words.now pass }
        requires idle { (view_of pass).holds ≡ false }
        requires patience { (0 < limits.patience) × (limits.patience ≤ MAX_PATIENCE) }
        requires commits { (0 < limits.max_commits) × (limits.max_commits ≤ MAX_COMMITS) }
        requires depth { 0 < limits.depth }
        ensures pass { IfOk result (λ t. t.pass ≡ pass) }
        ensures engine { IfOk result (λ t. t.engine
            ≡ opening (cells_of words.now - 1) arena limits.patience limits.max_commits limits.depth limits.restarts) }
        ensures stands { IfOk result (λ t. Stands (view_of t.pass) t.engine) }
        ensures err { IfErr result (λ refused. (refused.pass ≡ pass) × (refused.arena ≡ arena)) }
    {
        let count = (words.size() / 8) as u32;
        match Engine::new(alloc, count, arena, limits) {
            Ok(engine) => Ok(Thread { pass, engine }),
            Err(EngineRefused { arena }) => Err(ThreadRefused { pass, arena }),
        }
    }

    /// An outermost block begins, `again` where an earlier try of it got past its begin; inside a transaction this is
    /// `call` (Intel TM ABI 1.1, section 5.7).
    #[inline(always)]
    pub fn begin<A: Allocator>(
        &mut self,
        words: &Words<A>,
        props: Props,
        room: u32,
        again: bool,
    ) -> Result<Answer, AllocError>
        requires own { Owns words.now self.old.pass }
        ensures { Returns (λ a. a) words.now self.old (Call.Begin props room) again result self.new }
    {
        match begin_block(words, &mut self.pass, &mut self.engine, props, room, again) {
            Begun::Entered => Ok(Answer::Reply(Reply::Code(entered(again)))),
            Begun::Odd(clock) => Ok(go_on_from(words, &mut self.pass, &mut self.engine, clock)),
            Begun::Nothing => self.begin_slow(words, props, room, again),
        }
    }

    /// Any call of the interface.
    pub fn call<A: Allocator>(
        &mut self,
        words: &Words<A>,
        call: &Call,
    ) -> Result<Answer, AllocError>
        requires own { Owns words.now self.old.pass }
        ensures { Returns (λ a. a) words.now self.old call.now false result self.new }
    {
        match call {
            Call::Read { hint, width, at } => self.read(words, *hint, *width, *at),
            Call::Write { hint, at, value } => self.write(words, *hint, *at, value),
            Call::Commit => Ok(self.commit(words)),
            _ => self.call_slow(words, call),
        }
    }

    /// A value is read, as by `call` of a `Read` (section 5.12).
    pub fn read<A: Allocator>(
        &mut self,
        words: &Words<A>,
        hint: ReadHint,
        width: Width,
        at: u64,
    ) -> Result<Answer, AllocError>
        requires own { Owns words.now self.old.pass }
        ensures { Returns (λ a. a) words.now self.old (Call.Read hint width at) false result self.new }
    {
        match self.engine.read_fast(hint, width, at) {
            Some(word) => Ok(finish_read(words, &mut self.pass, &mut self.engine, word)),
            None => self.read_slow(words, hint, width, at),
        }
    }

    /// A value is written, as by `call` of a `Write` (section 5.12).
    pub fn write<A: Allocator>(
        &mut self,
        words: &Words<A>,
        hint: WriteHint,
        at: u64,
        value: &Datum,
    ) -> Result<Answer, AllocError>
        requires own { Owns words.now self.old.pass }
        ensures { Returns (λ a. a) words.now self.old (Call.Write hint at value.now) false result self.new }
    {
        let mut answer = Answer::Reply(Reply::Done);
        match self.engine.write_fast(hint, at, value, &mut answer) {
            Some(first) => {
                finish(words, &mut self.pass, &mut self.engine, first, &mut answer);
                Ok(answer)
            }
            None => {
                // (copied here, so that on the fast path the value need not lie in memory)
                let value = copy_of(value);
                self.call_slow(words, &Call::Write { hint, at, value })
            }
        }
    }

    /// The innermost block ends; with the outermost one the transaction commits (section 5.9). Takes no memory.
    #[inline(always)]
    pub fn commit<A: Allocator>(&mut self, words: &Words<A>) -> Answer
        requires own { Owns words.now self.old.pass }
        ensures answered { IsAnswered words.now (start_of self.old Call.Commit false) result self.new.pass self.new.engine }

        // No block goes back alone.
        ensures whole { IsRestart result → ⊥ }
    {
        match commit_block(words, &mut self.pass, &mut self.engine) {
            Ended::Wrote(at) => Answer::Committed { at, wrote: true },
            Ended::Read(at) => Answer::Committed { at, wrote: false },
            // (named here, so that no room for these is cleared on the fast path)
            Ended::Found(found) => {
                let answer = go_on_from(words, &mut self.pass, &mut self.engine, found);
                answer
            }
            Ended::Nothing => {
                let answer = self.commit_slow(words);
                answer
            }
        }
    }

    /// The innermost block is cancelled, or with `outer` all that are open (section 5.8). Takes no memory.
    pub fn cancel<A: Allocator>(&mut self, words: &Words<A>, outer: bool) -> Answer
        requires own { Owns words.now self.old.pass }
        ensures answered { IsAnswered words.now (start_of self.old (Call.Abort outer) false) result self.new.pass self.new.engine }
        ensures whole { IsRestart result → ⊥ }
    {
        match self.call(words, &Call::Abort { outer }) {
            Ok(answer) => answer,
            Err(_) => unreachable!(),
        }
    }

    /// The transaction becomes irrevocable. `room` is the number of calls to come for which memory is taken ahead: of these
    /// commit actions alone want any. It is no limit: a call beyond it is served where there is memory.
    pub fn irrevocable<A: Allocator>(
        &mut self,
        words: &Words<A>,
        room: u32,
    ) -> Result<Answer, AllocError>
        requires own { Owns words.now self.old.pass }
        ensures { Returns (λ a. a) words.now self.old (Call.Mode room) false result self.new }
    {
        self.call(words, &Call::Mode { room })
    }

    /// Gives the transaction up, where one is open: every open block is rolled back. While the clock is held, nothing is
    /// changed. Takes no memory and no step.
    pub fn abort(&mut self) -> Undone
        ensures undone { result ≡ undone_of self.old.engine }
        ensures pass { self.new.pass ≡ self.old.pass }
        ensures engine { self.new.engine ≡ after_undoing self.old.engine }
        ensures closed { self.old.engine.irrevocable ≡ false → in_transaction self.new.engine ≡ false }
        ensures stands { Stands (view_of self.new.pass) self.new.engine }
        ensures rolled_back { self.old.engine.irrevocable ≡ false → IsUndone self.old.engine self.new.engine }
    {
        self.engine.abort()
    }

    /// A transaction is open.
    pub fn is_open(&self) -> bool
        ensures { result ≡ in_transaction self.now.engine }
    {
        self.engine.is_open()
    }

    /// The transaction is irrevocable: the clock is held, from call to call.
    pub fn is_irrevocable(&self) -> bool
        ensures { result ≡ self.now.engine.irrevocable }
    {
        !self.pass.idle()
    }

    /// The room that the call asks for, where it is served and makes the transaction irrevocable.
    pub fn irrevocable_room(&self, call: &Call) -> Option<u32>
        ensures { result ≡ irrevocable_room self.now.engine call.now }
    {
        self.engine.irrevocable_room(call)
    }

    /// How often the inner blocks of one transaction may go back to their begins.
    pub fn restarts(&self) -> u32
        ensures { result ≡ self.now.engine.restarts }
    {
        self.engine.restarts()
    }

    /// How many bytes the arena has, where the innermost block may go back to its begin by the call: it is within another one, a
    /// restart is left, the transaction is not irrevocable, and the call reads shared bytes or takes the clock.
    pub fn arena_ahead(&self, call: &Call) -> Option<usize>
        ensures { result ≡ arena_ahead self.now.engine call.now }
    {
        self.engine.arena_ahead(call)
    }

    /// How many actions there are in all: those that are registered, and those that have come to run. Takes no memory.
    pub fn actions(&self) -> usize
        ensures total { result ≡ total self.now.engine.actions }

        // There are fewer than a count can tell.
        ensures few { total self.now.engine.actions < 2 ^ 63 }
    {
        self.engine.actions()
    }

    /// The even clock value at which the transaction reads, after its end the last one.
    pub fn snapshot(&self) -> u64
        ensures value { result ≡ self.now.engine.snapshot }
        ensures stands { Stands (view_of self.now.pass) self.now.engine }
    {
        self.engine.snapshot()
    }

    /// The clock as the thread's calls saw it last; 0 before the first one.
    pub fn clock(&self) -> u64
        ensures value { result ≡ self.now.engine.clock }
        ensures stands { Stands (view_of self.now.pass) self.now.engine }
    {
        self.engine.clock()
    }

    /// How many commits its pass knows of, by the latest clock that it has seen; also those that it knew of before the thread
    /// was made of it.
    pub fn known(&self) -> u64
        ensures { result ≡ commits_known (view_of self.now.pass) }
    {
        self.pass.high() / 2
    }

    /// The number of atomic steps of the last call.
    pub fn spent(&self) -> u128
        ensures { result ≡ self.now.engine.spent }
    {
        self.engine.spent()
    }

    /// The thread's private bytes.
    pub fn arena(&self) -> &Arena
        ensures { result.now ≡ self.now.engine.arena }
    {
        self.engine.arena()
    }

    /// The actions of the transaction that have come to run, in order. The begin of the next one forgets them.
    pub fn due(&self) -> &[Ran]
        ensures { result.now ≡ self.now.engine.actions.ran }
    {
        self.engine.due()
    }

    /// Forgets the actions that have come to run. Takes no memory.
    pub fn clear_due(&mut self)
        ensures pass { self.new.pass ≡ self.old.pass }
        ensures engine { self.new.engine ≡ record self.old.engine { actions = record self.old.engine.actions { ran = [] } } }
        ensures stands { Stands (view_of self.new.pass) self.new.engine }
    {
        self.engine.clear_due();
    }

    /// The pass and the arena. A transaction that is open is rolled back first; who wants the actions that are due by it
    /// calls `abort` and reads `due` before. While the clock is held, the thread comes back as it was. Takes no memory.
    pub fn into_parts(mut self) -> Result<(Pass, Arena), Thread>
        ensures ok { self.engine.irrevocable ≡ false → IsOk result }
        ensures held { IfErr result (λ t. t ≡ self) }
        ensures still { OnErr result (self.engine.irrevocable ≡ true) }
        ensures pass { IfOk result (λ r. r.0 ≡ self.pass) }
        ensures idle { IfOk result (λ r. (view_of r.0).holds ≡ false) }
        ensures arena { IfOk result (λ r. r.1 ≡ (after_undoing self.engine).arena) }
    {
        if let Undone::Held = self.engine.abort() {
            return Err(self);
        }
        let Thread { pass, engine } = self;
        Ok((pass, engine.into_arena()))
    }
}

/// The same value once more. Takes no memory.
#[inline(always)]
pub(crate) fn copy_of(value: &Datum) -> Datum
    ensures { result ≡ value.now }
{
    Datum::new(value.width, value.bytes.as_slice())
}
