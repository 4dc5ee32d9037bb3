//! One try of a body as a transaction.

ghost use Rattle.std.specs.Prelude.{◌≡◌, ◌<◌, ◌||◌, false, IfErr, IfOk};
ghost use Rattle.norec_core.specs.declared.answer.Answer.{Answer};
ghost use Rattle.norec_core.specs.Core.{in_transaction};
ghost use Rattle.itm_runtime.specs.Stops.{answer_of};

use crate::failed::Failed;
use crate::stopped::Stopped;
use crate::transaction::Transaction;
use itm_runtime::Stop;
use itm_types::Props;
use norec_core::Answer;

/// What came of a body's transaction, which has committed.
#[derive(Clone, Copy, Debug, PartialEq, Eq)]
pub struct Done<R> {
    /// What the body gave.
    pub value: R,
    /// Its position among the commits that wrote; where it wrote nothing, so many came before it.
    pub at: u64,
    pub wrote: bool,
}

/// How one try of a body ended.
#[derive(Drop)]
pub(crate) enum Tried<R, E> {
    Done(Done<R>),
    Failed(Failed<E>),
    /// Another commit came between.
    Conflict,
    /// The clock was held at its begin, or so its body told.
    Busy,
}

impl Transaction {
    ghost use Rattle.transactions.specs.Lent.{IsKept, IsLeft, looks_of, mine_of};
    ghost use Rattle.transactions.specs.Runs.{BeginTold, HasLooked, HasBegun, HasEnded, IsGivenUp, IsTry, KeepsLent, cancel_told, mine_then, stop_told};

    /// Begins, runs the body, and ends.
    pub(crate) fn attempt<R: Drop, E: Drop, F: FnMut(&mut Transaction) -> Result<R, Stopped<E>>>(
        &mut self,
        body: &mut F,
        again: bool,
    ) -> Tried<R, E>
        requires callable { F.IsAlwaysCallable body.old }
        requires closed { in_transaction self.old.thread.engine ≡ false }
        ensures callable { F.IsAlwaysCallable body.new }
        ensures closed { in_transaction self.new.thread.engine ≡ false }
        ensures tells { IsTry F.FnMut body.old self.old again result body.new self.new }
        ensures left { KeepsLent F.FnMut → IsLeft (mine_then (mine_of self.old) result) self.old self.new }
        ensures looks { KeepsLent F.FnMut → HasLooked result → looks_of self.old < looks_of self.new }
    {
        match self.begun(again) {
            Ok(()) => match body(self) {
                Ok(value) => self.ended(value),
                Err(Stopped::Engine(why)) => self.stopped(why, false),
                Err(Stopped::Cancelled(why)) => self.cancelled(why),
            },
            Err(why) => self.stopped(why, true),
        }
    }

    /// Begins.
    fn begun(&mut self, again: bool) -> Result<(), Stop>
        requires closed { in_transaction self.old.thread.engine ≡ false }
        ensures kept { IsKept self.old self.new }
        ensures begun { IfOk result (λ _. (answer : Answer) × HasBegun self.old.thread again answer self.new) }
        ensures stopped { IfErr result (λ stop. BeginTold self.old.thread again (answer_of stop) self.new) }
        ensures looks { IfOk result (λ _. looks_of self.old < looks_of self.new) }
    {
        // (its clause says that the thread stands, which the clause `begun` tells of)
        let _clock = self.thread.clock();
        let answer = self.thread.begin(&*self.words, Props::default(), 0, again)?;
        Stop::check(answer)?;
        Ok(())
    }

    /// Commits. What has not committed is rolled back. (In line, so that what it gives need not lie in memory.)
    #[inline(always)]
    fn ended<R: Drop, E>(&mut self, value: R) -> Tried<R, E>
        ensures closed { in_transaction self.new.thread.engine ≡ false }
        ensures left { IsLeft (mine_then (mine_of self.old) result) self.old self.new }
        ensures ends { HasEnded self.old value result self.new.thread }
    {
        // (its clause says that the thread stands, which the clause `ends` tells of)
        let _clock = self.thread.clock();
        match self.thread.commit(&*self.words) {
            Answer::Committed { at, wrote } => Tried::Done(Done { value, at, wrote }),
            Answer::Full { .. } => Tried::Failed(Failed::Full),
            _ => {
                self.give_up();
                Tried::Conflict
            }
        }
    }

    /// Takes it back, where a conflict has not.
    fn cancelled<R, E: Drop>(&mut self, why: E) -> Tried<R, E>
        ensures closed { in_transaction self.new.thread.engine ≡ false }
        ensures words { self.new.words ≡ self.old.words }
        ensures given_up { IsGivenUp self.old self.new.thread }
        ensures told { result ≡ cancel_told why (in_transaction self.old.thread.engine) }
    {
        if self.give_up() {
            Tried::Failed(Failed::Cancelled(why))
        } else {
            Tried::Conflict
        }
    }

    /// Tells why it does not go on, or did not begin. One that a conflict has closed before may be tried again, whatever its
    /// body says.
    fn stopped<R, E>(&mut self, why: Stop, is_new: bool) -> Tried<R, E>
        ensures closed { in_transaction self.new.thread.engine ≡ false }
        ensures words { self.new.words ≡ self.old.words }
        ensures given_up { IsGivenUp self.old self.new.thread }
        ensures told { result ≡ stop_told why (in_transaction self.old.thread.engine || is_new) }
    {
        let was_open = self.give_up();
        match why {
            Stop::Refused(refusal) if was_open || is_new => Tried::Failed(Failed::Refused(refusal)),
            Stop::Memory => Tried::Failed(Failed::Memory),
            Stop::Full { .. } => Tried::Failed(Failed::Full),
            Stop::Busy { .. } => Tried::Busy,
            _ => Tried::Conflict,
        }
    }

    /// Rolls back what is open, and tells whether anything was.
    fn give_up(&mut self) -> bool
        ensures open { result ≡ in_transaction self.old.thread.engine }
        ensures closed { in_transaction self.new.thread.engine ≡ false }
        ensures words { self.new.words ≡ self.old.words }
        ensures given_up { IsGivenUp self.old self.new.thread }
    {
        let was_open = self.thread.is_open();
        self.thread.abort();
        was_open
    }
}
