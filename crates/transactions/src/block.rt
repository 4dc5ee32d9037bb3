//! A block within a transaction, which is taken back alone.

ghost use Rattle.std.specs.Prelude.{◌≡◌, ◌<◌, ◌≤◌, ◌^◌, Ok, Err, true, false, IfErr, IfOk};
ghost use Rattle.itm_types.specs.declared.call.Call.{Call};
ghost use Rattle.transactions.specs.Blocks.{block_told};

use crate::stopped::Stopped;
use crate::transaction::Transaction;
use itm_runtime::Stop;
use itm_types::{Props, Refusal};

/// The value of a block, where its commit is served.
fn told_committed<R: Drop, E>(value: R, left: Result<(), Stop>) -> Result<Result<R, E>, Stop>
    ensures { result ≡ block_told (Ok value) left }
{
    match left {
        Ok(()) => Ok(Ok(value)),
        Err(stop) => Err(stop),
    }
}

/// Why a block is taken back, where its rollback is served.
fn told_taken_back<R, E: Drop>(why: E, left: Result<(), Stop>) -> Result<Result<R, E>, Stop>
    ensures { result ≡ block_told (Err why) left }
{
    match left {
        Ok(()) => Ok(Err(why)),
        Err(stop) => Err(stop),
    }
}

impl Transaction {
    ghost use Rattle.transactions.specs.Lent.{IsKept};
    ghost use Rattle.transactions.specs.Plain.{Cancellings, IsPlainBackIn, IsPlainIn, Makings};
    ghost use Rattle.transactions.specs.Runs.{KeepsLent};
    ghost use Rattle.transactions.specs.Blocks.{EndsRuns, Enters, EntersNot, IsToldAgain, IsUndoneUnless, KeepsBlocks, Leaves, StaysWithin, TellsBlock};

    /// Runs the body as a block within the transaction. Where the body takes it back, by `Err(Stopped::Cancelled(why))`, nothing
    /// of the block is left, and the transaction goes on: `Ok(Err(why))`. Where another commit changed what the block alone has
    /// read, and the thread's limits allow it, the block is run again alone.
    pub fn block<R: Drop, E: Drop, F: FnMut(&mut Transaction) -> Result<R, Stopped<E>>>(
        &mut self,
        mut body: F,
    ) -> Result<Result<R, E>, Stop>
        requires callable { F.IsAlwaysCallable body }

        // All its runs in order: what it tells is what the first one came to after which none comes.
        ensures ran { (last : F) × EndsRuns F.FnMut body self.old result last self.new }
        ensures kept { KeepsLent F.FnMut → KeepsBlocks F.FnMut → IsKept self.old self.new }
        ensures within { KeepsLent F.FnMut → KeepsBlocks F.FnMut → StaysWithin self.old self.new }

        // Where it is known what each run does that gives a value, the deeds of the block are its transaction's.
        ensures plain { KeepsLent F.FnMut → KeepsBlocks F.FnMut → (makings : Makings F.FnMut) → IsPlainIn F.FnMut makings body self.old result self.new }

        // So are those of a block that its body took back, where that is known of each such run: what it has read there counts.
        ensures plain_back { KeepsLent F.FnMut → KeepsBlocks F.FnMut → (cancellings : Cancellings F.FnMut) → IsPlainBackIn F.FnMut cancellings body self.old result self.new }

        // Unless the body gave a value, nothing of the block is left, and the blocks around it are as before.
        ensures undone { KeepsLent F.FnMut → KeepsBlocks F.FnMut → IsUndoneUnless result self.old self.new }
    {
        loop {
            let since = self.thread.snapshot();
            let told = self.block_once(&mut body);
            if !self.goes_again(&told, since) {
                return told;
            }
        }
    }

    /// Whether the block is to be run again: it has gone back to its begin, and the thread reads later than it did.
    fn goes_again<R, E>(&self, told: &Result<Result<R, E>, Stop>, since: u64) -> bool
        ensures yes { result ≡ true → IsToldAgain told.now }
        ensures later { result ≡ true → since < self.now.thread.engine.snapshot }
        ensures fits { result ≡ true → self.now.thread.engine.snapshot < 2 ^ 64 }
        ensures no { result ≡ false → IsToldAgain told.now → self.now.thread.engine.snapshot ≤ since }
    {
        match told {
            Err(Stop::Restarted { .. }) => since < self.thread.snapshot(),
            _ => false,
        }
    }

    /// Begins the block, runs the body, and ends it.
    fn block_once<R: Drop, E: Drop, F: FnMut(&mut Transaction) -> Result<R, Stopped<E>>>(
        &mut self,
        body: &mut F,
    ) -> Result<Result<R, E>, Stop>
        requires callable { F.IsAlwaysCallable body.old }
        ensures callable { F.IsAlwaysCallable body.new }
        ensures tells { TellsBlock F.FnMut body.old self.old result body.new self.new }
    {
        self.enter()?;
        match body(self) {
            Ok(value) => {
                let left = self.leave();
                told_committed(value, left)
            }
            Err(Stopped::Cancelled(why)) => {
                let left = self.take_back();
                told_taken_back(why, left)
            }
            Err(Stopped::Engine(why)) => {
                let _ = self.take_back();
                Err(why)
            }
        }
    }

    /// Begins a block within the transaction.
    fn enter(&mut self) -> Result<(), Stop>
        ensures entered { IfOk result (λ _. Enters self.old self.new) }
        ensures stopped { IfErr result (λ stop. EntersNot self.old stop self.new) }
    {
        if !self.thread.is_open() {
            return Err(Stop::Refused(Refusal::Outside));
        }
        let answer = self.thread.begin(&*self.words, Props::default(), 0, false)?;
        Stop::check(answer)?;
        Ok(())
    }

    /// The innermost block ends, and what it did is the outer one's.
    fn leave(&mut self) -> Result<(), Stop>
        ensures { Leaves Call.Commit self.old result self.new }
    {
        Stop::check(self.thread.commit(&*self.words))?;
        Ok(())
    }

    /// Rolls the innermost block back.
    fn take_back(&mut self) -> Result<(), Stop>
        ensures { Leaves (Call.Abort false) self.old result self.new }
    {
        Stop::check(self.thread.cancel(&*self.words, false))?;
        Ok(())
    }
}
