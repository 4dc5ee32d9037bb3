//! A transaction that waits for others.

ghost use Rattle.std.specs.Prelude.{◌≡◌, ◌+◌, ◌<◌, true, false, IfOk};
ghost use Rattle.transactions.specs.Runs.{IsCancelled};

use crate::client::Client;
use crate::failed::Failed;
use crate::stopped::Stopped;
use crate::transaction::Transaction;
use crate::tried::Done;
use std::hint::spin_loop;

impl Client {
    ghost use Rattle.transactions.specs.Lent.{looks_of};
    ghost use Rattle.transactions.specs.Plain.{IsPlainRun, Makings};
    ghost use Rattle.transactions.specs.Runs.{ComesTo, KeepsLent, LeavesLent};
    ghost use Rattle.transactions.specs.Tries.{AfterCancelled, HasRetried};

    /// Runs the body as `atomically` does, and, where the body has cancelled it, as a new transaction, at most so many times
    /// more. So a body waits for what other threads are to commit: it cancels until it finds that. It tells what the last
    /// transaction came to.
    pub fn retry<R: Drop, E: Drop, F: FnMut(&mut Transaction) -> Result<R, Stopped<E>>>(
        &mut self,
        retries: u64,
        mut body: F,
    ) -> Result<Done<R>, Failed<E>>
        requires callable { F.IsAlwaysCallable body }

        // All its transactions in order: those that the body cancelled, and the one that it tells.
        ensures ran { (last : F) × HasRetried F.FnMut body self.old.transaction self.old.tries retries result last self.new.transaction }
        ensures comes { ComesTo F.FnMut body self.old.transaction.words result self.new.transaction.thread }

        // Where it is known what each run does, the calls of the run that gave the value are the plain machine's at the position
        // told. It is the try that came after all others.
        ensures plain { KeepsLent F.FnMut → (makings : Makings F.FnMut) → IfOk result (λ done. IsPlainRun F.FnMut makings (AfterCancelled F.FnMut body self.old.transaction self.old.tries retries) body self.old.transaction.words done self.new.transaction.thread) }

        // The body hands back what it was lent: the words are the same, the pass's own commits are those told, and the position
        // told is no less than the number of the commits that its thread had seen before. It gives up for want of tries after so
        // many looks at the clock, one for each.
        ensures lent { KeepsLent F.FnMut → LeavesLent self.old.transaction self.old.tries result self.new.transaction }

        // It tells of one that the body cancelled once there were so many more of them, each with a look at the clock.
        ensures waited { KeepsLent F.FnMut → IsCancelled result → looks_of self.old.transaction + retries < looks_of self.new.transaction }
        ensures tries { self.new.tries ≡ self.old.tries }
    {
        for _ in 0..retries {
            let told = self.run(&mut body);
            if !is_cancelled(&told) {
                return told;
            }
            spin_loop();
        }
        self.run(&mut body)
    }
}

/// Whether the body has cancelled it.
fn is_cancelled<R, E>(told: &Result<Done<R>, Failed<E>>) -> bool
    ensures yes { result ≡ true → IsCancelled told.now }
    ensures no { result ≡ false → IsCancelled told.now → ⊥ }
{
    matches!(told, Err(Failed::Cancelled(_)))
}
