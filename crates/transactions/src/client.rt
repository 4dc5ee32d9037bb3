//! A thread of a program, and the transactions that it makes.

ghost use Rattle.std.specs.Prelude.{◌≡◌, ◌<◌, false, IfOk};
ghost use Rattle.norec_core.specs.Core.{in_transaction};
ghost use Rattle.shared_words.specs.Passes.{Owns};

use crate::failed::Failed;
use crate::stopped::Stopped;
use crate::transaction::Transaction;
use crate::tried::{Done, Tried};
use itm_runtime::Thread;
use itm_types::Ran;
use shared_words::Words;
use std::hint::spin_loop;
use std::sync::Arc;

/// One thread over shared words, between two transactions.
#[derive(Drop)]
pub struct Client {
    transaction: Transaction,
    tries: u64,
    ghost closed: { in_transaction transaction.thread.engine ≡ false },
}

impl Client {
    ghost use Rattle.transactions.specs.Lent.{looks_of};
    ghost use Rattle.transactions.specs.Plain.{IsPlainRun, Makings};
    ghost use Rattle.transactions.specs.Runs.{ComesTo, IsCancelled, KeepsLent, LeavesLent};
    ghost use Rattle.transactions.specs.Tries.{AfterTries, HasTried};

    /// A thread outside a transaction, over the words that own its pass. Each body is tried as often as `tries` says.
    pub fn new(words: Arc<Words>, thread: Thread, tries: u64) -> Client
        requires own { Owns words.value thread.pass }
        requires closed { in_transaction thread.engine ≡ false }
        ensures words { result.transaction.words ≡ words.value }
        ensures thread { result.transaction.thread ≡ thread }
        ensures tries { result.tries ≡ tries }
    {
        let transaction = Transaction::new(words, thread);
        Client { transaction, tries }
    }

    /// The actions of the last transaction that have come to run, in order. The begin of the next one forgets them.
    pub fn due(&self) -> &[Ran]
        ensures { result.now ≡ self.now.transaction.thread.engine.actions.ran }
    {
        self.transaction.thread.due()
    }

    /// The words and the thread, outside a transaction.
    pub fn into_parts(self) -> (Arc<Words>, Thread)
        ensures words { result.0.value ≡ self.transaction.words }
        ensures thread { result.1 ≡ self.transaction.thread }
        ensures own { Owns result.0.value result.1.pass }
    {
        let Client { transaction, .. } = self;
        let Transaction { words, thread } = transaction;
        (words, thread)
    }

    /// Runs the body as one transaction, and again after each conflict, as often as was said. Where the body gives a value, its
    /// last run has committed; after an error nothing of it is left.
    pub fn atomically<R: Drop, E: Drop, F: FnMut(&mut Transaction) -> Result<R, Stopped<E>>>(
        &mut self,
        mut body: F,
    ) -> Result<Done<R>, Failed<E>>
        requires callable { F.IsAlwaysCallable body }

        // All its tries in order: what it tells is what the first one came to after which none comes.
        ensures ran { (last : F) × HasTried F.FnMut body self.old.transaction self.old.tries result last self.new.transaction }
        ensures comes { ComesTo F.FnMut body self.old.transaction.words result self.new.transaction.thread }

        // Where it is known what each run does, the calls of the run that gave the value are the plain machine's at the position
        // told. It is the try that came after all others.
        ensures plain { KeepsLent F.FnMut → (makings : Makings F.FnMut) → IfOk result (λ done. IsPlainRun F.FnMut makings (AfterTries F.FnMut body self.old.transaction self.old.tries) body self.old.transaction.words done self.new.transaction.thread) }

        // The body hands back what it was lent: the words are the same, the pass's own commits are those told, and the position
        // told is no less than the number of the commits that its thread had seen before. It gives up for want of tries after so
        // many looks at the clock, one for each.
        ensures lent { KeepsLent F.FnMut → LeavesLent self.old.transaction self.old.tries result self.new.transaction }
        ensures tries { self.new.tries ≡ self.old.tries }
    {
        self.run(&mut body)
    }

    /// The same, of a body that can be run again.
    pub(crate) fn run<R: Drop, E: Drop, F: FnMut(&mut Transaction) -> Result<R, Stopped<E>>>(
        &mut self,
        body: &mut F,
    ) -> Result<Done<R>, Failed<E>>
        requires callable { F.IsAlwaysCallable body.old }
        ensures callable { F.IsAlwaysCallable body.new }
        ensures tries { self.new.tries ≡ self.old.tries }
        ensures ran { HasTried F.FnMut body.old self.old.transaction self.old.tries result body.new self.new.transaction }
        ensures lent { KeepsLent F.FnMut → LeavesLent self.old.transaction self.old.tries result self.new.transaction }
        ensures cancelled { KeepsLent F.FnMut → IsCancelled result → looks_of self.old.transaction < looks_of self.new.transaction }
    {
        let mut again = false;
        for _ in 0..self.tries {
            match self.transaction.attempt(body, again) {
                Tried::Done(done) => return Ok(done),
                Tried::Failed(why) => return Err(why),
                Tried::Conflict => again = true,
                Tried::Busy => spin_loop(),
            }
        }
        Err(Failed::Tries)
    }
}
