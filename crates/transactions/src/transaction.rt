//! A transaction as its body sees it.

ghost use Rattle.std.specs.Prelude.{◌≡◌, false};
ghost use Rattle.shared_words.specs.Passes.{Owns};
ghost use Rattle.norec_core.specs.Core.{in_transaction};
ghost use Rattle.itm_types.specs.declared.call.Call.{Call};
ghost use Rattle.itm_types.specs.declared.access.ReadHint.{ReadHint};
ghost use Rattle.itm_types.specs.declared.access.WriteHint.{WriteHint};
ghost use Rattle.itm_types.specs.declared.access.Width.{Width};
ghost use Rattle.call_rules.specs.CallResults.{Tells};
ghost use Rattle.itm_runtime.specs.Stops.{answer_to_read, answer_to_write, number};

use itm_runtime::{Stop, Thread};
use itm_types::{Action, Call};
use shared_words::Words;
use std::marker::Model;
use std::sync::Arc;

/// The open transaction of a thread. Places are numbers of bytes.
#[derive(Drop)]
pub struct Transaction {
    pub(crate) words: Arc<Words>,
    pub(crate) thread: Thread,
}

impl Model for Transaction {
    ghost use Rattle.transactions.specs.Lent.{Lent, IsLent};
    ghost use Rattle.std.specs.Arc.{arc_value};

    ghost Value = { Lent };

    ghost view = { λ t. record { words = arc_value t.words; thread = t.thread } };

    ghost invariant = { λ t. IsLent (arc_value t.words) t.thread };
}

impl Transaction {
    ghost use Rattle.transactions.specs.Blocks.{StaysWithin};
    ghost use Rattle.transactions.specs.Lent.{IsKept};

    pub(crate) fn new(words: Arc<Words>, thread: Thread) -> Transaction
        requires own { Owns words.value thread.pass }
        requires closed { in_transaction thread.engine ≡ false }
        ensures words { result.words ≡ words.value }
        ensures thread { result.thread ≡ thread }
    {
        Transaction { words, thread }
    }

    /// Reads the number of 8 bytes, the low one first.
    pub fn read_u64(&mut self, at: u64) -> Result<u64, Stop>
        ensures tells { Tells self.old.words self.old.thread (Call.Read ReadHint.R Width.U8 at) (answer_to_read result) self.new.thread }
        ensures kept { IsKept self.old self.new }
        ensures within { StaysWithin self.old self.new }
    {
        self.thread.read_u64(&*self.words, at)
    }

    /// Writes a number as 8 bytes, the low one first.
    pub fn write_u64(&mut self, at: u64, value: u64) -> Result<(), Stop>
        ensures tells { Tells self.old.words self.old.thread (Call.Write WriteHint.W at (number value)) (answer_to_write result) self.new.thread }
        ensures kept { IsKept self.old self.new }
        ensures within { StaysWithin self.old self.new }
    {
        self.thread.write_u64(&*self.words, at, value)
    }

    /// Registers a commit action: it is due once the transaction has committed.
    pub fn on_commit(&mut self, action: Action) -> Result<(), Stop>
        ensures tells { Tells self.old.words self.old.thread (Call.CommitAction action) (answer_to_write result) self.new.thread }
        ensures kept { IsKept self.old self.new }
        ensures within { StaysWithin self.old self.new }
    {
        let answer = self.thread.call(&*self.words, &Call::CommitAction(action))?;
        Stop::check(answer)?;
        Ok(())
    }

    /// Registers an undo action: it is due once the transaction has been rolled back.
    pub fn on_undo(&mut self, action: Action) -> Result<(), Stop>
        ensures tells { Tells self.old.words self.old.thread (Call.UndoAction action) (answer_to_write result) self.new.thread }
        ensures kept { IsKept self.old self.new }
        ensures within { StaysWithin self.old self.new }
    {
        let answer = self.thread.call(&*self.words, &Call::UndoAction(action))?;
        Stop::check(answer)?;
        Ok(())
    }
}
