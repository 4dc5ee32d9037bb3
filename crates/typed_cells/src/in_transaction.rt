//! A cell in a transaction.

ghost use Rattle.std.specs.Prelude.{◌≡◌, ℕ, Result, IfOk};
ghost use Rattle.itm_types.specs.declared.call.Call.{Call};
ghost use Rattle.itm_types.specs.declared.access.ReadHint.{ReadHint};
ghost use Rattle.itm_types.specs.declared.access.WriteHint.{WriteHint};
ghost use Rattle.itm_types.specs.declared.access.Width.{Width};
ghost use Rattle.call_rules.specs.CallResults.{Tells};
ghost use Rattle.itm_runtime.specs.Stops.{answer_to_read, answer_to_write, number};
ghost use Rattle.itm_runtime.specs.declared.stop.Stop.{Stop as Stopping};
ghost use Rattle.transactions.specs.Blocks.{StaysWithin};
ghost use Rattle.transactions.specs.Lent.{IsKept};
ghost use Rattle.typed_cells.specs.Reads.{read_as};

use crate::cell::Cell;
use crate::word::Word;
use itm_runtime::Stop;
use transactions::Transaction;

impl<T: Word> Cell<T> {
    /// Reads the value.
    pub fn read(&self, tx: &mut Transaction) -> Result<T, Stop>
        ensures tells { (read : Result ℕ Stopping) × Tells tx.old.words tx.old.thread (Call.Read ReadHint.R Width.U8 self.now.place) (answer_to_read read) tx.new.thread × (result ≡ read_as T.value read) }
        ensures fits { IfOk result T.fits }
        ensures kept { IsKept tx.old tx.new }
        ensures within { StaysWithin tx.old tx.new }
    {
        let read = tx.read_u64(self.place)?;
        Ok(T::of_number(read))
    }

    /// Writes a value.
    pub fn write(&self, tx: &mut Transaction, value: T) -> Result<(), Stop>
        ensures tells { Tells tx.old.words tx.old.thread (Call.Write WriteHint.W self.now.place (number (T.number value))) (answer_to_write result) tx.new.thread }
        ensures kept { IsKept tx.old tx.new }
        ensures within { StaysWithin tx.old tx.new }
    {
        tx.write_u64(self.place, value.to_number())
    }
}
