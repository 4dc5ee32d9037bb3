//! One transaction: an amount goes from one account to another.

ghost use Rattle.std.specs.Prelude.{◌≡◌, IfOk};
ghost use Rattle.transactions.specs.Lent.{IsKept};
ghost use Rattle.bank.specs.Transfers.{EndsNoBlock, HasMoved, IsMade, IsPaidIn};

use itm_types::Action;
use transactions::{Client, Done, Failed, Stopped, Transaction};
use typed_cells::Cell;

/// The commit action of a transfer. Its argument is the amount.
pub const RECEIPT: u32 = 1;

/// What is to be moved.
#[derive(Clone, Copy, Debug)]
pub struct Transfer {
    pub from: Cell<u64>,
    pub to: Cell<u64>,
    pub amount: u64,
}

/// The first account had less than the amount, or the second one has no place for it.
#[derive(Clone, Copy, Debug, Drop)]
pub struct Unmade;

/// The second account's part.
fn pay_in(tx: &mut Transaction, to: Cell<u64>, amount: u64) -> Result<(), Stopped<Unmade>>
    ensures kept { IsKept tx.old tx.new }
    ensures ends { EndsNoBlock tx.old tx.new }
    ensures made { IfOk result (λ _. IsPaidIn to.place amount tx.old.words tx.old.thread tx.new.thread) }
{
    let has = to.read(tx)?;
    let more = has.checked_add(amount).ok_or(Stopped::Cancelled(Unmade))?;
    to.write(tx, more)?;
    Ok(())
}

/// The transfer within a transaction. The second account's part is a block of its own: where the limits allow it and another
/// commit came between at that account alone, it alone is made again.
fn move_amount(tx: &mut Transaction, transfer: Transfer) -> Result<(), Stopped<Unmade>>
    ensures kept { IsKept tx.old tx.new }
    ensures made { IfOk result (λ _. IsMade transfer tx.old.words tx.old.thread tx.new.thread) }
{
    let Transfer { from, to, amount } = transfer;
    let had = from.read(tx)?;
    let less = had.checked_sub(amount).ok_or(Stopped::Cancelled(Unmade))?;
    from.write(tx, less)?;
    if let Err(why) = tx.block(|tx| pay_in(tx, to, amount))? {
        return Err(Stopped::Cancelled(why));
    }
    let fun = RECEIPT;
    tx.on_commit(Action { fun, arg: amount })?;
    Ok(())
}

/// Makes the transfer, or takes it back.
pub fn make(client: &mut Client, transfer: Transfer) -> Result<Done<()>, Failed<Unmade>>
    ensures words { client.new.transaction.words ≡ client.old.transaction.words }
    ensures moved { IfOk result (λ done. HasMoved transfer done client.new.transaction.thread) }
{
    client.atomically(|tx| move_amount(tx, transfer))
}
