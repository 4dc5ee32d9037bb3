//! A client that learns of a number in a block that it takes back, and acts on it afterwards.

ghost use Rattle.std.specs.Prelude.{◌≡◌, IfErr, IfOk};
ghost use Rattle.transactions.specs.Lent.{IsKept};
ghost use Rattle.client_tests.specs.Learning.{EndsNoBlock, HasCopied, HasLearned, IsFound};

use transactions::{Client, Done, Failed, Stopped, Transaction};

/// Reads a number, and takes its block back with it.
fn peek(tx: &mut Transaction, from: u64) -> Result<(), Stopped<u64>>
    ensures kept { IsKept tx.old tx.new }
    ensures ends { EndsNoBlock tx.old tx.new }
    ensures found { IfErr result (λ stopped. IsFound from stopped tx.old.words tx.old.thread tx.new.thread) }
{
    let found = tx.read_u64(from)?;
    Err(Stopped::Cancelled(found))
}

/// Writes at a place what it has found at another one, in a block that it took back.
fn copy(tx: &mut Transaction, from: u64, to: u64) -> Result<u64, Stopped<()>>
    ensures kept { IsKept tx.old tx.new }
    ensures made { IfOk result (λ found. HasCopied from to found tx.old.words tx.old.thread tx.new.thread) }
{
    let Err(found) = tx.block(|tx| peek(tx, from))? else {
        return Err(Stopped::Cancelled(()));
    };
    tx.write_u64(to, found)?;
    Ok(found)
}

/// Copies a number as one transaction, by way of such a block.
pub fn learn(client: &mut Client, from: u64, to: u64) -> Result<Done<u64>, Failed<()>>
    ensures words { client.new.transaction.words ≡ client.old.transaction.words }
    ensures learned { IfOk result (λ done. HasLearned from to done client.new.transaction.thread) }
{
    client.atomically(|tx| copy(tx, from, to))
}
