//! Two threads that wait for each other.

ghost use Rattle.std.specs.Prelude.{◌≡◌};
ghost use Rattle.transactions.specs.Lent.{IsKept};

use transactions::{Client, Failed, Stopped, Transaction};
use tx_threads::{ThreadsFault, run};

/// How often a thread looks for what the other one writes.
const TURNS: u32 = 100_000_000;

fn come(tx: &mut Transaction, at: u64) -> Result<(), Stopped<()>>
    ensures { IsKept tx.old tx.new }
{
    tx.write_u64(at, 1)?;
    Ok(())
}

fn look(tx: &mut Transaction, at: u64) -> Result<(), Stopped<()>>
    ensures { IsKept tx.old tx.new }
{
    if tx.read_u64(at)? == 0 {
        return Err(Stopped::Cancelled(()));
    }
    Ok(())
}

/// Writes the thread's own word, and waits until the other thread has written its one.
fn meet(thread: usize, client: &mut Client) -> Result<(), Failed<()>>
    ensures { client.new.transaction.words ≡ client.old.transaction.words }
{
    let own = thread as u64 % 2;
    client.atomically(|tx| come(tx, 8 * own))?;
    client.retry(u64::from(TURNS), |tx| look(tx, 8 - 8 * own))?;
    Ok(())
}

#[test]
fn threads_meet(rt: HostRuntime) -> Result<(), ThreadsFault> {
    let mut bytes = [0u8; 16];
    let body = |thread, client: &mut Client| meet(thread, client).is_ok();
    let joined = run(&rt, rt.alloc(), &mut bytes, 2, u64::MAX, &body)?;
    assert_eq!(rt; joined.values.as_slice(), [true, true].as_slice());
    assert_eq!(rt; joined.clock, 4);
    assert_eq!(rt; bytes, [1, 0, 0, 0, 0, 0, 0, 0, 1, 0, 0, 0, 0, 0, 0, 0]);
    Ok(())
}
