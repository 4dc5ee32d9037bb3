//! Four threads in a ring hand one token on, a hundred times each.
#![tactic(auto)]

ghost use Rattle.std.specs.Prelude.{◌≡◌};
ghost use Rattle.transactions.specs.Lent.{IsKept};

use anyhow::{Result, bail};
use transactions::{Client, Failed, Stopped, Transaction};
use tx_threads::run;
use typed_cells::{Cell, Places, Row};

fn hand_on(tx: &mut Transaction, from: Cell<bool>, to: Cell<bool>) -> Result<(), Stopped<()>>
    ensures { IsKept tx.old tx.new }
{
    if !from.read(tx)? {
        return Err(Stopped::Cancelled(()));
    }
    from.write(tx, false)?;
    to.write(tx, true)?;
    Ok(())
}

fn wait(client: &mut Client, from: Cell<bool>, to: Cell<bool>) -> Result<(), Failed<()>>
    ensures { client.new.transaction.words ≡ client.old.transaction.words }
{
    client.retry(u64::MAX, |tx| hand_on(tx, from, to))?;
    Ok(())
}

fn serve(thread: usize, client: &mut Client, ring: &Row<bool>) -> Result<(), Failed<()>>
    requires { ring.now.count ≡ 4 }
    ensures { client.new.transaction.words ≡ client.old.transaction.words }
{
    let number = thread as u64 % 4;
    let from = ring.at(number);
    let to = ring.at((number + 1) % 4);
    client.try_fold(100, (), |client, _, _| wait(client, from, to))
}

fn main(rt: HostRuntime) -> Result<()> {
    let alloc = rt.alloc();
    let mut places = Places::new();
    let Some(ring) = places.row::<bool>(4) else {
        bail!("no room");
    };
    let mut bytes = vec![in alloc; 0u8; places.size()]?;
    ring.at(0).set(bytes.as_mut_slice(), true);
    let body = |thread, client: &mut Client| serve(thread, client, &ring).is_ok();
    let joined = run(&rt, alloc, bytes.as_mut_slice(), 4, u64::MAX, &body)?;
    let back = ring.at(0).get(bytes.as_slice()) == Some(true);
    println!(rt;
        "handed on {} times, back at the first: {back}",
        joined.clock / 2
    )?;
    Ok(())
}
