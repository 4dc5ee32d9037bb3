//! A bank: each teller is a thread, and each of its transfers between two accounts is a transaction.
#![tactic(auto)]

mod branch;
mod fault;
mod teller;
mod transfer;

use crate::branch::open_for_a_day;
use crate::fault::Fault;

fn main(rt: HostRuntime) -> Result<(), Fault> {
    let day = open_for_a_day(&rt)?;
    let tally = day.tally;
    println!(rt;
        "{} transfers made, {} cancelled",
        tally.made, tally.cancelled
    )?;
    println!(rt; "{} receipts over {}", tally.receipts, tally.moved)?;
    println!(rt; "{} commits, {} in all accounts", day.commits, day.sum)?;
    Ok(())
}
