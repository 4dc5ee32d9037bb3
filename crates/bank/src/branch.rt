//! The accounts, and the tellers that share them.

ghost use Rattle.std.specs.Prelude.{◌≡◌, ◌*◌, ◌≤◌, IfOk, length};
ghost use Rattle.bank.specs.Tellers.{AllServed, ended};

use crate::fault::Fault;
use crate::teller::{ACCOUNTS, TRANSFERS, Tally, serve};
use std::alloc::{AllocError, Global};
use std::thread::Threads;
use tx_threads::run;
use typed_cells::{Places, Row};

/// How many tellers there are.
const TELLERS: u8 = 4;

/// What is in each account at first.
const START: u64 = 10_000;

/// What is told of a day.
#[derive(Clone, Copy, Debug)]
pub struct Day {
    pub tally: Tally,
    /// How many transactions wrote.
    pub commits: u64,
    /// What all accounts have at the end.
    pub sum: u64,
}

/// A memory in which each account has what it starts with.
fn opened(alloc: Global, size: usize, accounts: &Row<u64>) -> Result<Vec<u8>, AllocError>
    requires { accounts.now.count ≡ ACCOUNTS }
{
    let mut bytes = vec![in alloc; 0u8; size]?;
    for number in 0..ACCOUNTS {
        accounts.at(number).set(bytes.as_mut_slice(), START);
    }
    Ok(bytes)
}

fn sum_of(bytes: &[u8], accounts: &Row<u64>) -> u64
    requires { accounts.now.count ≡ ACCOUNTS }
{
    let mut sum = 0u64;
    for number in 0..ACCOUNTS {
        sum = sum.wrapping_add(accounts.at(number).get(bytes).unwrap_or(0));
    }
    sum
}

/// What all tellers did.
fn all_of(tallies: &[Result<Tally, Fault>]) -> Result<Tally, Fault>
    requires few { length tallies.now ≤ 127 }
    requires all { AllServed tallies.now }
    ensures { IfOk result (λ tally. ended tally ≡ length tallies.now * TRANSFERS) }
{
    let mut all = Tally::default();
    for tally in tallies {
        match tally {
            Ok(tally) => all = all.and(*tally),
            Err(_) => return Err(Fault::Transfer),
        }
    }
    Ok(all)
}

/// The tellers work for a day, and what is told of it is right.
pub fn open_for_a_day<R: Threads + AllocGlobal + Sync>(rt: &R) -> Result<Day, Fault>
    ensures all { IfOk result (λ day. ended day.tally ≡ TELLERS * TRANSFERS) }
    ensures sum { IfOk result (λ day. day.sum ≡ START * ACCOUNTS) }
{
    let alloc = rt.alloc();
    let mut places = Places::new();
    let Some(accounts) = places.row::<u64>(ACCOUNTS) else {
        return Err(Fault::Places);
    };
    let mut bytes = opened(alloc, places.size(), &accounts)?;
    let joined = run(
        rt,
        alloc,
        bytes.as_mut_slice(),
        TELLERS,
        u64::MAX,
        &|_number, client| { serve(client, &accounts) },
    )?;
    let tally = all_of(joined.values.as_slice())?;
    let sum = sum_of(bytes.as_slice(), &accounts);
    if sum != START * ACCOUNTS {
        return Err(Fault::Sum(sum));
    }
    Ok(Day {
        tally,
        commits: joined.clock / 2,
        sum,
    })
}
