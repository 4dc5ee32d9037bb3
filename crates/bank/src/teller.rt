//! One thread of the program, which makes the transfers of one teller.

ghost use Rattle.std.specs.Prelude.{◌≡◌, ◌+◌, ◌<◌, ◌^◌, IfOk};
ghost use Rattle.bank.specs.Tellers.{ended};

use crate::fault::Fault;
use crate::transfer::{RECEIPT, Transfer, make};
use itm_types::Ran;
use transactions::{Client, Failed};
use typed_cells::Row;

/// How many accounts there are.
pub const ACCOUNTS: u64 = 8;

/// How many transfers a teller is asked for.
pub const TRANSFERS: u64 = 1_000;

/// More than all accounts have together.
const TOO_MUCH: u64 = 1_000_000;

/// What tellers did.
#[derive(Clone, Copy, Debug, Default)]
pub struct Tally {
    pub made: u64,
    pub cancelled: u64,
    pub receipts: u64,
    /// The amounts on the receipts.
    pub moved: u64,
}

impl Tally {
    /// What two did.
    pub fn and(self, other: Tally) -> Tally
        requires { ended self + ended other < 2 ^ 64 }
        ensures { ended result ≡ ended self + ended other }
    {
        Tally {
            made: self.made + other.made,
            cancelled: self.cancelled + other.cancelled,
            receipts: self.receipts.saturating_add(other.receipts),
            moved: self.moved.saturating_add(other.moved),
        }
    }
}

/// What a teller is asked for, by the number of the transfer. Each tenth one can't be made.
fn transfer_of(accounts: &Row<u64>, number: u64) -> Transfer
    requires { accounts.now.count ≡ ACCOUNTS }
{
    let from = number % ACCOUNTS;
    let amount = match number % 10 {
        9 => TOO_MUCH,
        rest => rest % 3 + 1,
    };
    Transfer {
        from: accounts.at(from),
        to: accounts.at((from + 1) % ACCOUNTS),
        amount,
    }
}

/// Runs the actions that are due: counts the receipts.
fn count_receipts(due: &[Ran], tally: &mut Tally)
    ensures { ended tally.new ≡ ended tally.old }
{
    for ran in due {
        if ran.action.fun == RECEIPT {
            tally.receipts = tally.receipts.saturating_add(1);
            tally.moved = tally.moved.saturating_add(ran.action.arg);
        }
    }
}

/// Makes all transfers of a teller.
pub fn serve(client: &mut Client, accounts: &Row<u64>) -> Result<Tally, Fault>
    requires { accounts.now.count ≡ ACCOUNTS }
    ensures words { client.new.transaction.words ≡ client.old.transaction.words }
    ensures all { IfOk result (λ tally. ended tally ≡ TRANSFERS) }
{
    let mut tally = Tally::default();
    for number in 0..TRANSFERS {
        match make(client, transfer_of(accounts, number)) {
            Ok(_) => {
                tally.made += 1;
                count_receipts(client.due(), &mut tally);
            }
            Err(Failed::Cancelled(_)) => tally.cancelled += 1,
            Err(_) => return Err(Fault::Transfer),
        }
    }
    Ok(tally)
}
