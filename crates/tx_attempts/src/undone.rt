//! How many actions the records of blocks that ran again tell of.

ghost use Rattle.std.specs.Prelude.{◌≡◌, ◌<◌, ◌^◌};
ghost use Rattle.tx_attempts.specs.Restarts.{before, count_undone as counted};

use crate::attempt::Again;

/// How many actions these records tell of.
#[inline(always)]
#[tactic(auto, using(crate::proofs::UndoneCounts::undone_few, crate::proofs::UndoneCounts::undone_next))]
pub fn count_undone(restarts: &[Again]) -> usize
    requires { counted restarts.now < 2 ^ 64 }
    ensures { result ≡ counted restarts.now }
{
    let mut count = 0;
    for again in restarts {
        count += again.undone.as_slice().len();
    }
    count
}

/// How many those tell of that stand before so many calls.
pub fn undone_before(restarts: &[Again], kept: usize) -> usize
    requires { counted (before kept restarts.now) < 2 ^ 64 }
    ensures { result ≡ counted (before kept restarts.now) }
{
    let mut count = 0;
    for again in restarts {
        if again.kept < kept {
            count += again.undone.as_slice().len();
        }
    }
    count
}
