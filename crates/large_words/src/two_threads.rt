//! Two threads over the cells of a vector.

ghost use Rattle.std.specs.Prelude.{◌≡◌, ◌+◌, ◌*◌, ◌<◌, ◌≤◌, length, slice_index, IfOk};
ghost use Rattle.shared_words.specs.Passes.{view_of};
ghost use Rattle.large_words.specs.Layout.{IsReady, IsSumOf};

use crate::fault::Fault;
use crate::layout::{MEBIBYTE, MOST};
use crate::memory::{laid, sum_if_right};
use crate::thread_work::serve;
use shared_words::{Pass, Words};
use std::alloc::Global;
use std::thread::{Threads, join};

/// A pass that has come back, or why it has not.
type Served = Result<Pass, Fault>;

/// One pass of two that have come back.
fn joined(words: &Words, mine: Served, theirs: Served) -> Served
    requires mine { IfOk mine (IsReady words.now) }
    requires theirs { IfOk theirs (IsReady words.now) }
    ensures { IfOk result (IsReady words.now) }
{
    let mut pass = mine?;
    words.join(&mut pass, theirs?);
    Ok(pass)
}

/// Two threads, each with half of the transactions.
fn serve_both<R: Threads>(
    rt: &R,
    alloc: Global,
    words: &Words,
    pass: Pass,
    mebibytes: u64,
) -> Served
    requires ready { IsReady words.now pass }
    requires room { 1 < (view_of pass).share }
    requires some { 0 < mebibytes }
    requires size { mebibytes ≤ MOST }
    ensures { IfOk result (IsReady words.now) }
{
    let mut rest = pass;
    let own = words.split(&mut rest);
    let (mine, theirs) = join(
        rt,
        move || -> Served
            requires { IsReady words.now own × (0 < mebibytes) × (mebibytes ≤ MOST) }
            ensures { IfOk result (IsReady words.entry.now) }
        { serve(alloc, words, own, mebibytes, 0) },
        move || -> Served
            requires { IsReady words.now rest × (0 < mebibytes) × (mebibytes ≤ MOST) }
            ensures { IfOk result (IsReady words.entry.now) }
        { serve(alloc, words, rest, mebibytes, 1) },
    );
    joined(words, mine, theirs)
}

/// The cells once all transactions are committed, where they were.
fn add_in_place<R: Threads>(
    rt: &R,
    alloc: Global,
    cells: Vec<u64>,
    mebibytes: u64,
) -> Result<Vec<u64>, Fault>
    requires clock { slice_index cells.items 0 ≡ 0 }
    requires size { length cells.items ≡ MEBIBYTE * mebibytes + 1 }
    requires some { 0 < mebibytes }
    requires most { mebibytes ≤ MOST }
    ensures place { IfOk result (λ r. r.ptr ≡ cells.ptr) }
    ensures count { IfOk result (λ r. length r.items ≡ length cells.items) }
{
    let Ok((words, pass)) = Words::of_cells(cells) else {
        unreachable!()
    };
    let pass = serve_both(rt, alloc, &words, pass, mebibytes)?;
    Ok(words.close_in_place(pass).into_cells())
}

/// The sum of words of so many MiB once all transactions are committed, each of which is as these leave it.
pub fn sum_over<R: Threads + AllocGlobal>(rt: &R, mebibytes: u64) -> Result<u64, Fault>
    requires some { 0 < mebibytes }
    requires most { mebibytes ≤ MOST }
    ensures { IfOk result (IsSumOf (MEBIBYTE * mebibytes)) }
{
    let alloc = rt.alloc();
    let cells = laid(alloc, MEBIBYTE * mebibytes)?;
    let cells = add_in_place(rt, alloc, cells, mebibytes)?;
    match sum_if_right(cells.as_slice()) {
        Some(sum) => Ok(sum),
        None => Err(Fault::Wrong),
    }
}
