//! One thread, and its transactions.

ghost use Rattle.std.specs.Prelude.{◌≡◌, ◌*◌, ◌<◌, ◌≤◌, ◌^◌, IfOk};
ghost use Rattle.shared_words.specs.Passes.{Owns};
ghost use Rattle.large_words.specs.Layout.{IsReady};

use crate::fault::Fault;
use crate::layout::{MEBIBYTE, MOST, TRANSACTIONS, middle_of};
use itm_runtime::{Stop, Thread};
use itm_types::{Limits, MAX_COMMITS, Props, USUAL_DEPTH};
use shared_words::{Pass, Words};
use std::alloc::{AllocError, Global};
use std::hint::spin_loop;
use undo_log::Arena;

const LIMITS: Limits = Limits {
    patience: 8,
    retries: 0,
    max_commits: MAX_COMMITS,
    depth: USUAL_DEPTH,
    restarts: 0,
};

/// Adds 1 to a word.
fn add_one(words: &Words, thread: &mut Thread, word: u64) -> Result<(), Stop>
    requires own { Owns words.now thread.old.pass }
    requires small { word < 2 ^ 32 }
    ensures own { Owns words.now thread.new.pass }
{
    let place = 8 * word;
    let value = thread.read_u64(words, place)?;
    thread.write_u64(words, place, value.wrapping_add(1))
}

/// Adds 1 to the middle of this page of each MiB.
fn add_to_pages(words: &Words, thread: &mut Thread, mebibytes: u64, page: u64) -> Result<(), Stop>
    requires own { Owns words.now thread.old.pass }
    requires size { mebibytes ≤ MOST }
    requires page { page < TRANSACTIONS }
    ensures own { Owns words.now thread.new.pass }
{
    for mebibyte in 0..mebibytes {
        add_one(words, thread, middle_of(mebibyte, page))?;
    }
    Ok(())
}

/// Tries a transaction once, `again` where an earlier try got past its begin: it adds 1 to the first word, to the last one, and
/// to the middle of this page of each MiB.
fn try_once(
    words: &Words,
    thread: &mut Thread,
    mebibytes: u64,
    page: u64,
    again: bool,
) -> Result<(), Stop>
    requires own { Owns words.now thread.old.pass }
    requires some { 0 < mebibytes }
    requires size { mebibytes ≤ MOST }
    requires page { page < TRANSACTIONS }
    ensures own { Owns words.now thread.new.pass }
{
    Stop::check(thread.begin(words, Props::default(), 0, again)?)?;
    add_one(words, thread, 0)?;
    add_to_pages(words, thread, mebibytes, page)?;
    add_one(words, thread, MEBIBYTE * mebibytes - 1)?;
    Stop::check(thread.commit(words))?;
    Ok(())
}

/// Tries a transaction until it commits.
fn commit_one(words: &Words, thread: &mut Thread, mebibytes: u64, page: u64) -> Result<(), Fault>
    requires own { Owns words.now thread.old.pass }
    requires some { 0 < mebibytes }
    requires size { mebibytes ≤ MOST }
    requires page { page < TRANSACTIONS }
    ensures own { Owns words.now thread.new.pass }
{
    let mut again = false;
    for _ in 0..u64::MAX {
        match try_once(words, thread, mebibytes, page, again) {
            Ok(()) => return Ok(()),
            // it is rolled back
            Err(Stop::Conflict { .. }) => again = true,
            // it did not begin
            Err(Stop::Busy { .. }) => spin_loop(),
            Err(stop) => return Err(Fault::Stopped(stop)),
        }
    }
    Err(Fault::Tries)
}

/// Commits the transactions of every second page, from this one on.
fn commit_half(words: &Words, thread: &mut Thread, mebibytes: u64, first: u64) -> Result<(), Fault>
    requires own { Owns words.now thread.old.pass }
    requires some { 0 < mebibytes }
    requires size { mebibytes ≤ MOST }
    requires first { first < 2 }
    ensures own { Owns words.now thread.new.pass }
{
    for turn in 0..TRANSACTIONS / 2 {
        commit_one(words, thread, mebibytes, 2 * turn + first)?;
    }
    Ok(())
}

/// A thread with this pass, which comes back, commits the transactions of every second page, from this one on.
pub fn serve(
    alloc: Global,
    words: &Words,
    pass: Pass,
    mebibytes: u64,
    first: u64,
) -> Result<Pass, Fault>
    requires ready { IsReady words.now pass }
    requires some { 0 < mebibytes }
    requires size { mebibytes ≤ MOST }
    requires first { first < 2 }
    ensures { IfOk result (IsReady words.now) }
{
    let arena = Arena::new(alloc, 0)?;
    let Ok(mut thread) = Thread::new(alloc, words, pass, arena, LIMITS) else {
        return Err(Fault::Memory(AllocError));
    };
    commit_half(words, &mut thread, mebibytes, first)?;
    match thread.into_parts() {
        Ok((pass, _arena)) => Ok(pass),
        Err(_) => Err(Fault::Held),
    }
}
