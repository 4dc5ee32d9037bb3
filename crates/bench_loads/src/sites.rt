//! The transactions that are measured, at several places of the program.
//!
//! A call of the runtime may be compiled otherwise where a program has it at one place alone. So each instance of
//! `transaction` has calls of its own, a begin, a commit and those of each body, and a program has as many instances as it
//! says. Its transactions come to one after the other.

ghost use Rattle.std.specs.Prelude.{◌≡◌};
ghost use Rattle.shared_words.specs.Passes.{Owns};

use crate::bodies::body;
use crate::draw::{Row, advance};
use crate::task::{Halt, Progress};
use itm_runtime::Thread;
use itm_types::Props;
use norec_core::Answer;
use shared_words::Words;
use std::alloc::AllocError;
use std::hint::spin_loop;

/// How an attempt ended.
#[derive(Clone, Copy, PartialEq, Eq)]
pub enum TryEnd {
    Committed,
    /// It began, and was rolled back.
    RolledBack,
    /// It did not begin.
    Outside,
}

/// Tries a transaction once, `again` where an earlier try of it began. Where it commits, its place's number goes to those
/// added up: without that the instances were one and the same code, and would be put together.
#[inline(never)]
fn transaction<const SITE: u64>(
    words: &Words,
    thread: &mut Thread,
    progress: &mut Progress,
    again: bool,
) -> Result<TryEnd, AllocError>
    requires own { Owns words.now thread.old.pass }
    ensures own { Owns words.now thread.new.pass }
{
    progress.tally.attempts = progress.tally.attempts.wrapping_add(1);
    let Answer::Reply(_) = thread.begin(words, Props::default(), 0, again)? else {
        return Ok(TryEnd::Outside);
    };
    if !body(words, thread, &progress.block)? {
        return Ok(TryEnd::RolledBack);
    }
    let Answer::Committed { .. } = thread.commit(words) else {
        return Ok(TryEnd::RolledBack);
    };
    progress.tally.commits = progress.tally.commits.wrapping_add(1);
    progress.tally.sites = progress.tally.sites.wrapping_add(SITE);
    Ok(TryEnd::Committed)
}

/// Tries it again until it commits, or until the thread is told to stop. (Apart, so that where the first try commits nothing is
/// kept for others.)
#[inline(never)]
fn try_again<const SITE: u64>(
    words: &Words,
    thread: &mut Thread,
    progress: &mut Progress,
    first: TryEnd,
) -> Result<(), Halt>
    requires own { Owns words.now thread.old.pass }
    ensures own { Owns words.now thread.new.pass }
{
    let mut again = first == TryEnd::RolledBack;
    for _ in 0..u64::MAX {
        spin_loop();
        if progress.is_stopped() {
            return Err(Halt::Over);
        }
        match transaction::<SITE>(words, thread, progress, again)? {
            TryEnd::Committed => return Ok(()),
            TryEnd::RolledBack => again = true,
            TryEnd::Outside => {}
        }
    }
    Err(Halt::Over)
}

/// The next transaction, at this place, about words that the row draws.
#[inline(always)]
fn turn<const SITE: u64>(
    words: &Words,
    thread: &mut Thread,
    progress: &mut Progress,
    row: &mut Row,
) -> Result<(), Halt>
    requires own { Owns words.now thread.old.pass }
    ensures own { Owns words.now thread.new.pass }
{
    if progress.is_stopped() || progress.is_done() {
        return Err(Halt::Over);
    }
    advance(&mut progress.block, row);
    let end = transaction::<SITE>(words, thread, progress, false)?;
    if end == TryEnd::Committed {
        return Ok(());
    }
    try_again::<SITE>(words, thread, progress, end)
}

/// A transaction at each of two places, one after the other.
#[inline(always)]
fn two_turns(
    words: &Words,
    thread: &mut Thread,
    progress: &mut Progress,
    row: &mut Row,
) -> Result<(), Halt>
    requires own { Owns words.now thread.old.pass }
    ensures own { Owns words.now thread.new.pass }
{
    turn::<0>(words, thread, progress, row)?;
    turn::<1>(words, thread, progress, row)
}

/// The same at ten.
#[inline(always)]
fn ten_turns(
    words: &Words,
    thread: &mut Thread,
    progress: &mut Progress,
    row: &mut Row,
) -> Result<(), Halt>
    requires own { Owns words.now thread.old.pass }
    ensures own { Owns words.now thread.new.pass }
{
    turn::<0>(words, thread, progress, row)?;
    turn::<1>(words, thread, progress, row)?;
    turn::<2>(words, thread, progress, row)?;
    turn::<3>(words, thread, progress, row)?;
    turn::<4>(words, thread, progress, row)?;
    turn::<5>(words, thread, progress, row)?;
    turn::<6>(words, thread, progress, row)?;
    turn::<7>(words, thread, progress, row)?;
    turn::<8>(words, thread, progress, row)?;
    turn::<9>(words, thread, progress, row)
}

/// The same at each of the program's places, of which it has 1, 2 or else 10.
#[inline(always)]
pub fn all_turns<const SITES: u64>(
    words: &Words,
    thread: &mut Thread,
    progress: &mut Progress,
    row: &mut Row,
) -> Result<(), Halt>
    requires own { Owns words.now thread.old.pass }
    ensures own { Owns words.now thread.new.pass }
{
    match SITES {
        1 => turn::<0>(words, thread, progress, row),
        2 => two_turns(words, thread, progress, row),
        _ => ten_turns(words, thread, progress, row),
    }
}

/// Whether the program has transactions with an inner block: they stand at a place of their own.
pub fn has_nested<const SITES: u64>() -> bool {
    SITES > 2
}
