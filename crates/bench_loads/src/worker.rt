//! One thread, which runs transactions until it is told to stop.

ghost use Rattle.std.specs.Prelude.{◌≡◌, false, IfOk};
ghost use Rattle.shared_words.specs.Passes.{Owns, view_of};

use crate::draw::Row;
use crate::fault::Fault;
use crate::nested::{disturb, try_nested};
use crate::sites::{TryEnd, all_turns, has_nested};
use crate::task::{Halt, NOTHING_DONE, Progress, Tally, Task, most_of};
use crate::workload::WORDS;
use itm_runtime::Thread;
use itm_types::{Limits, MAX_COMMITS, USUAL_DEPTH};
use shared_words::{Pass, Words};
use std::alloc::{AllocError, Global};
use std::hint::spin_loop;
use std::sync::atomic::{AtomicBool, Ordering};
use undo_log::Arena;

/// Few looks at the clock, for one takes longer here than in the programs that this one is compared with.
const LIMITS: Limits = Limits {
    patience: 3,
    retries: 0,
    max_commits: MAX_COMMITS,
    depth: USUAL_DEPTH,
    restarts: 0,
};

/// A pass that has come back, and what was done with it.
pub type Worked = Result<(Pass, Tally), Fault>;

/// Runs transactions until the thread is told to stop, or has committed as many as the task has. (The row is apart from the
/// progress, which each transaction is handed: so words are drawn in registers, while the commit before ends.)
fn run<const SITES: u64>(
    words: &Words,
    thread: &mut Thread,
    begin: Progress,
    row: Row,
) -> Result<Tally, AllocError>
    requires own { Owns words.now thread.old.pass }
    ensures own { Owns words.now thread.new.pass }
{
    let mut progress = begin;
    let mut row = row;
    for _ in 0..u64::MAX {
        match all_turns::<SITES>(words, thread, &mut progress, &mut row) {
            Ok(()) => {}
            Err(Halt::Over) => break,
            Err(Halt::Memory) => return Err(AllocError),
        }
    }
    Ok(progress.tally)
}

/// The same of transactions with an inner block.
fn run_nested(
    words: &Words,
    thread: &mut Thread,
    task: &Task,
    stop: &AtomicBool,
) -> Result<Tally, AllocError>
    requires own { Owns words.now thread.old.pass }
    ensures own { Owns words.now thread.new.pass }
{
    let mut tally = NOTHING_DONE;
    let size = task.size.min(WORDS as u64);
    let most = most_of(task);
    let mut again = false;
    for _ in 0..u64::MAX {
        if stop.load(Ordering::SeqCst) || tally.commits == most {
            break;
        }
        tally.attempts = tally.attempts.wrapping_add(1);
        match try_nested(words, thread, size, again)? {
            TryEnd::Committed => {
                tally.commits = tally.commits.wrapping_add(1);
                again = false;
            }
            TryEnd::RolledBack => {
                again = true;
                spin_loop();
            }
            TryEnd::Outside => spin_loop(),
        }
    }
    Ok(tally)
}

/// Disturbs those that read until it is told to stop. Its own commits are not counted.
fn run_beside(
    words: &Words,
    thread: &mut Thread,
    task: &Task,
    stop: &AtomicBool,
) -> Result<Tally, AllocError>
    requires own { Owns words.now thread.old.pass }
    ensures own { Owns words.now thread.new.pass }
{
    for _ in 0..u64::MAX {
        if stop.load(Ordering::SeqCst) {
            break;
        }
        disturb(words, thread, task.size)?;
    }
    Ok(NOTHING_DONE)
}

/// Does the task or, `beside` those that do, disturbs them.
fn run_part<const SITES: u64>(
    words: &Words,
    thread: &mut Thread,
    task: &Task,
    seed: u64,
    beside: bool,
    stop: &AtomicBool,
) -> Result<Tally, AllocError>
    requires own { Owns words.now thread.old.pass }
    ensures own { Owns words.now thread.new.pass }
{
    match Progress::new(task, stop) {
        Some(begin) => run::<SITES>(words, thread, begin, Row::new(task, seed)),
        None if !has_nested::<SITES>() => Ok(NOTHING_DONE),
        None if beside => run_beside(words, thread, task, stop),
        None => run_nested(words, thread, task, stop),
    }
}

/// One thread with this pass, of those that do the task or, `beside` them, of who disturbs.
pub fn serve<const SITES: u64>(
    alloc: Global,
    words: &Words,
    pass: Pass,
    task: &Task,
    seed: u64,
    beside: bool,
    stop: &AtomicBool,
) -> Worked
    requires own { Owns words.now pass }
    requires idle { (view_of pass).holds ≡ false }
    ensures own { IfOk result (λ r. Owns words.now r.0) }
    ensures idle { IfOk result (λ r. (view_of r.0).holds ≡ false) }
{
    let arena = Arena::new(alloc, 0)?;
    let limits = Limits {
        restarts: task.restarts,
        ..LIMITS
    };
    let Ok(mut thread) = Thread::new(alloc, words, pass, arena, limits) else {
        return Err(Fault::Memory);
    };
    let tally = run_part::<SITES>(words, &mut thread, task, seed, beside, stop)?;
    match thread.into_parts() {
        Ok((pass, _)) => Ok((pass, tally)),
        Err(_) => Err(Fault::Held),
    }
}
