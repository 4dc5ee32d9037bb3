//! A run of a workload, and what it came to.

ghost use Rattle.std.specs.Prelude.{◌≡◌, ◌+◌, ◌*◌, ◌<◌, ◌≤◌, false, length, IfOk};
ghost use Rattle.shared_words.specs.Passes.{Owns, view_of, cells_of};

use crate::crowd::serve_for;
use crate::fault::Fault;
use crate::task::{Tally, Task};
use crate::workload::{WORDS, Workload, word_of};
use shared_words::{Pass, Words};
use std::rt::Clock;
use std::thread::Threads;
use std::time::{Duration, Instant};

/// What a run came to.
#[derive(Clone, Copy)]
pub struct Outcome {
    pub tally: Tally,
    /// Twice the number of commits that wrote.
    pub clock: u64,
    /// The sum of all words, as far as 64 bits tell it.
    pub sum: u64,
    pub took: Duration,
}

/// The sum of the words of these bytes.
fn sum_of(memory: &[u8]) -> u64 {
    let mut sum = 0u64;
    for bytes in memory.chunks(8) {
        sum = sum.wrapping_add(word_of(bytes));
    }
    sum
}

/// What is left when the words are closed.
fn close(words: Words, pass: Pass, memory: &mut [u8], tally: Tally, took: Duration) -> Outcome
    requires own { Owns words pass }
    requires size { length memory.old + 8 ≡ 8 * cells_of words }
{
    let clock = words.close(pass, memory).clock;
    Outcome {
        tally,
        clock,
        sum: sum_of(memory),
        took,
    }
}

/// What the threads did, and how long it took them.
fn serve_timed<const SITES: u64, R: Threads + Clock + AllocGlobal + Sync>(
    rt: &R,
    words: &Words,
    pass: Pass,
    threads: u8,
    task: &Task,
    milliseconds: u64,
) -> Result<(Pass, Tally, Duration), Fault>
    requires own { Owns words.now pass }
    requires idle { (view_of pass).holds ≡ false }
    requires some { 0 < threads }
    requires room { threads ≤ (view_of pass).share }
    ensures own { IfOk result (λ r. Owns words.now r.0) }
{
    let began = Instant::now(rt)?;
    let (pass, tally) = serve_for::<SITES, R>(
        rt,
        rt.alloc(),
        words,
        pass,
        threads - 1,
        task,
        milliseconds,
    )?;
    let took = began.elapsed(rt)?;
    Ok((pass, tally, took))
}

/// So many threads do the task to its end, or, where it has no count, for so long. The memory is all 0.
fn measure_in<const SITES: u64, R: Threads + Clock + AllocGlobal + Sync>(
    rt: &R,
    memory: &mut [u8],
    threads: u8,
    task: &Task,
    milliseconds: u64,
) -> Result<Outcome, Fault>
    requires { (0 < threads) × (threads ≤ 8) }
{
    let (words, pass) = match Words::new(rt.alloc(), memory) {
        Ok(made) => made,
        Err(_) => return Err(Fault::Memory),
    };
    let (pass, tally, took) = serve_timed::<SITES, R>(
        rt,
        &words,
        pass,
        threads,
        task,
        milliseconds,
    )?;
    Ok(close(words, pass, memory, tally, took))
}

/// The same, over as many words as the workloads are about.
pub fn measure<const SITES: u64, R: Threads + Clock + AllocGlobal + Sync>(
    rt: &R,
    threads: u8,
    task: &Task,
    milliseconds: u64,
) -> Result<Outcome, Fault>
    requires { (0 < threads) × (threads ≤ 8) }
{
    let alloc = rt.alloc();
    let mut memory = vec![in alloc; 0u8; 8 * WORDS]?;
    measure_in::<SITES, R>(rt, memory.as_mut_slice(), threads, task, milliseconds)
}

/// Whether the memory at the end is what the commits leave.
pub fn is_right(task: &Task, outcome: &Outcome) -> bool {
    let commits = outcome.tally.commits;
    let sum = match task.workload {
        Workload::Counter => commits,
        Workload::Writes => outcome.sum,
        Workload::Transfer | Workload::ReadOnly => 0,
        Workload::Nested => outcome.clock / 2,
    };
    let wrote = match task.workload {
        Workload::ReadOnly => 0,
        Workload::Nested => outcome.clock / 2,
        _ => commits,
    };
    outcome.sum == sum && outcome.clock == wrote.wrapping_mul(2)
}
