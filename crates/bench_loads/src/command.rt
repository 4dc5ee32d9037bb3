//! The program's words.

ghost use Rattle.std.specs.Prelude.{◌≡◌, ◌<◌, ◌≤◌, IfOk};

use crate::fault::Fault;
use crate::measure::{Outcome, is_right, measure};
use crate::sites::has_nested;
use crate::task::Task;
use crate::workload::{WORDS, WORKLOADS, Workload, name_of, named};
use std::env;
use std::num::nearest_u64_to_f64;
use std::rt::{Clock, Env};
use std::thread::Threads;

/// How many commits a check makes.
const COMMITS: u64 = 300;

/// What is measured, how often at once, and for how long.
#[derive(Drop)]
struct Order {
    task: Task,
    threads: u8,
    milliseconds: u64,
    ghost some: { 0 < threads },
    ghost few: { threads ≤ 8 },
}

fn order_of<const SITES: u64>(words: &[String]) -> Result<Order, Fault> {
    let (workload, threads, size, milliseconds, restarts, count) = match words {
        [_, workload, threads, size, milliseconds] => {
            (workload, threads, size, milliseconds, 0, 0)
        }
        [_, workload, threads, size, milliseconds, restarts] => {
            (workload, threads, size, milliseconds, restarts.parse()?, 0)
        }
        [_, workload, threads, size, milliseconds, restarts, count] => (
            workload,
            threads,
            size,
            milliseconds,
            restarts.parse()?,
            count.parse()?,
        ),
        _ => return Err(Fault::Usage),
    };
    let workload = named(workload).ok_or(Fault::Usage)?;
    if workload == Workload::Nested && !has_nested::<SITES>() {
        return Err(Fault::Usage);
    }
    let threads: u8 = threads.parse()?;
    let size: u64 = size.parse()?;
    let milliseconds = milliseconds.parse()?;
    if threads == 0 || threads > 8 || size == 0 || size > WORDS as u64 {
        return Err(Fault::Usage);
    }
    let task = Task {
        workload,
        size,
        count,
        restarts,
    };
    Ok(Order {
        task,
        threads,
        milliseconds,
    })
}

/// Prints what was measured.
fn report<R: Print>(rt: &R, order: &Order, outcome: &Outcome) -> Result<(), Fault> {
    let workload = name_of(order.task.workload);
    let threads = order.threads;
    let size = order.task.size;
    let commits = outcome.tally.commits;
    let attempts = outcome.tally.attempts;
    let seconds = outcome.took.as_secs_f64();
    let rate = nearest_u64_to_f64(commits) / seconds;
    println!(rt; "{workload} {threads} {size} {commits} {attempts} {seconds:.3} {rate:.0}")?;
    Ok(())
}

/// Measures what the words ask for.
fn obey<const SITES: u64, R: Threads + Clock + AllocGlobal + Print + Sync>(
    rt: &R,
    words: &[String],
) -> Result<(), Fault> {
    let order = order_of::<SITES>(words)?;
    let outcome = measure::<SITES, R>(rt, order.threads, &order.task, order.milliseconds)?;
    if !is_right(&order.task, &outcome) {
        return Err(Fault::Wrong);
    }
    report(rt, &order, &outcome)
}

/// Runs each workload for some commits on one thread, and prints what they came to.
fn check<const SITES: u64, R: Threads + Clock + AllocGlobal + Print + Sync>(
    rt: &R,
) -> Result<(), Fault> {
    for workload in WORKLOADS {
        if workload == Workload::Nested && !has_nested::<SITES>() {
            continue;
        }
        let task = Task {
            workload,
            size: 16,
            count: COMMITS,
            restarts: 0,
        };
        let outcome = measure::<SITES, R>(rt, 1, &task, 0)?;
        let name = name_of(workload);
        let commits = outcome.tally.commits;
        let attempts = outcome.tally.attempts;
        let clock = outcome.clock;
        let sum = outcome.sum;
        let sites = outcome.tally.sites;
        println!(rt;
            "{name}: {commits} commits in {attempts} attempts, clock {clock}, sum {sum}, sites {sites}"
        )?;
    }
    Ok(())
}

/// Does what the program's words say.
pub fn run<const SITES: u64, R: Env + Threads + Clock + AllocGlobal + Print + Sync>(
    rt: &R,
) -> Result<(), Fault> {
    let words: Vec<String> = env::args(rt)?.collect(rt.alloc())?;
    if words.len() < 2 {
        check::<SITES, R>(rt)
    } else {
        obey::<SITES, R>(rt, words.as_slice())
    }
}
