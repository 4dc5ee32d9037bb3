//! Several threads at once.

ghost use Rattle.std.specs.Thread.{IsSync};
ghost use Rattle.std.specs.Prelude.{◌≡◌, ◌+◌, ◌<◌, ◌≤◌, false, IfOk};
ghost use Rattle.shared_words.specs.Passes.{Owns, view_of};

use crate::task::{Tally, Task};
use crate::worker::{Worked, serve};
use crate::workload::Workload;
use shared_words::{Pass, Words};
use std::alloc::Global;
use std::rt::Clock;
use std::sync::atomic::{AtomicBool, Ordering};
use std::thread::{Threads, join, sleep};
use std::time::Duration;

/// What two threads came to, as if one had done it.
fn add_up(words: &Words, first: Worked, second: Worked) -> Worked
    requires first { IfOk first (λ r. Owns words.now r.0 × ((view_of r.0).holds ≡ false)) }
    requires second { IfOk second (λ r. Owns words.now r.0 × ((view_of r.0).holds ≡ false)) }
    ensures own { IfOk result (λ r. Owns words.now r.0) }
    ensures idle { IfOk result (λ r. (view_of r.0).holds ≡ false) }
{
    let (mut pass, mine) = first?;
    let (other, theirs) = second?;
    words.join(&mut pass, other);
    let tally = Tally {
        commits: mine.commits.wrapping_add(theirs.commits),
        attempts: mine.attempts.wrapping_add(theirs.attempts),
        sites: mine.sites.wrapping_add(theirs.sites),
    };
    Ok((pass, tally))
}

/// Where the row of random numbers of a thread begins, by the thread's number.
fn seed_of(number: u64) -> u64 {
    88_172_645_463_325_252u64.wrapping_add(1_442_695_040_888_963_407u64.wrapping_mul(number))
}

/// This thread and as many more beside it as the count says do the task until they are told to stop. Of several the last one
/// disturbs the others, where the task is to have that.
fn serve_all<const SITES: u64, R: Threads + Sync>(
    rt: &R,
    alloc: Global,
    words: &Words,
    pass: Pass,
    more: u8,
    task: &Task,
    beside: bool,
    stop: &AtomicBool,
) -> Worked
    requires own { Owns words.now pass }
    requires idle { (view_of pass).holds ≡ false }
    requires room { more < (view_of pass).share }
    ensures own { IfOk result (λ r. Owns words.now r.0) }
    ensures idle { IfOk result (λ r. (view_of r.0).holds ≡ false) }
{
    let seed = seed_of(u64::from(more));
    if more == 0 {
        return serve::<SITES>(alloc, words, pass, task, seed, beside, stop);
    }
    let mut rest = pass;
    let own = words.split(&mut rest);
    let (mine, theirs) = join(
        rt,
        move || -> Worked
            requires { Owns words.now own × ((view_of own).holds ≡ false) }
            ensures { IfOk result (λ r. Owns words.entry.now r.0 × ((view_of r.0).holds ≡ false)) }
        { serve::<SITES>(alloc, words, own, task, seed, false, stop) },
        move || -> Worked
            requires { IsSync R.row × Owns words.now rest × ((view_of rest).holds ≡ false) × (0 < more) × (more < (view_of rest).share + 1) }
            ensures { IfOk result (λ r. Owns words.entry.now r.0 × ((view_of r.0).holds ≡ false)) }
        { serve_all::<SITES, R>(rt, alloc, words, rest, more - 1, task, beside, stop) },
    );
    add_up(words, mine, theirs)
}

/// Waits so long, and then tells the threads to stop.
fn time_out(rt: &impl Clock, milliseconds: u64, stop: &AtomicBool) {
    sleep(rt, Duration::from_millis(milliseconds));
    stop.store(true, Ordering::SeqCst);
}

/// The threads do the task to its end, or, where it has no count, for so long.
pub fn serve_for<const SITES: u64, R: Threads + Clock + Sync>(
    rt: &R,
    alloc: Global,
    words: &Words,
    pass: Pass,
    more: u8,
    task: &Task,
    milliseconds: u64,
) -> Worked
    requires own { Owns words.now pass }
    requires idle { (view_of pass).holds ≡ false }
    requires room { more < (view_of pass).share }
    ensures own { IfOk result (λ r. Owns words.now r.0) }
    ensures idle { IfOk result (λ r. (view_of r.0).holds ≡ false) }
{
    let flag = AtomicBool::new(false);
    let stop = &flag;
    if task.count > 0 {
        return serve_all::<SITES, R>(rt, alloc, words, pass, more, task, false, stop);
    }
    let beside = more > 0 && task.workload == Workload::Nested;
    let (_, worked) = join(
        rt,
        move || time_out(rt, milliseconds, stop),
        move || -> Worked
            requires { IsSync R.row × Owns words.now pass × ((view_of pass).holds ≡ false) × (more < (view_of pass).share) }
            ensures { IfOk result (λ r. Owns words.entry.now r.0 × ((view_of r.0).holds ≡ false)) }
        { serve_all::<SITES, R>(rt, alloc, words, pass, more, task, beside, stop) },
    );
    worked
}
