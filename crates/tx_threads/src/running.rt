//! Threads from their start to the bytes that they leave.

ghost use Rattle.std.specs.Prelude.{◌≡◌, ◌<◌, ◌≤◌, length, IfOk, OnErr};
ghost use Rattle.tx_threads.specs.Threads.{HaveRun, KeepsWords, TellsWrongSize};

use crate::closing::read_all;
use crate::fault::ThreadsFault;
use crate::serving::serve_all;
use shared_words::Words;
use std::alloc::Global;
use std::sync::Arc;
use std::thread::Threads;
use transactions::Client;

/// How many threads there are at most.
pub const MAX_THREADS: u8 = 127;

/// What threads came to, once all are joined.
#[derive(Debug, Drop)]
pub struct Joined<T> {
    /// What the bodies gave, in the order of the threads.
    pub values: Vec<T>,
    /// Twice the number of commits that wrote.
    pub clock: u64,
}

/// Runs the body on so many threads over a memory of these bytes, each with its number, from 0, and a client, whose bodies
/// are tried as often as is said. Once all are joined, the bytes are what all commits have left. All memory is taken before
/// the first thread starts.
pub fn run<R: Threads + Sync, T: Send + Drop, F: Fn(usize, &mut Client) -> T + Sync>(
    rt: &R,
    alloc: Global,
    bytes: &mut [u8],
    threads: u8,
    tries: u64,
    body: &F,
) -> Result<Joined<T>, ThreadsFault>
    requires some { 0 < threads }
    requires few { threads ≤ MAX_THREADS }
    requires callable { F.IsAlwaysCallable body.now }

    // The body hands back a client over the same words.
    requires keeps { KeepsWords F.Fn body.now }
    ensures run { IfOk result (λ r. HaveRun F.Fn body.now threads tries bytes.old r.values.items r.clock bytes.new) }
    ensures still { OnErr result (bytes.new ≡ bytes.old) }
    ensures size { TellsWrongSize (length bytes.old) result }
{
    let (words, mut pass) = Words::new(alloc, bytes)?;
    let Ok(words) = Arc::new(alloc, words) else {
        return Err(ThreadsFault::Memory);
    };
    let values = serve_all(rt, alloc, &words, &mut pass, threads, tries, body)?;
    let clock = read_all(&*words, pass, bytes);
    Ok(Joined { values, clock })
}
