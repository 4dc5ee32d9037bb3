//! What the threads do, side by side, and what is left once all have ended.

ghost use Rattle.std.specs.Prelude.{◌≡◌, ◌<◌, ◌≤◌, false, length, IfOk, IsSome, Some};
ghost use Rattle.shared_words.specs.Passes.{IsFirst, Owns, view_of};
ghost use Rattle.shared_words.specs.Steps.{Joined};
ghost use Rattle.tx_threads.specs.Seats.{AllNew};
ghost use Rattle.tx_threads.specs.Threads.{AllHaveRun, AreServed, HasServed, KeepsWords};

use crate::running::MAX_THREADS;
use crate::seats::{Seat, seats_for};
use shared_words::{Pass, Words};
use std::alloc::{AllocError, Global};
use std::sync::Arc;
use std::thread::{Threads, for_each_mut};
use transactions::Client;

/// Runs the body as the thread of this number.
fn serve<T: Drop, F: Fn(usize, &mut Client) -> T>(number: usize, seat: &mut Seat<T>, body: &F)
    requires callable { F.IsAlwaysCallable body.now }
    ensures { HasServed F.Fn body.now number seat.old seat.new }
{
    let value = body(number, &mut seat.client);
    seat.value = Some(value);
}

/// Runs the body in a thread for each seat.
fn serve_each<R: Threads + Sync, T: Send + Drop, F: Fn(usize, &mut Client) -> T + Sync>(
    rt: &R,
    seats: &mut [Seat<T>],
    body: &F,
)
    requires some { 0 < length seats.old }
    requires callable { F.IsAlwaysCallable body.now }
    requires keeps { KeepsWords F.Fn body.now }
    ensures { (words : _) (base : _) (tries : _) → AllNew words base tries seats.old → AreServed F.Fn body.now words base tries 0 seats.new }
{
    let threads = seats.len();
    for_each_mut(
        rt,
        seats,
        threads,
        &|number: usize, seat: &mut Seat<T>|
            requires { F.IsAlwaysCallable body.now }
            ensures { HasServed F.Fn body.entry.now number seat.entry.now seat.exit.now }
        { serve(number, seat, body) },
    );
}

/// Joins the pass of a thread that has ended to this one, and gives what its body gave.
fn take_in<T: Drop>(words: &Words, pass: &mut Pass, seat: Seat<T>) -> T
    requires own { Owns words.now pass.old }
    requires here { seat.client.transaction.words ≡ words.now }
    requires given { IsSome seat.value }
    ensures own { Owns words.now pass.new }
    ensures value { seat.value ≡ Some result }
    ensures joined { Joined (view_of pass.old) (view_of seat.client.transaction.thread.pass) (view_of pass.new) }
    ensures share { (view_of pass.old).share < (view_of pass.new).share }
{
    let Seat { client, value } = seat;
    let (_, thread) = client.into_parts();
    // told for its clause alone: a thread outside a transaction does not hold the clock
    let _ = thread.clock();
    let Ok((theirs, _)) = thread.into_parts() else {
        unreachable!()
    };
    words.join(pass, theirs);
    let Some(value) = value else { unreachable!() };
    value
}

/// Runs the body on so many threads, each with a client, and joins their passes to this one. Gives what the bodies gave, in
/// the order of the threads. Takes all memory first.
pub(crate) fn serve_all<R: Threads + Sync, T: Send + Drop, F: Fn(usize, &mut Client) -> T + Sync>(
    rt: &R,
    alloc: Global,
    words: &Arc<Words>,
    pass: &mut Pass,
    threads: u8,
    tries: u64,
    body: &F,
) -> Result<Vec<T>, AllocError>
    requires first { IsFirst words.now.value pass.old }
    requires some { 0 < threads }
    requires few { threads ≤ MAX_THREADS }
    requires callable { F.IsAlwaysCallable body.now }
    requires keeps { KeepsWords F.Fn body.now }
    ensures own { IfOk result (λ _. Owns words.now.value pass.new) }
    ensures idle { IfOk result (λ _. (view_of pass.new).holds ≡ false) }
    ensures whole { IfOk result (λ _. 128 ≤ (view_of pass.new).share) }
    ensures base { IfOk result (λ _. (view_of pass.new).base ≡ (view_of pass.old).base) }
    ensures run { IfOk result (λ values. AllHaveRun F.Fn body.now words.now.value (view_of pass.old).base tries threads values.items (view_of pass.new)) }
{
    let mut values = Vec::with_capacity(alloc, usize::from(threads))?;
    let mut seats = seats_for(alloc, words, pass, threads, tries)?;
    serve_each(rt, seats.as_mut_slice(), body);
    for seat in seats {
        let value = take_in(&**words, pass, seat);
        values.push_reserved(value);
    }
    Ok(values)
}
