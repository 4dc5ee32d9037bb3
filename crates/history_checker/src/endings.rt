//! What a history's end says, beside what its attempts told.

ghost use Rattle.std.specs.Prelude.{◌≡◌, ◌+◌, ◌*◌, ◌≤◌, ◌==◌, ◌&&◌, not, None, length, map};
ghost use Rattle.tx_history.specs.Legal.{is_unfinished, memory_at};
ghost use Rattle.history_checker.specs.Verdicts.{ends_free, ends_held, final_verdict, is_waiting, others_fault};
ghost use Rattle.history_checker.specs.Tables.{told_away, told_fault, told_holding, told_of};

use crate::replays::Told;
use crate::rows::head_row;
use crate::tables::{attempt_at, one_where};
use crate::verdict::{BadKind, Spot, Verdict};
use tx_attempts::{Attempt, Outcome};
use tx_history::History;

/// The first fault that is told.
pub(crate) fn told_fault(told: &[Told]) -> Option<Spot>
    ensures { result ≡ told_fault 0 told.now }
{
    for (i, one) in told.iter().enumerate() {
        if let Some(fault) = one.fault {
            return Some(Spot { attempt: i, fault });
        }
    }
    None
}

fn is_unfinished(outcome: Outcome) -> bool
    ensures { result ≡ is_unfinished outcome }
{
    matches!(outcome, Outcome::Unfinished)
}

/// An attempt that has not ended stands at the last position.
fn is_waiting(attempts: &[Attempt], count: usize) -> bool
    ensures { result ≡ is_waiting count attempts.now }
{
    for attempt in attempts {
        if is_unfinished(attempt.outcome) && attempt.at == count as u64 {
            return true;
        }
    }
    false
}

/// How many hold the clock.
fn holding(told: &[Told]) -> usize
    ensures { result ≡ told_holding told.now }
{
    let mut count = 0;
    for one in told {
        count += one_where(one.holds);
    }
    count
}

/// One that holds it stands elsewhere than at the last position.
fn told_away(attempts: &[Attempt], told: &[Told], count: usize) -> bool
    requires { length told.now ≡ length attempts.now }
    ensures { result ≡ told_away count attempts.now told.now }
{
    for (i, one) in told.iter().enumerate() {
        if is_away(attempt_at(attempts, i), one, count) {
            return true;
        }
    }
    false
}

fn is_away(attempt: &Attempt, told: &Told, count: usize) -> bool
    ensures { result ≡ (told.now.holds && not (attempt.now.at == count)) }
{
    told.holds && attempt.at != count as u64
}

/// No sum wraps.
fn is_twice(clock: u64, count: usize) -> bool
    ensures { result ≡ (clock == 2 * count) }
{
    clock % 2 == 0 && clock / 2 == count as u64
}

/// No sum wraps.
fn is_twice_and_one(clock: u64, count: usize) -> bool
    ensures { result ≡ (clock == 2 * count + 1) }
{
    clock % 2 == 1 && clock / 2 == count as u64
}

fn both(a: bool, b: bool) -> bool
    ensures { result ≡ (a && b) }
{
    a && b
}

/// No thread holds the clock, and the bytes are those that the committed attempts leave.
fn ends_free(history: &History, count: usize, told: &[Told], base: &[u8]) -> bool
    requires told { told.now ≡ map (told_of history.now) history.now.attempts }
    requires none { others_fault history.now 0 history.now.attempts ≡ None }
    requires base { base.now ≡ memory_at history.now count }
    ensures { result ≡ ends_free history.now count }
{
    let same = history.bytes.as_slice() == base;
    let free = holding(told) == 0;
    both(is_twice(history.clock, count), both(same, free))
}

/// An attempt at the last position holds the clock, and no other.
fn ends_held(history: &History, count: usize, told: &[Told]) -> bool
    requires told { told.now ≡ map (told_of history.now) history.now.attempts }
    requires none { others_fault history.now 0 history.now.attempts ≡ None }
    ensures { result ≡ ends_held history.now count }
{
    let attempts = history.attempts.as_slice();
    let odd = is_twice_and_one(history.clock, count);
    let long = history.bytes.as_slice().len() == history.memory.as_slice().len();
    let waiting = is_waiting(attempts, count);
    let one = holding(told) <= 1;
    let there = !told_away(attempts, told, count);
    both(odd, both(long, both(waiting, both(one, there))))
}

/// What is told of a history none of whose attempts has a fault.
pub(crate) fn final_verdict(history: &History, count: usize, told: &[Told], base: &[u8]) -> Verdict
    requires told { told.now ≡ map (told_of history.now) history.now.attempts }
    requires none { others_fault history.now 0 history.now.attempts ≡ None }
    requires base { base.now ≡ memory_at history.now count }
    ensures { result ≡ final_verdict history.now count }
{
    if ends_free(history, count, told, base) || ends_held(history, count, told) {
        return Verdict::Legal;
    }
    let attempts = history.attempts.as_slice();
    Verdict::Bad {
        row: head_row(history.version, attempts, attempts.len()),
        kind: BadKind::Final,
    }
}
