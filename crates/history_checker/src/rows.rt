//! Which lines of a history's text faults are at.

ghost use Rattle.std.specs.Prelude.{◌≡◌, ◌+◌, suc, sum_by, slice_get};
ghost use Rattle.tx_attempts.specs.Restarts.{before};
ghost use Rattle.history_checker.specs.Verdicts.{again_count, bad, first_row, head_row, line_count, restarts_of, row_in, told_row};

use crate::verdict::{Spot, Verdict};
use tx_attempts::{Again, Attempt};
use tx_history::Version;

/// The head line of an attempt; past the last one, the final line. Lines are told up to the largest number.
pub(crate) fn head_row(version: Version, attempts: &[Attempt], place: usize) -> u64
    ensures { result ≡ told_row (head_row version attempts.now place) }
{
    let mut row = first_row(version);
    for (i, attempt) in attempts.iter().enumerate() {
        if i == place {
            return row;
        }
        row = after(row, attempt);
    }
    row
}

/// The line of the first head.
fn first_row(version: Version) -> u64
    ensures { result ≡ first_row version }
{
    match version {
        Version::One | Version::Two => 3,
        Version::Three(_) => 4,
    }
}

/// The line past an attempt at this line.
fn after(row: u64, attempt: &Attempt) -> u64
    ensures { result ≡ told_row (row + line_count attempt.now) }
{
    let called = row
        .saturating_add(3)
        .saturating_add(attempt.calls.as_slice().len() as u64);
    after_all(called, attempt.restarts.as_slice()).saturating_add(
        attempt.ran.as_slice().len() as u64,
    )
}

/// The line past those of a block that ran again.
fn after_one(row: u64, again: &Again) -> u64
    ensures { result ≡ told_row (row + again_count again.now) }
{
    row.saturating_add(1)
        .saturating_add(again.undone.as_slice().len() as u64)
}

/// The line past those of blocks that ran again.
fn after_all(from: u64, restarts: &[Again]) -> u64
    ensures { result ≡ told_row (from + sum_by again_count restarts.now) }
{
    let mut row = from;
    for again in restarts {
        row = after_one(row, again);
    }
    row
}

/// The line past those of the blocks that ran again before the call at a place.
fn after_earlier(from: u64, restarts: &[Again], place: usize) -> u64
    ensures { result ≡ told_row (from + sum_by again_count (before (suc place) restarts.now)) }
{
    let mut row = from;
    for again in restarts {
        if again.kept <= place {
            row = after_one(row, again);
        }
    }
    row
}

/// The blocks that ran again in the attempt at a place; past the last one there is none.
fn restarts_at(attempts: &[Attempt], place: usize) -> &[Again]
    ensures { result.now ≡ restarts_of (slice_get attempts.now place) }
{
    if place < attempts.len() {
        attempts[place].restarts.as_slice()
    } else {
        &[]
    }
}

/// The line of a fault in an attempt at this line, within which these blocks ran again.
fn row_in(head: u64, restarts: &[Again], call: Option<usize>) -> u64
    ensures { result ≡ told_row (row_in head restarts.now call) }
{
    match call {
        None => head,
        Some(call) => {
            let row = head.saturating_add(2).saturating_add(call as u64);
            after_earlier(row, restarts, call)
        }
    }
}

/// What is told of a fault.
pub(crate) fn bad(version: Version, attempts: &[Attempt], spot: Spot) -> Verdict
    ensures { result ≡ bad version attempts.now spot }
{
    let head = head_row(version, attempts, spot.attempt);
    let restarts = restarts_at(attempts, spot.attempt);
    Verdict::Bad {
        row: row_in(head, restarts, spot.fault.call),
        kind: spot.fault.kind,
    }
}
