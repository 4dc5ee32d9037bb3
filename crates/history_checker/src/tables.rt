//! Where positions and snapshots are found among attempts.

ghost use Rattle.std.specs.Prelude.{◌≡◌, ◌<◌, ◌≤◌, ◌||◌, [], nat_le, is_some, None, IfOk, length, slice_set};
ghost use Rattle.std.proofs.Common.{get_or};
ghost use Rattle.tx_attempts.specs.Attempts.{is_committed};
ghost use Rattle.tx_attempts.specs.Counts.{count_committed, one_where};
ghost use Rattle.history_checker.specs.Verdicts.{at_fault, is_beyond, position_fault};
ghost use Rattle.history_checker.specs.Tables.{AreLinks, AreSlots};

use crate::replays::head;
use crate::verdict::{BadKind, Spot};
use std::alloc::{AllocError, Global};
use tx_attempts::{Attempt, Outcome};

/// Where the attempts committed at the positions are.
#[derive(Debug, Drop)]
pub(crate) struct Placed {
    /// For each position where its attempt is among all.
    pub(crate) slots: Vec<Option<usize>>,
    /// The first one that is committed at a position that there is not, or that is taken.
    pub(crate) fault: Option<Spot>,
}

/// The attempts that are not committed, by how many commits they saw.
#[derive(Debug, Drop)]
pub(crate) struct Links {
    /// For each number of commits the last one that saw so many.
    pub(crate) newest: Vec<Option<usize>>,
    /// For each attempt the one before it that saw as many.
    pub(crate) older: Vec<Option<usize>>,
}

/// The attempt at a place.
pub(crate) fn attempt_at(attempts: &[Attempt], i: usize) -> &Attempt
    requires { i < length attempts.now }
    ensures { result.now ≡ get_or attempts.now i result.now }
{
    &attempts[i]
}

/// What stands at a place of a table.
pub(crate) fn lookup(table: &[Option<usize>], at: usize) -> Option<usize>
    requires { at < length table.now }
    ensures { result ≡ get_or table.now at None }
{
    table[at]
}

/// It wrote, and holds a position.
pub(crate) fn is_committed(outcome: Outcome) -> bool
    ensures { result ≡ is_committed outcome }
{
    matches!(outcome, Outcome::Committed)
}

/// One where it is so.
pub(crate) fn one_where(yes: bool) -> usize
    ensures value { result ≡ one_where yes }
    ensures most { result ≤ 1 }
{
    if yes { 1 } else { 0 }
}

/// How many committed.
pub(crate) fn count(attempts: &[Attempt]) -> usize
    ensures value { result ≡ count_committed attempts.now }
    ensures few { result ≤ length attempts.now }
{
    let mut count = 0;
    for attempt in attempts {
        count += one_where(is_committed(attempt.outcome));
    }
    count
}

/// A position is none, or has an attempt.
fn is_taken(slots: &[Option<usize>], at: u64) -> bool
    ensures { result ≡ (nat_le (length slots.now) at || is_some (get_or slots.now at None)) }
{
    let at = at as usize;
    at >= slots.len() || slots[at].is_some()
}

/// Puts the number of an attempt at a place, and gives what stood there.
fn exchange(table: &mut Vec<Option<usize>>, at: u64, i: usize) -> Option<usize>
    requires { at < length table.old.items }
    ensures old { result ≡ get_or table.old.items at None }
    ensures new { table.new.items ≡ slice_set table.old.items at (Some i) }
{
    let at = at as usize;
    let old = table[at];
    table[at] = Some(i);
    old
}

/// Finds the attempt of each position, up to the first one that has none to hold.
pub(crate) fn place(alloc: Global, attempts: &[Attempt], count: usize) -> Result<Placed, AllocError>
    ensures fault { IfOk result (λ p. p.fault ≡ position_fault count [] attempts.now) }
    ensures slots { IfOk result (λ p. p.fault ≡ None → AreSlots count attempts.now p.slots.items) }
{
    let mut slots = Vec::new(alloc);
    slots.resize(count, None)?;
    for (i, attempt) in attempts.iter().enumerate() {
        if is_committed(attempt.outcome) {
            if is_taken(&slots, attempt.at) {
                let fault = Some(Spot {
                    attempt: i,
                    fault: head(BadKind::Position),
                });
                return Ok(Placed { slots, fault });
            }
            let _ = exchange(&mut slots, attempt.at, i);
        }
    }
    Ok(Placed { slots, fault: None })
}

/// The first attempt that is not committed and saw more commits than there are.
pub(crate) fn beyond(attempts: &[Attempt], count: usize) -> Option<Spot>
    ensures { result ≡ at_fault count 0 attempts.now }
{
    for (i, attempt) in attempts.iter().enumerate() {
        if is_beyond(attempt, count) {
            return Some(Spot {
                attempt: i,
                fault: head(BadKind::At),
            });
        }
    }
    None
}

/// It is not committed, and saw more commits than there are.
fn is_beyond(attempt: &Attempt, count: usize) -> bool
    ensures { result ≡ is_beyond count attempt.now }
{
    !is_committed(attempt.outcome) && attempt.at > count as u64
}

/// Links the attempts that are not committed and saw as many commits.
pub(crate) fn link(alloc: Global, attempts: &[Attempt], count: usize) -> Result<Links, AllocError>
    requires count { count ≤ length attempts.now }
    requires seen { at_fault count 0 attempts.now ≡ None }
    ensures { IfOk result (λ l. AreLinks count attempts.now (length attempts.now) l.newest.items l.older.items) }
{
    let mut newest = Vec::new(alloc);
    newest.resize(count + 1, None)?;
    let mut older = Vec::new(alloc);
    older.reserve(attempts.len())?;
    for (i, attempt) in attempts.iter().enumerate() {
        if is_committed(attempt.outcome) {
            older.push_reserved(None);
        } else {
            older.push_reserved(exchange(&mut newest, attempt.at, i));
        }
    }
    Ok(Links { newest, older })
}
