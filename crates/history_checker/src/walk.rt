//! All attempts replayed, each on the memory that it saw.

ghost use Rattle.std.specs.Prelude.{◌≡◌, ◌≤◌, ◌<◌, suc, All, IfOk, OnOk, None, length, slice_set};
ghost use Rattle.tx_attempts.specs.Counts.{count_committed};
ghost use Rattle.tx_history.specs.Legal.{memory_at};
ghost use Rattle.tx_history.specs.Versions.{depth_of};
ghost use Rattle.history_checker.specs.Verdicts.{committed_fault, fault_at, CanReplay};
ghost use Rattle.history_checker.specs.Answers.{Reaches};
ghost use Rattle.history_checker.specs.Tables.{AreLinks, AreSlots, AreTold, IsRest, first_at};

use crate::replays::{Told, replay_committed, replay_other};
use crate::tables::{Links, attempt_at, lookup};
use crate::verdict::{Spot, at_place};
use itm_model::Plain;
use itm_types::{MAX_ARENA, Props};
use std::alloc::{AllocError, Global};
use tx_history::History;

/// The plain machine at a position.
#[derive(Debug, Drop)]
struct Walk {
    plain: Plain,
    /// A copy of its memory.
    base: Vec<u8>,
    /// What the attempts that are not committed told.
    told: Vec<Told>,
}

/// What the replays told.
#[derive(Debug, Drop)]
pub(crate) struct Walked {
    /// The first fault of a committed attempt, by position.
    pub(crate) fault: Option<Spot>,
    /// What each other attempt told.
    pub(crate) told: Vec<Told>,
    /// The memory at the end.
    pub(crate) base: Vec<u8>,
}

/// Replays the attempts that are not committed and saw so many commits, the last one first.
fn walk_others(
    alloc: Global,
    walk: &mut Walk,
    history: &History,
    links: &Links,
    position: usize,
) -> Result<(), AllocError>
    requires arenas { All (λ a. length a.arena ≤ MAX_ARENA) history.now.attempts }
    requires links { AreLinks (count_committed history.now.attempts) history.now.attempts (length history.now.attempts) links.now.newest.items links.now.older.items }
    requires position { position ≤ count_committed history.now.attempts }
    requires rest { IsRest history.now position walk.old.plain walk.old.base.items }
    requires told { AreTold history.now position (length history.now.attempts) walk.old.told.items }
    ensures rest { OnOk result (IsRest history.now position walk.new.plain walk.new.base.items) }
    ensures told { OnOk result (AreTold history.now (suc position) (length history.now.attempts) walk.new.told.items) }
{
    let attempts = history.attempts.as_slice();
    let mut next = lookup(&links.newest, position);
    while let Some(i) = next {
        let attempt = attempt_at(attempts, i);
        let told = replay_other(alloc, &mut walk.plain, &walk.base, attempt)?;
        put(&mut walk.told, i, told);
        next = lookup(&links.older, i);
    }
    Ok(())
}

/// Replays the attempt that is committed at a position, if there is one, and keeps what it wrote.
fn walk_committed(
    alloc: Global,
    walk: &mut Walk,
    history: &History,
    position: usize,
    slot: Option<usize>,
) -> Result<Option<Spot>, AllocError>
    requires arenas { All (λ a. length a.arena ≤ MAX_ARENA) history.now.attempts }
    requires slot { slot ≡ first_at 0 history.now.attempts position }
    requires rest { IsRest history.now position walk.old.plain walk.old.base.items }
    ensures fault { IfOk result (λ f. f ≡ fault_at (depth_of history.now.version) (memory_at history.now position) position 0 history.now.attempts) }
    ensures rest { IfOk result (λ f. f ≡ None
        → IsRest history.now (suc position) walk.new.plain walk.new.base.items) }
    ensures told { OnOk result (walk.new.told ≡ walk.old.told) }
{
    let Some(i) = slot else {
        return Ok(None);
    };
    let attempt = attempt_at(history.attempts.as_slice(), i);
    let fault = replay_committed(alloc, &mut walk.plain, &mut walk.base, attempt)?;
    Ok(at_place(i, fault))
}

/// Replays all attempts, up to the first fault of a committed one.
pub(crate) fn walk_all(
    alloc: Global,
    history: &History,
    slots: &[Option<usize>],
    links: &Links,
) -> Result<Walked, AllocError>
    requires replays { CanReplay history.now }
    requires slots { AreSlots (count_committed history.now.attempts) history.now.attempts slots.now }
    requires links { AreLinks (count_committed history.now.attempts) history.now.attempts (length history.now.attempts) links.now.newest.items links.now.older.items }
    ensures fault { IfOk result (λ w. w.fault ≡ committed_fault history.now (count_committed history.now.attempts)) }
    ensures told { IfOk result (λ w. w.fault ≡ None
        → AreTold history.now (suc (count_committed history.now.attempts)) (length history.now.attempts) w.told.items) }
    ensures base { IfOk result (λ w. w.fault ≡ None
        → w.base.items ≡ memory_at history.now (count_committed history.now.attempts)) }
{
    let mut walk = start(alloc, history)?;
    for position in 0..slots.len() {
        walk_others(alloc, &mut walk, history, links, position)?;
        let fault = walk_committed(alloc, &mut walk, history, position, lookup(slots, position))?;
        if fault.is_some() {
            return Ok(ended(walk, fault));
        }
    }
    walk_others(alloc, &mut walk, history, links, slots.len())?;
    Ok(ended(walk, None))
}

/// The machine of a walk.
fn plain_of(walk: Walk) -> Plain
    ensures { result ≡ walk.plain }
{
    let Walk {
        plain,
        base: _,
        told: _,
    } = walk;
    plain
}

/// The plain machine on the memory that so many commits leave; none, where there are fewer, or one of these is wrong.
pub(crate) fn reach(
    alloc: Global,
    history: &History,
    slots: &[Option<usize>],
    at: u64,
) -> Result<Option<Plain>, AllocError>
    requires replays { CanReplay history.now }
    requires slots { AreSlots (count_committed history.now.attempts) history.now.attempts slots.now }
    ensures { IfOk result (λ reached. Reaches history.now at reached) }
{
    if at > slots.len() as u64 {
        return Ok(None);
    }
    let mut walk = start(alloc, history)?;
    for position in 0..at as usize {
        let slot = lookup(slots, position);
        let wrong = walk_committed(alloc, &mut walk, history, position, slot)?;
        if wrong.is_some() {
            return Ok(None);
        }
    }
    Ok(Some(plain_of(walk)))
}

/// What an attempt told is kept.
fn put(told: &mut Vec<Told>, i: usize, new: Told)
    requires { i < length told.old.items }
    ensures { told.new.items ≡ slice_set told.old.items i new }
{
    told[i] = new;
}

/// The machine before the first commit, with nothing told.
fn start(alloc: Global, history: &History) -> Result<Walk, AllocError>
    requires { CanReplay history.now }
    ensures rest { IfOk result (λ w. IsRest history.now 0 w.plain w.base.items) }
    ensures told { IfOk result (λ w. AreTold history.now 0 (length history.now.attempts) w.told.items) }
{
    let memory = history.memory.as_slice();
    let deepest = history.version.depth();
    let plain = Plain::new(alloc, memory, &[], deepest, Props::default())?;
    let base = memory.to_vec(alloc)?;
    let mut told = Vec::new(alloc);
    let nothing = Told {
        fault: None,
        holds: false,
    };
    told.resize(history.attempts.as_slice().len(), nothing)?;
    Ok(Walk { plain, base, told })
}

/// What is left of the machine.
fn ended(walk: Walk, fault: Option<Spot>) -> Walked
    ensures fault { result.fault ≡ fault }
    ensures told { result.told ≡ walk.told }
    ensures base { result.base ≡ walk.base }
{
    let Walk {
        plain: _,
        base,
        told,
    } = walk;
    Walked { fault, told, base }
}
