//! Commits: the clock is taken, the write set is stored in the order of first writing, and the clock is freed.

ghost use Rattle.norec_core.specs.Phases as phases;
ghost use Rattle.norec_core.specs.Aims as aims;
ghost use Rattle.std.specs.Prelude.{◌≡◌, ◌<◌, ◌≤◌, ◌+◌, ◌/◌, ℕ, false, true, None, Some, length, slice_get};
ghost use Rattle.word_pieces.specs.Masks.{whole};
ghost use Rattle.norec_core.specs.Core.{is_outermost};
ghost use Rattle.norec_turns.specs.InPhases.{IsSound};
ghost use Rattle.norec_turns.specs.Between.{between, moved, in_stores, left_by, storing, MayExchange, InStores};
ghost use Rattle.norec_data.specs.Turns.{Turns};
ghost use Rattle.norec_core.specs.Order.{exchange_stage, store_stage};
ghost use Rattle.norec_blocks.specs.CommitCalls.{asking_commit};
ghost use Rattle.norec_turns.specs.Moves.{GoesTo, StepGoesTo, StepTurns, CallTurns};

use crate::modes::go_irrevocable;
use itm_types::{Call, Refusal};
use norec_core::{Answer, Taking};
use norec_data::{CallEnd, Cause, Data, Pending, Turn, finish, roll_back};
use norec_turns::try_round;
use write_set::Row;

/// A commit comes.
#[inline(always)]
pub fn commit(state: &mut Data) -> Turn
    requires sound { IsSound state.old phases.Idle }
    ensures { CallTurns state.old Call.Commit false result state.new }
{
    state.start_call();
    state.tries = 0;
    if !state.is_open() {
        state.why = Refusal::Outside;
        return Turn::End(CallEnd::Refused);
    }
    if !state.is_outermost() {
        state.frames.leave();
        return Turn::End(CallEnd::Done);
    }
    if state.frames.len() == 0 {
        finish(state);
        Turn::End(CallEnd::ReadOnly)
    } else {
        exchange(state, Taking::Commit)
    }
}

/// The clock is to be taken, where fewer writers have committed than may.
#[inline(always)]
pub(crate) fn exchange(state: &mut Data, taking: Taking) -> Turn
    requires may { MayExchange state.old taking }
    ensures goes { GoesTo (between state.old (aims.Take taking)) (exchange_stage state.old.limits.max_commits state.old.snapshot taking)
        (Some (Answer.Full (state.old.snapshot / 2))) state.old result state.new }
    // whatever the snapshot was before a round moved it
    ensures proceeds { (was : ℕ) → Turns (moved (between state.old (aims.Take taking)) was) result state.new }
{
    let at = state.snapshot / 2;
    if at < state.limits.max_commits {
        ask_exchange(state, taking);
        Turn::Wait(Pending::Exchange)
    } else {
        roll_back(state);
        Turn::End(CallEnd::Full)
    }
}

/// Fewer have committed than may: the clock is to be taken.
#[inline(always)]
fn ask_exchange(state: &mut Data, taking: Taking)
    requires may { MayExchange state.old taking }
    requires free { state.old.snapshot / 2 < state.old.limits.max_commits }
    ensures goes { GoesTo (between state.old (aims.Take taking)) (exchange_stage state.old.limits.max_commits state.old.snapshot taking)
        (Some (Answer.Full (state.old.snapshot / 2))) state.old (Turn.Wait Pending.Exchange) state.new }
    // whatever the snapshot was before a round moved it
    ensures proceeds { (was : ℕ) → Turns (moved (between state.old (aims.Take taking)) was) (Turn.Wait Pending.Exchange) state.new }
    ensures same { state.new ≡ record state.old { taking = taking } }
{
    state.taking = taking;
}

/// A commit comes to a transaction that only read: it has committed.
#[inline(always)]
pub fn commit_reads(state: &mut Data)
    requires sound { IsSound state.old phases.Idle }
    requires outermost { is_outermost state.old.frames.blocks ≡ true }
    requires empty { length state.old.frames.writes.rows ≡ 0 }
    ensures turns { CallTurns state.old Call.Commit false (Turn.End CallEnd.ReadOnly) state.new }
{
    state.start_call();
    state.tries = 0;
    finish(state);
}

/// A commit comes to a transaction that wrote, and fewer have committed than may: the clock is to be taken.
#[inline(always)]
pub fn commit_writes(state: &mut Data)
    requires sound { IsSound state.old phases.Idle }
    requires outermost { is_outermost state.old.frames.blocks ≡ true }
    requires some { 0 < length state.old.frames.writes.rows }
    requires free { state.old.snapshot / 2 < state.old.limits.max_commits }
    ensures { state.new ≡ asking_commit state.old }
{
    state.start_call();
    state.tries = 0;
    ask_exchange(state, Taking::Commit);
}

/// The clock was taken, or another value was found in it.
#[inline(always)]
pub fn exchanged(state: &mut Data, seen: u64) -> Turn
    requires sound { IsSound state.old (phases.Exchange state.old.taking) }
    requires fits { state.old.clock ≤ seen }
    ensures { StepTurns state.old (phases.Exchange state.old.taking) seen result state.new }
{
    // where it is the snapshot, it is what the clock was
    if seen == state.snapshot {
        return next_store(state, 0);
    }
    state.clock = seen;
    try_round(state, Cause::Take)
}

/// The next row is stored, or the clock is freed.
#[inline(always)]
fn next_store(state: &mut Data, row: usize) -> Turn
    requires may { InStores state.old state.old.taking row }
    ensures { GoesTo (in_stores state.old state.old.taking row) (store_stage state.old.taking state.old.frames.writes.rows row) None (left_by result state.old) result state.new }
{
    if row < state.frames.len() {
        let written = state.frames.row(row);
        if written.mask == u64::MAX {
            ask_store(state, written, row);
            Turn::Wait(Pending::Store(row))
        } else {
            Turn::Wait(Pending::BackLoad(row))
        }
    } else {
        match state.taking {
            Taking::Commit => {
                end_stores(state, row);
                Turn::Wait(Pending::Free)
            }
            Taking::Mode { .. } => Turn::EndIrrevocable(go_irrevocable(state, None)),
            Taking::Begin { props, .. } => Turn::EndIrrevocable(go_irrevocable(state, Some(props))),
        }
    }
}

/// A row of a whole word is stored next.
#[inline(always)]
fn ask_store(state: &mut Data, written: Row, row: usize)
    requires may { InStores state.old state.old.taking row }
    requires within { row < length state.old.frames.writes.rows }
    requires written { slice_get state.old.frames.writes.rows row ≡ Some written }
    requires mask { written.mask ≡ whole }
    ensures goes { GoesTo (in_stores state.old state.old.taking row) (store_stage state.old.taking state.old.frames.writes.rows row) None state.old (Turn.Wait (Pending.Store row)) state.new }
    ensures same { state.new ≡ record state.old { got = None } }
{
    state.got = None;
}

/// The clock was taken, and then each row of a commit stored, so many of them after a load of the word that they have a part
/// of: the clock is freed next. All these steps are counted, with that one.
#[inline(always)]
pub fn ask_free(state: &mut Data, loads: usize)
    requires sound { IsSound state.old (phases.Exchange state.old.taking) }
    requires commit { state.old.taking ≡ Taking.Commit }
    requires few { loads ≤ length state.old.frames.writes.rows }
    ensures sound { IsSound state.new phases.Free }
    ensures state { state.new ≡ storing state.old state.old.got (length state.old.frames.writes.rows + loads + 1) }
{
    // (there are fewer steps in all than a count can tell)
    let _entry = state.entry;
    let rows = state.frames.len();
    state.spent += rows as u128 + loads as u128 + 1;
}

/// Each row of a commit is stored: the clock is freed next.
#[inline(always)]
fn end_stores(state: &mut Data, row: usize)
    requires may { InStores state.old state.old.taking row }
    requires last { row ≡ length state.old.frames.writes.rows }
    requires commit { state.old.taking ≡ Taking.Commit }
    ensures goes { GoesTo (in_stores state.old state.old.taking row) (store_stage state.old.taking state.old.frames.writes.rows row) None state.old (Turn.Wait Pending.Free) state.new }
    ensures same { state.new ≡ state.old }
{}

/// The word of a row was loaded, to be stored with the row's part of it.
pub fn back_loaded(state: &mut Data, row: usize, seen: u64) -> Turn
    requires sound { IsSound state.old (phases.BackLoad state.old.taking row) }
    ensures { StepGoesTo state.old (phases.BackLoad state.old.taking row) seen result state.new }
{
    state.got = Some(seen);
    Turn::Wait(Pending::Store(row))
}

/// A row was stored.
#[inline(always)]
pub fn stored(state: &mut Data, row: usize) -> Turn
    requires sound { IsSound state.old (phases.Store state.old.taking row state.old.got) }
    ensures { StepTurns state.old (phases.Store state.old.taking row state.old.got) 0 result state.new }
{
    // (what holds of all frames)
    let _rows = state.frames.len();
    next_store(state, row + 1)
}

/// The clock was freed.
#[inline(always)]
pub fn freed(state: &mut Data) -> Turn
    requires sound { IsSound state.old phases.Free }
    ensures goes { StepGoesTo state.old phases.Free 0 result state.new }
    ensures end { result ≡ Turn.End CallEnd.Committed }
{
    // (without proofs, this leaves out what ends a block within others)
    if !state.is_outermost() {
        unreachable!();
    }
    state.clock = state.snapshot + 2;
    finish(state);
    Turn::End(CallEnd::Committed)
}
