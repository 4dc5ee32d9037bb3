//! Outermost begins and commits on the fast path, as functions whose answers come in registers and not through memory: what
//! stands at each of a program's sites of them is a call and a test.

ghost use Rattle.std.specs.Prelude.{◌≡◌, ◌≢◌, ◌+◌, ◌^◌, ◌<◌, ◌≤◌, IfErr, IfOk, length};
ghost use Rattle.norec_core.specs.declared.answer.Next.TheVariants.{Step as Asks};
ghost use Rattle.norec_engine.specs.BlockSteps.{StoresRows, WritesBack, exchanging, next_step, storing};
ghost use Rattle.shared_words.specs.declared.view.View.{View};
ghost use Rattle.shared_words.specs.Passes.{Owns, cells_of, view_of};
ghost use Rattle.itm_runtime.specs.Blocks.{BeginsSo, CommitsSo, RowStored, RowsStored};
ghost use Rattle.call_rules.specs.Underway.{Finds};
ghost use Rattle.call_rules.specs.Drives.{Finishes, HasStepped};
ghost use Rattle.call_rules.specs.InCall.{InCall, IsDone};
ghost use Rattle.call_rules.specs.Served.{Start};
ghost use Rattle.call_rules.specs.Ties.{Stands};

use crate::drive::resume;
use itm_types::{Call, Props, Reply, Step};
use norec_core::Answer;
use norec_engine::Engine;
use shared_words::{Pass, Words};
use std::alloc::Allocator;

/// How far a begin went on the fast path.
#[derive(Clone, Copy)]
pub enum Begun {
    /// The block has begun.
    Entered,
    /// The clock was loaded, and is not even.
    Odd(u64),
    /// Nothing was done.
    Nothing,
}

/// How far a commit went on the fast path.
#[derive(Clone, Copy)]
pub enum Ended {
    /// The transaction has committed what it wrote, after so many others.
    Wrote(u64),
    /// It only read, and has committed after so many others.
    Read(u64),
    /// This was found in the clock, which was not the snapshot.
    Found(u64),
    /// Nothing was done.
    Nothing,
}

/// An outermost block begins that stays revocable, `again` where an earlier try of it got past its begin.
#[inline(never)]
pub(crate) fn begin_block<A: Allocator>(
    words: &Words<A>,
    pass: &mut Pass,
    engine: &mut Engine,
    props: Props,
    room: u32,
    again: bool,
) -> Begun
    requires own { Owns words.now pass.old }
    requires stands { Stands (view_of pass.old) engine.old }
    ensures { BeginsSo words.now pass.old engine.old (Call.Begin props room) again result pass.new engine.new }
{
    if !engine.begins_outer(props) {
        return Begun::Nothing;
    }
    let clock = words.step(pass, Step::Load(0));
    if clock % 2 != 0 {
        engine.begin_outer(props, room, again);
        return Begun::Odd(clock);
    }
    engine.begin_at_once(props, again, clock);
    Begun::Entered
}

/// A transaction commits. The engine is told of it at the end, or once the exchange has lost.
#[inline(never)]
pub(crate) fn commit_block<A: Allocator>(
    words: &Words<A>,
    pass: &mut Pass,
    engine: &mut Engine,
) -> Ended
    requires own { Owns words.now pass.old }
    requires stands { Stands (view_of pass.old) engine.old }
    ensures { CommitsSo words.now pass.old engine.old result pass.new engine.new }
{
    if engine.asks_for_clock() {
        return match write_back(words, pass, engine) {
            Ok(loads) => Ended::Wrote(engine.commit_at_once(loads)),
            Err(found) => {
                let _step = engine.commit_writes();
                Ended::Found(found)
            }
        };
    }
    match engine.commit_reads() {
        Some(at) => Ended::Read(at),
        None => Ended::Nothing,
    }
}

/// Takes the clock, stores the rows, and frees the clock. How many words were loaded for it; or what else was found in the clock.
#[inline(always)]
pub(crate) fn write_back<A: Allocator>(
    words: &Words<A>,
    pass: &mut Pass,
    engine: &Engine,
) -> Result<usize, u64>
    requires own { Owns words.now pass.old }
    requires back { WritesBack engine.now }
    requires due { (s : Start) × InCall s (view_of pass.old) (exchanging engine.now) (Step.Cas 0 engine.now.snapshot (engine.now.snapshot + 1)) }
    ensures stored { IfOk result (λ loads. RowsStored words.now (view_of pass.old) (exchanging engine.now) (Asks (Step.Cas 0 engine.now.snapshot (engine.now.snapshot + 1))) (exchanging engine.now) loads pass.new) }
    ensures found { IfErr result (λ n. Finds words.now (view_of pass.old) (exchanging engine.now) (Asks (Step.Cas 0 engine.now.snapshot (engine.now.snapshot + 1))) n pass.new (exchanging engine.now)) }
    ensures other { IfErr result (λ n. n ≢ engine.now.snapshot) }
{
    let snapshot = engine.snapshot();
    let rows = engine.rows();
    let found = words.step(pass, Step::Cas(0, snapshot, snapshot + 1));
    if found != snapshot {
        return Err(found);
    }
    Ok(store_rows(words, pass, engine, rows))
}

/// Stores the rows, and frees the clock. How many words were loaded for it.
#[inline(always)]
fn store_rows<A: Allocator>(
    words: &Words<A>,
    pass: &mut Pass,
    engine: &Engine,
    rows: usize,
) -> usize
    requires own { Owns words.now pass.old }
    requires back { WritesBack engine.now }
    requires stores { StoresRows (exchanging engine.now) }
    requires rows { rows ≡ length engine.now.writes }
    requires due { (s : Start) × InCall s (view_of pass.old) (storing (exchanging engine.now) 0 0) (next_step engine.now 0) }
    ensures { RowsStored words.now (view_of pass.old) (storing (exchanging engine.now) 0 0) (Asks (next_step engine.now 0)) (exchanging engine.now) result pass.new }
{
    let mut row = 0;
    let mut loads = 0;
    while row < rows {
        loads = store_row(words, pass, engine, row, loads);
        row += 1;
    }
    let _freed = words.step(pass, Step::Store(0, engine.freed_clock()));
    loads
}

/// Stores a row: after a load of the word, where it has a part of it. The number of such loads so far.
#[inline(always)]
fn store_row<A: Allocator>(
    words: &Words<A>,
    pass: &mut Pass,
    engine: &Engine,
    row: usize,
    loads: usize,
) -> usize
    requires own { Owns words.now pass.old }
    requires back { WritesBack engine.now }
    requires stores { StoresRows (exchanging engine.now) }
    requires within { row < length engine.now.writes }
    requires few { loads ≤ row }
    requires fits { row + 1 < 2 ^ 64 }
    requires due { (s : Start) × InCall s (view_of pass.old) (storing (exchanging engine.now) row loads) (next_step engine.now row) }
    ensures { RowStored words.now (view_of pass.old) (exchanging engine.now) row loads pass.new result }
{
    let (cell, whole) = engine.row_to_store(row);
    if let Some(value) = whole {
        let _stored = words.step(pass, Step::Store(cell, value));
        return loads;
    }
    let found = words.step(pass, Step::Load(cell));
    let value = engine.part_over(row, found);
    let _stored = words.step_over(pass, Step::Store(cell, value), Some(found));
    loads + 1
}

/// The steps that are left of a call, a step of which found this.
#[cold]
#[inline(never)]
pub(crate) fn go_on_from<A: Allocator>(
    words: &Words<A>,
    pass: &mut Pass,
    engine: &mut Engine,
    found: u64,
) -> Answer
    requires own { Owns words.now pass.old }
    requires done { (s : Start) × IsDone (cells_of words.now) s (view_of pass.old) engine.old found }
    ensures { (v : View) (step : Step) → HasStepped v step found (view_of pass.old) → Finishes words.now v engine.old (Asks step) result pass.new engine.new }
{
    let mut answer = Answer::Reply(Reply::Done);
    resume(words, pass, engine, found, &mut answer);
    answer
}
