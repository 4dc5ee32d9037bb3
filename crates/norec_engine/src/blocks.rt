//! Outermost begins and commits on the fast path, of a block that stays revocable.
//!
//! Who calls these functions does the atomic steps of a call himself, and knows which they are. No function makes an answer; where a
//! step leads to anything else, nothing is changed, and the function tells so. The engine is told of a commit at the end, where its
//! first exchange takes the clock: an atomic step waits for the stores before it.

ghost use Rattle.std.specs.Prelude.{◌≡◌, ◌+◌, ◌/◌, ◌%◌, ◌<◌, ◌≤◌, ℕ, IfNone, IfSome, None, Some, length, true, false, if◌then◌else◌};
ghost use Rattle.norec_core.specs.Moves.{IsCalled, IsResumed};
ghost use Rattle.norec_core.specs.declared.answer.Next.TheVariants.{Step as Asks, Answer as Answers};
ghost use Rattle.norec_core.specs.Rows.{value_into, write_at};
ghost use Rattle.norec_engine.specs.BlockSteps.{AsksForClock, IsBegun, IsWhole, StoresRows, WaitsForClock, WritesBack, begins_outer, exchanging, next_step, storing};

use crate::engine::Engine;
use crate::turns::wait;
use itm_types::{Call, ENTERED, ENTERED_AGAIN, Props, Step};
use norec_blocks::{ask_free, begin_at_once, begin_outer, commit_reads, commit_writes, freed};
use norec_core::Answer;
use norec_data::Pending;
use word_pieces::merge;

/// The code of a block that has begun, `again` where it was begun before.
#[inline(always)]
pub fn entered(again: bool) -> u32
    ensures { result ≡ if again then 9 else 5 }
{
    if again { ENTERED_AGAIN } else { ENTERED }
}

impl Engine {
    /// Whether a begin with these properties is one of an outermost block that stays revocable.
    #[inline(always)]
    pub fn begins_outer(&self, props: Props) -> bool
        ensures { result ≡ begins_outer self.now props }
    {
        // (an irrevocable transaction is open)
        if props.goes_irrevocable || self.state.is_open() {
            return false;
        }
        true
    }

    /// `begin_into` of such a begin: the clock is to be loaded.
    #[inline(always)]
    pub fn begin_outer(&mut self, props: Props, room: u32, again: bool)
        requires idle { self.old.waits ≡ None }
        requires outer { begins_outer self.old props ≡ true }
        ensures { IsCalled self.old (Call.Begin props room) again (Asks (Step.Load 0)) self.new }
    {
        begin_outer(&mut self.state, props, room, again);
        let _step = wait(&mut self.state, &mut self.pending, false, Pending::Begin);
    }

    /// The same, and `resume_into` with the clock, which is known already and even: the block begins. `entered` is the code that
    /// tells so.
    #[inline(always)]
    pub fn begin_at_once(&mut self, props: Props, again: bool, clock: u64)
        requires idle { self.old.waits ≡ None }
        requires outer { begins_outer self.old props ≡ true }
        requires fits { self.old.clock ≤ clock }
        requires even { clock % 2 ≡ 0 }
        ensures { (room : ℕ) → IsBegun self.old props room again clock (if again then 9 else 5) self.new }
    {
        let _end = begin_at_once(&mut self.state, props, again, clock);
    }

    /// `call_into` of a commit of a revocable transaction that only read: it has committed. The number of commits before it.
    #[inline(always)]
    pub fn commit_reads(&mut self) -> Option<u64>
        requires idle { self.old.waits ≡ None }
        ensures none { IfNone result (self.new ≡ self.old) }
        ensures called { IfSome result (λ at. IsCalled self.old Call.Commit false (Answers (Answer.Committed at false)) self.new) }
    {
        if self.irrevocable || !self.state.is_outermost() || self.state.frames.len() > 0 {
            return None;
        }
        commit_reads(&mut self.state);
        Some(self.state.snapshot / 2)
    }

    /// Whether a commit that comes now asks for the clock: the transaction is revocable, one block is open, something is written, and
    /// fewer have committed than may.
    #[inline(always)]
    pub fn asks_for_clock(&self) -> bool
        requires idle { self.now.waits ≡ None }
        ensures takes { (result ≡ true → AsksForClock self.now) × (AsksForClock self.now → result ≡ true) }
        ensures called { AsksForClock self.now → IsCalled self.now Call.Commit false (Asks (Step.Cas 0 self.now.snapshot (self.now.snapshot + 1))) (exchanging self.now) }
    {
        if self.irrevocable
            || !self.state.is_outermost()
            || self.state.frames.len() == 0
            || self.state.snapshot / 2 >= self.state.limits.max_commits
        {
            return false;
        }
        true
    }

    /// `call_into` of such a commit: the clock is to be taken.
    #[inline(always)]
    pub fn commit_writes(&mut self) -> Step
        requires takes { AsksForClock self.old }
        ensures state { self.new ≡ exchanging self.old }
        ensures step { result ≡ Step.Cas 0 self.old.snapshot (self.old.snapshot + 1) }
    {
        commit_writes(&mut self.state);
        wait(&mut self.state, &mut self.pending, false, Pending::Exchange)
    }

    /// The cell of a row, and the value that is stored there, where the row is one of a whole word.
    #[inline(always)]
    pub fn row_to_store(&self, row: usize) -> (u32, Option<u64>)
        requires back { WritesBack self.now }
        requires within { row < length self.now.writes }
        ensures cell { result.0 ≡ (write_at self.now.writes row).word + 1 }
        ensures whole { IfSome result.1 (λ value. IsWhole self.now row × (next_step self.now row ≡ Step.Store result.0 value)) }
        ensures part { IfNone result.1 ((¬ IsWhole self.now row) × (next_step self.now row ≡ Step.Load result.0)) }
    {
        let written = self.state.frames.row(row);
        let cell = written.word + 1;
        if written.mask == u64::MAX {
            (cell, Some(written.value))
        } else {
            (cell, None)
        }
    }

    /// The value that is stored of a row that has a part of its word, into what was found there.
    #[inline(always)]
    pub fn part_over(&self, row: usize, found: u64) -> u64
        requires back { WritesBack self.now }
        requires within { row < length self.now.writes }
        ensures { result ≡ value_into (write_at self.now.writes row) (Some found) }
    {
        let written = self.state.frames.row(row);
        merge(found, written.mask, written.value)
    }

    /// What the clock is freed with, once the rows are stored.
    #[inline(always)]
    pub fn freed_clock(&self) -> u64
        requires back { WritesBack self.now }
        ensures { next_step self.now (length self.now.writes) ≡ Step.Store 0 result }
    {
        self.state.snapshot + 2
    }

    /// `resume_into` with all that was found as the clock was taken, then the rows stored, with so many loads, and the clock freed: the
    /// transaction has committed. The number of commits before it.
    #[inline(always)]
    pub fn rows_stored(&mut self, loads: usize) -> u64
        requires takes { WaitsForClock self.old }
        requires few { loads ≤ length self.old.writes }
        ensures { (seen : ℕ) → IsResumed (storing self.old (length self.old.writes) loads) seen (Answers (Answer.Committed result true)) self.new }
    {
        ask_free(&mut self.state, loads);
        self.pending = Pending::Idle;
        let _turn = freed(&mut self.state);
        self.state.snapshot / 2
    }

    /// The same of a commit that comes now.
    #[inline(always)]
    pub fn commit_at_once(&mut self, loads: usize) -> u64
        requires takes { AsksForClock self.old }
        requires few { loads ≤ length self.old.writes }
        ensures { (seen : ℕ) → IsResumed (storing (exchanging self.old) (length self.old.writes) loads) seen (Answers (Answer.Committed result true)) self.new }
    {
        let _step = self.commit_writes();
        self.rows_stored(loads)
    }

    /// The number of rows that are written. The clause tells how they are stored.
    #[inline(always)]
    pub fn rows(&self) -> usize
        requires back { WritesBack self.now }
        ensures count { result ≡ length self.now.writes }
        ensures stores { StoresRows (exchanging self.now) }
    {
        self.state.frames.len()
    }
}
