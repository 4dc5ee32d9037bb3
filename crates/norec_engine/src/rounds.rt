//! Validation rounds on the fast path, and a commit that waits for the clock.
//!
//! `resume_into` dispatches over all phases. Who asks first which step of a round is waited for hands its value in by that
//! phase's own function. (A test before the step alone would not do: across an atomic step compilers forget what it found.)

ghost use Rattle.std.specs.Prelude.{◌≡◌, ℕ, IfNone, IfSome, true};
ghost use Rattle.norec_core.specs.Moves.{IsResumed};
ghost use Rattle.norec_core.specs.Phases.{RoundEnd, RoundRow, RoundStart};
ghost use Rattle.norec_core.specs.Proceeds.{Fits};
ghost use Rattle.norec_engine.specs.BlockSteps.{WaitsForClock};
ghost use Rattle.norec_engine.specs.NextSteps.{next_in};
ghost use Rattle.norec_engine.specs.Rounds.{Validates};

use crate::engine::Engine;
use crate::turns::{resume, take};
use itm_types::Step;
use norec_core::{Answer, Taking};
use norec_data::Pending;

impl Engine {
    /// Whether a revocable transaction waits for the clock at the start of a round.
    #[inline(always)]
    pub fn starts_round(&self) -> bool
        ensures { (result ≡ true → Validates self.now RoundStart 0) × (Validates self.now RoundStart 0 → result ≡ true) }
    {
        match self.pending {
            Pending::RoundStart => true,
            _ => false,
        }
    }

    /// `resume_into` with the clock at the start of a round.
    #[inline(always)]
    pub fn round_started(&mut self, seen: u64, answer: &mut Answer) -> Option<Step>
        requires starts { Validates self.old RoundStart 0 }
        requires fits { Fits self.old seen }
        ensures { IsResumed self.old seen (next_in result answer.new) self.new }
    {
        let turn = resume(&mut self.state, false, Pending::RoundStart, seen);
        take(
            &mut self.state,
            &mut self.pending,
            &mut self.irrevocable,
            false,
            turn,
            answer,
        )
    }

    /// The cell of the logged word that a round of a revocable transaction waits for, where it waits for one.
    #[inline(always)]
    pub fn row_ahead(&self) -> Option<u32>
        ensures some { IfSome result (λ cell. (row : ℕ) × Validates self.now (λ aim. RoundRow aim row) cell) }
        ensures none { IfNone result ((row cell : ℕ) → Validates self.now (λ aim. RoundRow aim row) cell → ⊥) }
    {
        match self.pending {
            Pending::RoundRow(row) => {
                let logged = self.state.log.row(row);
                Some(logged.word + 1)
            }
            _ => None,
        }
    }

    /// `resume_into` with the word of the row that is waited for.
    #[inline(always)]
    pub fn row_loaded(&mut self, seen: u64, answer: &mut Answer) -> Option<Step>
        requires loads { (row : ℕ) × (cell : ℕ) × Validates self.old (λ aim. RoundRow aim row) cell }
        ensures { IsResumed self.old seen (next_in result answer.new) self.new }
    {
        let Pending::RoundRow(row) = self.pending else {
            unreachable!();
        };
        let turn = resume(&mut self.state, false, Pending::RoundRow(row), seen);
        take(
            &mut self.state,
            &mut self.pending,
            &mut self.irrevocable,
            false,
            turn,
            answer,
        )
    }

    /// Whether a revocable transaction waits for the clock at the end of a round.
    #[inline(always)]
    pub fn ends_round(&self) -> bool
        ensures { (result ≡ true → Validates self.now RoundEnd 0) × (Validates self.now RoundEnd 0 → result ≡ true) }
    {
        match self.pending {
            Pending::RoundEnd => true,
            _ => false,
        }
    }

    /// `resume_into` with the clock at the end of a round.
    #[inline(always)]
    pub fn round_ended(&mut self, seen: u64, answer: &mut Answer) -> Option<Step>
        requires ends { Validates self.old RoundEnd 0 }
        requires fits { Fits self.old seen }
        ensures { IsResumed self.old seen (next_in result answer.new) self.new }
    {
        let turn = resume(&mut self.state, false, Pending::RoundEnd, seen);
        take(
            &mut self.state,
            &mut self.pending,
            &mut self.irrevocable,
            false,
            turn,
            answer,
        )
    }

    /// Whether it waits for the exchange that takes the clock, to commit what is written.
    #[inline(always)]
    pub fn waits_for_clock(&self) -> bool
        ensures { (result ≡ true → WaitsForClock self.now) × (WaitsForClock self.now → result ≡ true) }
    {
        match (self.pending, self.state.taking) {
            (Pending::Exchange, Taking::Commit) => true,
            _ => false,
        }
    }
}
