//! Where a player's try stands.

ghost use Rattle.std.specs.Prelude.{◌≡◌, [], MatchOption, OnOk, OnErr};
ghost use Rattle.std.specs.Borrow.{sem};
ghost use Rattle.tx_runs.specs.Currents.{Outside, Begins, Within, BeginsAttempt, IsNotWithin, is_begun};
ghost use Rattle.tx_runs.specs.OpenAttempts.{Open};
ghost use Rattle.tx_runs.specs.Tallies.{begun};

use crate::open_attempt::OpenAttempt;
use itm_types::Props;
use std::alloc::{AllocError, Global};
use std::marker::Model;

/// Whether a block is open.
#[derive(Clone, Copy)]
enum BlockState {
    /// None is.
    Outside,
    /// The begin that is in progress is to open one.
    Begins,
    /// One is.
    Within,
}

/// Where a player's try stands, and its attempt. An attempt is large, so each one of a player is made in the same place, and is
/// moved only as it ends.
#[derive(Drop)]
pub struct Current {
    state: BlockState,
    /// The attempt, where a block is open or is to be.
    attempt: OpenAttempt,
}

impl Model for Current {
    ghost use Rattle.tx_runs.specs.Currents.{Current, current_of};

    ghost Value = { Current };

    ghost view = { λ c. current_of c.state c.attempt };
}

impl Current {
    ghost use Rattle.tx_runs.specs.Lending.{LendsWithin};

    /// No block is open. Takes no memory.
    pub fn outside(alloc: Global) -> Self
        ensures { result ≡ Outside }
    {
        Current {
            state: BlockState::Outside,
            attempt: OpenAttempt::blank(alloc),
        }
    }

    /// The attempt, where it is open.
    #[inline(always)]
    pub fn within(&self) -> Option<&OpenAttempt>
        ensures { MatchOption result (IsNotWithin self.now) (λ o. self.now ≡ Within o.now) }
    {
        match self.state {
            BlockState::Within => Some(&self.attempt),
            _ => None,
        }
    }

    /// The attempt, where it is open.
    #[inline(always)]
    pub fn within_mut(&mut self) -> Option<&mut OpenAttempt>
        ensures* lends { sem 𝓛 (LendsWithin self.entry result) }
        ensures value { MatchOption result (IsNotWithin self.old) (λ o. self.old ≡ Within o.now) }
    {
        match self.state {
            BlockState::Within => Some(&mut self.attempt),
            _ => None,
        }
    }

    /// Whether a begin is in progress that is to open an attempt.
    #[inline(always)]
    pub fn is_begun(&self) -> bool
        ensures { result ≡ is_begun self.now }
    {
        match self.state {
            BlockState::Begins => true,
            _ => false,
        }
    }

    /// A begin is to open this try of its block, with room for so many calls, as many inner blocks and as many actions.
    #[inline(always)]
    pub(crate) fn begin(
        &mut self,
        thread: u8,
        nth: u32,
        began: u64,
        props: Props,
        arena: &[u8],
        ahead: usize,
    ) -> Result<(), AllocError>
        requires { self.old ≡ Outside }
        ensures begins { OnOk result (BeginsAttempt (begun thread nth began props arena.now ahead) ahead self.new) }
        ensures err { OnErr result (self.new ≡ Outside) }
    {
        self.attempt.begin(thread, nth, began, props, arena, ahead)?;
        self.state = BlockState::Begins;
        Ok(())
    }

    /// The begin was accepted: its attempt is open, and reads at this position.
    #[inline(always)]
    pub(crate) fn enter(&mut self, at: u64)
        requires { (o : Open) × (self.old ≡ Begins o) }
        ensures { (o : Open) → self.old ≡ Begins o → self.new ≡ Within (record o { row = record o.row { at = at }; points = [] }) }
    {
        self.state = BlockState::Within;
        self.attempt.enter(at);
    }

    /// No block is open any more.
    #[inline(always)]
    pub fn leave(&mut self)
        ensures { self.new ≡ Outside }
    {
        self.state = BlockState::Outside;
    }
}
