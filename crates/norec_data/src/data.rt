//! What an engine keeps beside the phase.

ghost use Rattle.std.specs.Prelude.{◌≡◌, true, [], length};
ghost use Rattle.user_actions.specs.Actions.{committed};
ghost use Rattle.nest_frames.specs.Nest.{arena_back, arena_restored, actions_back};
ghost use Rattle.norec_core.specs.Core.{is_outermost};
ghost use Rattle.norec_data.specs.View.{in_block};
ghost use Rattle.norec_data.specs.Turns.{IsEnded};

use crate::limits::EngineLimits;
use crate::pending::Cause;
use itm_types::{Datum, Refusal, Value};
use nest_frames::Frames;
use norec_core::{Opening, Reading, Taking, Writing};
use undo_log::Arena;
use value_log::ValueLog;

/// The fields that the phases share.
#[derive(Drop)]
pub struct Data {
    pub words: u32,
    pub limits: EngineLimits,
    pub arena: Arena,
    /// The even clock value at which the value log holds.
    pub snapshot: u64,
    /// The last clock value handed in.
    pub clock: u64,
    /// The open blocks, with what they wrote and logged. Where one is open, a transaction is.
    pub frames: Frames,
    pub log: ValueLog,
    /// The begin in progress.
    pub opening: Opening,
    /// The read in progress, or that of a chunk of a copy's source.
    pub reading: Reading,
    /// What the clock is to be taken for.
    pub taking: Taking,
    /// What the round in progress is made for.
    pub cause: Cause,
    /// The word that was loaded, into which the store in progress puts a part, or which a round found different.
    pub got: Option<u64>,
    /// The write in progress, in an irrevocable transaction.
    pub writing: Writing,
    /// Why the call that was refused last was so.
    pub why: Refusal,
    /// The word that had changed, where the last conflict was seen by one.
    pub changed: Option<u32>,
    /// The bytes that the access in progress has so far, or those that it writes.
    pub gathered: Value,
    /// The value of the write in progress, in an irrevocable transaction.
    pub value: Datum,
    /// As many bytes as the copy or the fill in progress has: those of its source that it has read, or those that it sets.
    pub buffer: Vec<u8>,
    /// How many rows the write set had as the copy or the read in progress came.
    pub written: usize,
    /// How many rows were logged as the call came.
    pub entry: usize,
    /// Validation rounds that the call started, or clock loads of a begin.
    pub tries: u32,
    /// How often inner blocks have gone back to their begins, in this transaction.
    pub restarted: u32,
    /// Steps that the call has asked for.
    pub spent: u128,
}

impl Data {
    /// A transaction is open.
    pub fn is_open(&self) -> bool
        ensures { result ≡ in_block self.now }
    {
        self.frames.depth() > 0
    }

    /// One block is open.
    pub fn is_outermost(&self) -> bool
        ensures { result ≡ is_outermost self.now.frames.blocks }
    {
        self.frames.depth() == 1
    }

    /// A call comes: its steps are counted from here, and the rows that it logs.
    pub fn start_call(&mut self)
        ensures { self.new ≡ record self.old { spent = 0; entry = length self.old.log.rows } }
    {
        self.spent = 0;
        self.entry = self.log.len();
    }
}

/// The transaction has committed, and nothing of it is kept.
#[inline(always)]
pub fn finish(state: &mut Data)
    requires { is_outermost state.old.frames.blocks ≡ true }
    ensures { IsEnded state.old state.old.arena (committed state.old.frames.actions) state.new }
{
    state.log.clear();
    state.frames.leave();
}

/// The transaction is rolled back, and nothing of it is kept.
pub fn roll_back(state: &mut Data)
    requires { state.old.frames.size ≡ length state.old.arena }
    ensures ended { IsEnded state.old (arena_back state.old.frames.blocks state.old.arena) (actions_back state.old.frames.blocks state.old.frames.actions) state.new }
    ensures none { (state.new.frames.actions.commits ≡ []) × (state.new.frames.actions.undos ≡ []) }
    ensures restored { arena_back state.old.frames.blocks state.old.arena
        ≡ arena_restored state.old.frames.blocks state.old.arena }
    ensures sized { state.new.frames.size ≡ length state.new.arena }
{
    state.log.clear();
    state.frames.cancel_all(&mut state.arena);
}
