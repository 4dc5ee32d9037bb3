//! One thread's transactions over shared cells that someone else steps on.

ghost use Rattle.std.specs.Prelude.{◌≡◌, ◌^◌, ◌<◌, ◌≤◌, IfErr, IfOk, IsSome, true, IsTrue, ◌↔◌, is_some, false, []};
ghost use Rattle.user_actions.specs.Actions.{total};
ghost use Rattle.norec_core.specs.Core.{in_transaction, opening, irrevocable_room};
ghost use Rattle.norec_core.specs.Proceeds.{IsUndone, Fits};
ghost use Rattle.norec_data.specs.View.{phase_of};
ghost use Rattle.norec_engine.specs.Modes.{IsSoundIn};
ghost use Rattle.norec_core.specs.RestartingCalls.{arena_ahead, can_restart};
ghost use Rattle.norec_core.specs.Undoing.{undone_of, after_undoing};
ghost use Rattle.norec_engine.specs.NextSteps.{next_in, ComesInto};
ghost use Rattle.norec_core.specs.Moves.{IsResumed};

use crate::refused::EngineRefused;
use crate::restarting::may_validate;
use crate::turns;
use crate::turns::take;
use itm_types::{
    Call, Datum, Limits, MAX_COMMITS, MAX_PATIENCE, MAX_WORDS, Props, Ran, ReadHint, Refusal,
    Reply, Step, Value, Width, WriteHint,
};
use nest_frames::Frames;
use norec_core::{Answer, Opening, Purpose, Reading, Taking, Target, Undone, Writing};
use norec_data::{Cause, Data, EngineLimits, Pending, roll_back};
use std::alloc::{AllocError, Global};
use std::marker::Model;
use undo_log::Arena;
use value_log::ValueLog;

/// The transactions of one thread, one after the other.
///
/// A call gives either its answer or a step. The step is to be done on the shared cells, and its value handed in by
/// `resume`, which again gives the answer or the next step.
#[derive(Drop)]
pub struct Engine {
    pub(crate) state: Data,
    pub(crate) pending: Pending,
    /// The transaction is irrevocable: the clock is held from call to call.
    pub(crate) irrevocable: bool,
}

impl Model for Engine {
    ghost use Rattle.norec_core.specs.Core.{Core};

    ghost Value = { Core };

    ghost use Rattle.norec_engine.specs.Modes.{engine_in, IsSoundIn};
    ghost use Rattle.norec_data.specs.View.{phase_of};

    ghost view = { λ e. engine_in e.irrevocable e.state (phase_of e.state e.pending) };

    ghost invariant = { λ e. IsSoundIn e.irrevocable e.state (phase_of e.state e.pending) };
}

impl Engine {
    /// An engine outside a transaction, over a memory of 1 to 2^32 - 8 words, with its thread's arena. Takes memory for
    /// the begins of open blocks; where that is refused, the arena comes back.
    pub fn new(
        alloc: Global,
        words: u32,
        arena: Arena,
        limits: Limits,
    ) -> Result<Self, EngineRefused>
        requires words { (0 < words) × (words ≤ MAX_WORDS) }
        requires patience { (0 < limits.patience) × (limits.patience ≤ MAX_PATIENCE) }
        requires commits { (0 < limits.max_commits) × (limits.max_commits ≤ MAX_COMMITS) }
        requires depth { 0 < limits.depth }
        ensures ok { IfOk result (λ e. e ≡ opening words arena limits.patience limits.max_commits limits.depth limits.restarts) }
        ensures err { IfErr result (λ refused. refused.arena ≡ arena) }
    {
        let Ok(frames) = Frames::new(alloc, arena.size(), limits.depth) else {
            return Err(EngineRefused { arena });
        };
        Ok(Engine {
            state: Data {
                words,
                limits: EngineLimits {
                    patience: limits.patience,
                    max_commits: limits.max_commits,
                    restarts: limits.restarts,
                },
                frames,
                arena,
                snapshot: 0,
                clock: 0,
                log: ValueLog::new(alloc),
                opening: Opening {
                    props: Props::default(),
                    room: 0,
                    again: false,
                },
                reading: Reading {
                    purpose: Purpose::Value {
                        hint: ReadHint::R,
                        width: Width::U1,
                    },
                    at: 0,
                    size: 1,
                    number: 0,
                },
                taking: Taking::Commit,
                cause: Cause::Read,
                got: None,
                writing: Writing {
                    target: Target::Value {
                        hint: WriteHint::W,
                        width: Width::U1,
                    },
                    at: 0,
                    size: 1,
                    number: 0,
                },
                why: Refusal::Outside,
                changed: None,
                gathered: Value::new(),
                value: Datum::new(Width::U1, &[0]),
                buffer: Vec::new(alloc),
                written: 0,
                entry: 0,
                tries: 0,
                restarted: 0,
                spent: 0,
            },
            pending: Pending::Idle,
            irrevocable: false,
        })
    }

    /// An outermost block begins, `again` where an earlier try of it got past its begin; inside a transaction this is
    /// `call_into`. The step that it asks for first; where there is none, the call is over, and `answer` tells how.
    #[inline(never)]
    pub fn begin_into(
        &mut self,
        props: Props,
        room: u32,
        again: bool,
        answer: &mut Answer,
    ) -> Result<Option<Step>, AllocError>
        requires idle { self.old.waits ≡ None }
        ensures { ComesInto self.old (Call.Begin props room) again result answer.new self.new }
    {
        let was = self.irrevocable;
        let turn = turns::begin(&mut self.state, was, props, room, again)?;
        Ok(take(
            &mut self.state,
            &mut self.pending,
            &mut self.irrevocable,
            was,
            turn,
            answer,
        ))
    }

    /// A call comes. The step that it asks for first; where there is none, the call is over, and `answer` tells how. What most
    /// calls are is looked for first, by the functions of the fast path.
    #[inline(never)]
    pub fn call_into(
        &mut self,
        call: &Call,
        answer: &mut Answer,
    ) -> Result<Option<Step>, AllocError>
        requires idle { self.old.waits ≡ None }
        ensures { ComesInto self.old call.now false result answer.new self.new }
    {
        match call {
            Call::Read { hint, width, at } => {
                if let Some(word) = self.read_fast(*hint, *width, *at) {
                    return Ok(Some(Step::Load(word + 1)));
                }
            }
            Call::Write { hint, at, value } => {
                if self.serves_write(*at, value) && self.write_next(*hint, *at, value) {
                    *answer = Answer::Reply(Reply::Done);
                    return Ok(None);
                }
            }
            Call::Commit => {
                if self.asks_for_clock() {
                    return Ok(Some(self.commit_writes()));
                }
            }
            _ => {}
        }
        self.call_other(call, answer)
    }

    /// The same of any call.
    #[inline(never)]
    fn call_other(&mut self, call: &Call, answer: &mut Answer) -> Result<Option<Step>, AllocError>
        requires idle { self.old.waits ≡ None }
        ensures { ComesInto self.old call.now false result answer.new self.new }
    {
        let was = self.irrevocable;
        let turn = turns::call(&mut self.state, was, call)?;
        Ok(take(
            &mut self.state,
            &mut self.pending,
            &mut self.irrevocable,
            was,
            turn,
            answer,
        ))
    }

    /// The step that it waits for was done: `seen` is the value loaded, the value that an exchange found, or 0 after a store.
    /// The next step; where there is none, the call is over, and `answer` tells how. Stands where it is called.
    #[inline(always)]
    pub fn resume_into(&mut self, seen: u64, answer: &mut Answer) -> Option<Step>
        requires waits { IsSome self.old.waits }
        requires fits { Fits self.old seen }
        ensures { IsResumed self.old seen (next_in result answer.new) self.new }
    {
        turns::hand_in(
            &mut self.state,
            &mut self.pending,
            &mut self.irrevocable,
            seen,
            answer,
        )
    }

    /// Gives the transaction up, with the call in progress. While the clock is held, nothing is changed.
    ///
    /// An exchange that was asked for counts as not holding: who made it, took the clock by it, and calls `abort` before
    /// `resume` has handed its value in leaves the clock odd for ever, so a driver hands the value in first.
    pub fn abort(&mut self) -> Undone
        ensures undone { result ≡ undone_of self.old }
        ensures after { self.new ≡ after_undoing self.old }
        ensures rolled_back { self.old.holds ≡ false → IsUndone self.old self.new }
        ensures unregistered { self.old.holds ≡ false
            → (self.new.actions.commits ≡ []) × (self.new.actions.undos ≡ []) }
    {
        if self.irrevocable {
            return Undone::Held;
        }
        match self.pending {
            Pending::BackLoad(_) | Pending::Store(_) | Pending::Free => Undone::Held,
            _ => {
                let was_open = self.state.is_open();
                roll_back(&mut self.state);
                self.pending = Pending::Idle;
                if was_open {
                    Undone::Done
                } else {
                    Undone::Nothing
                }
            }
        }
    }

    /// A step is asked for whose value was not handed in.
    pub fn waits(&self) -> bool
        ensures { result ≡ is_some self.now.waits }
    {
        match self.pending {
            Pending::Idle => false,
            _ => true,
        }
    }

    /// The memory can hand this value in: the clock never falls.
    pub fn fits(&self, seen: u64) -> bool
        ensures { IsTrue result ↔ Fits self.now seen }
    {
        match self.pending {
            Pending::Idle
            | Pending::Load
            | Pending::RoundRow(_)
            | Pending::BackLoad(_)
            | Pending::Store(_)
            | Pending::Fetch
            | Pending::Place
            | Pending::Free => true,
            _ => self.state.clock <= seen,
        }
    }

    /// A transaction is open.
    pub fn is_open(&self) -> bool
        ensures { result ≡ in_transaction self.now }
    {
        self.state.is_open()
    }

    /// The even clock value at which the transaction reads, after its end the last one.
    pub fn snapshot(&self) -> u64
        ensures { result ≡ self.now.snapshot }
    {
        self.state.snapshot
    }

    /// The clock value that was handed in last; 0 before the first one.
    pub fn clock(&self) -> u64
        ensures { result ≡ self.now.clock }
    {
        self.state.clock
    }

    /// What the step before found, where the one that it waits for stores a part of that word.
    #[inline(always)]
    pub fn got(&self) -> Option<u64>
        ensures { result ≡ self.now.got }
    {
        match (self.irrevocable, self.pending) {
            (false, Pending::Store(_)) | (true, Pending::Place) => self.state.got,
            _ => None,
        }
    }

    /// The room that the call asks for, where it is served and makes the transaction irrevocable.
    pub fn irrevocable_room(&self, call: &Call) -> Option<u32>
        ensures { result ≡ irrevocable_room self.now call.now }
    {
        if self.irrevocable {
            None
        } else {
            norec_blocks::irrevocable_room(&self.state, call)
        }
    }

    /// How often the inner blocks of one transaction may go back to their begins.
    pub fn restarts(&self) -> u32
        ensures { result ≡ self.now.restarts }
    {
        self.state.limits.restarts
    }

    /// How many bytes the arena has, where the innermost block may go back to its begin by the call: it is within another one, a
    /// restart is left, the transaction is not irrevocable, and the call reads shared bytes or takes the clock. Whoever tells of
    /// a block that goes back makes room for so many before the call.
    #[inline(always)]
    pub fn arena_ahead(&self, call: &Call) -> Option<usize>
        ensures { result ≡ arena_ahead self.now call.now }
    {
        if self.can_restart(call) {
            Some(self.state.arena.bytes().len())
        } else {
            None
        }
    }

    /// Whether the innermost block may go back to its begin by the call.
    #[inline(always)]
    fn can_restart(&self, call: &Call) -> bool
        ensures { result ≡ can_restart self.now call.now }
    {
        self.state.restarted < self.state.limits.restarts
            && !self.irrevocable
            && self.state.frames.depth() > 1
            && may_validate(call)
    }

    /// The thread's private bytes.
    pub fn arena(&self) -> &Arena
        ensures { result.now ≡ self.now.arena }
    {
        &self.state.arena
    }

    /// The thread's private bytes, once the engine is no longer wanted. Takes no memory.
    pub fn into_arena(self) -> Arena
        ensures { result ≡ self.arena }
    {
        let Engine {
            state,
            pending: _,
            irrevocable: _,
        } = self;
        state.arena
    }

    /// How many actions there are in all: those that are registered, and those that have come to run. Takes no memory.
    pub fn actions(&self) -> usize
        ensures total { result ≡ total self.now.actions }

        // There are fewer than a count can tell.
        ensures few { total self.now.actions < 2 ^ 63 }
    {
        self.state.frames.actions()
    }

    /// The actions of the transaction that have come to run, in order: those of an open one too, where a block within it
    /// was cancelled. The begin of the next one forgets them.
    pub fn due(&self) -> &[Ran]
        ensures { result.now ≡ self.now.actions.ran }
    {
        self.state.frames.due()
    }

    /// Forgets the actions that have come to run. Takes no memory.
    pub fn clear_due(&mut self)
        ensures { self.new ≡ record self.old { actions = record self.old.actions { ran = [] } } }
    {
        self.state.frames.clear_due();
    }

    /// The number of steps asked for since a call last came.
    pub fn spent(&self) -> u128
        ensures { result ≡ self.now.spent }
    {
        self.state.spent
    }
}
