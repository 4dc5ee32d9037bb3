//! The calls of a transaction that may be tried again, and the values that its steps find.

ghost use Rattle.norec_core.specs.Phases as phases;
ghost use Rattle.std.specs.Prelude.{IsSome, false};
ghost use Rattle.norec_core.specs.Proceeds.{Fits};
ghost use Rattle.norec_data.specs.View.{core, phase_of, waits_of};
ghost use Rattle.norec_turns.specs.InPhases.{IsSound};
ghost use Rattle.norec_turns.specs.Moves.{StepTurns, CallComes};

use crate::local::{in_transaction, load, log, register, save};
use itm_types::{ActionKind, Call};
use norec_accesses::{confirmed, copy, fill, loaded, read, write};
use norec_blocks::{
    abort, back_loaded, begin, begin_seen, begin_taken, commit, exchanged, freed, mode,
    round_decided, round_ended, round_started, row_seen, stored,
};
use norec_data::{Data, Pending, Turn};
use std::alloc::AllocError;

/// What comes of the step that is waited for.
#[inline(always)]
pub fn resumed(state: &mut Data, pending: Pending, seen: u64) -> Turn
    requires sound { IsSound state.old (phase_of state.old pending) }
    requires waits { IsSome (waits_of state.old (phase_of state.old pending)) }
    requires fits { Fits (core state.old (phase_of state.old pending)) seen }
    ensures { StepTurns state.old (phase_of state.old pending) seen result state.new }
{
    match pending {
        Pending::Idle => unreachable!(),
        Pending::Begin => begin_seen(state, seen),
        Pending::Load => loaded(state, seen),
        Pending::Confirm(value) => confirmed(state, value, seen),
        Pending::RoundStart => round_started(state, seen),
        Pending::RoundRow(row) => row_seen(state, row, seen),
        Pending::RoundEnd => round_ended(state, seen),
        Pending::RoundBack(row) => round_decided(state, row, seen),
        Pending::Take => begin_taken(state, seen),
        Pending::Exchange => exchanged(state, seen),
        Pending::BackLoad(row) => back_loaded(state, row, seen),
        Pending::Store(row) => stored(state, row),
        Pending::Free => freed(state),
        Pending::Fetch | Pending::Place => unreachable!(),
    }
}

/// What comes of a call.
pub fn called(state: &mut Data, call: &Call) -> Result<Turn, AllocError>
    requires sound { IsSound state.old phases.Idle }
    ensures { CallComes state.old call.now false result state.new }
{
    match call {
        Call::Begin { props, room } => begin(state, *props, *room, false),
        Call::Commit => Ok(commit(state)),
        Call::Abort { outer } => Ok(abort(state, *outer)),
        Call::Mode { room } => mode(state, *room),
        Call::InTransaction => Ok(in_transaction(state)),
        Call::Read { hint, width, at } => read(state, *hint, *width, *at),
        Call::Write { hint, at, value } => write(state, *hint, *at, value),
        Call::Log { width, at } => log(state, *at, u64::from(width.size())),
        Call::LogBytes { at, size } => log(state, *at, *size),
        Call::Copy(copying) => copy(state, *copying),
        Call::Fill { to, byte, size, .. } => fill(state, *to, *byte, *size),
        Call::CommitAction(action) => register(state, ActionKind::Commit, *action),
        Call::UndoAction(action) => register(state, ActionKind::Undo, *action),
        Call::Load { width, at } => Ok(load(state, *width, *at)),
        Call::Save { at, value } => Ok(save(state, *at, value)),
    }
}
