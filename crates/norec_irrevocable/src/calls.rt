//! The calls of an irrevocable transaction, and the values that its steps find.

ghost use Rattle.norec_data.specs.Bounds.{IsHeld};
ghost use Rattle.norec_data.specs.Turns.{IsWaiting};
ghost use Rattle.norec_data.specs.View.{held, phase_of};
ghost use Rattle.norec_irrevocable.specs.Phases.{IsSoundHeld};
ghost use Rattle.norec_irrevocable.specs.Moves.{HeldStepTurns, HeldCallComes};

use crate::blocks::{abort, begin, commit, freed, mode};
use crate::copy::copy;
use crate::fill::fill;
use crate::local::{accept_undo, in_transaction, load, log, register, save};
use crate::read::{loaded, read};
use crate::write::{fetched, placed, write};
use itm_types::Call;
use norec_data::{Data, Pending, Turn};
use std::alloc::AllocError;

/// A call comes.
pub fn called(state: &mut Data, call: &Call) -> Result<Turn, AllocError>
    requires held { IsHeld state.old }
    ensures { HeldCallComes state.old call.now result state.new }
{
    match call {
        Call::Begin { props, room } => Ok(begin(state, *props, *room)),
        Call::Commit => Ok(commit(state)),
        Call::Abort { outer } => Ok(abort(state, *outer)),
        Call::Mode { room } => Ok(mode(state, *room)),
        Call::InTransaction => Ok(in_transaction(state)),
        Call::Read { hint, width, at } => Ok(read(state, *hint, *width, *at)),
        Call::Write { hint, at, value } => Ok(write(state, *hint, *at, value)),
        Call::Log { width, at } => Ok(log(state, *at, u64::from(width.size()))),
        Call::LogBytes { at, size } => Ok(log(state, *at, *size)),
        Call::Copy(copying) => Ok(copy(state, *copying)),
        Call::Fill {
            hint,
            to,
            byte,
            size,
        } => Ok(fill(state, *hint, *to, *byte, *size)),
        Call::CommitAction(action) => register(state, *action),
        Call::UndoAction(action) => Ok(accept_undo(state, *action)),
        Call::Load { width, at } => Ok(load(state, *width, *at)),
        Call::Save { at, value } => Ok(save(state, *at, value)),
    }
}

/// What comes of the step that is waited for.
pub fn resumed(state: &mut Data, pending: Pending, seen: u64) -> Turn
    requires sound { IsSoundHeld state.old (phase_of state.old pending) }
    requires waits { IsWaiting pending }
    ensures { HeldStepTurns state.old (phase_of state.old pending) seen result state.new }
{
    match pending {
        Pending::Load => loaded(state, seen),
        Pending::Fetch => fetched(state, seen),
        Pending::Place => placed(state),
        Pending::Free => freed(state),
        _ => unreachable!(),
    }
}
