//! Calls that the thread's own state answers, with no step.

ghost use Rattle.std.specs.Prelude.{◌≡◌, Some};
ghost use Rattle.itm_types.specs.declared.call.Call.{Call};
ghost use Rattle.itm_types.specs.Calls.{logged_of};
ghost use Rattle.norec_data.specs.Bounds.{IsHeld};
ghost use Rattle.norec_irrevocable.specs.Outcomes.{kept};
ghost use Rattle.norec_irrevocable.specs.Moves.{HeldCallTurns, HeldCallComes};

use itm_types::{Action, ActionKind, Call, Datum, Refusal, Width};
use norec_data::{CallEnd, Data, Turn};
use std::alloc::AllocError;

/// It is asked whether a transaction is open.
pub(crate) fn in_transaction(state: &mut Data) -> Turn
    requires held { IsHeld state.old }
    ensures { HeldCallTurns state.old Call.InTransaction result state.new }
{
    state.start_call();
    Turn::EndIrrevocable(CallEnd::Irrevocable)
}

/// Bytes of the arena are to be kept for a rollback, of which there is none.
pub(crate) fn log(state: &mut Data, at: u64, size: u64) -> Turn
    requires held { IsHeld state.old }
    ensures { (call : Call) → logged_of call ≡ Some (at, size) → HeldCallTurns state.old call result state.new }
{
    state.start_call();
    if state.arena.contains(at, size) {
        Turn::EndIrrevocable(CallEnd::Done)
    } else {
        state.why = Refusal::OutOfArena;
        Turn::EndIrrevocable(CallEnd::Refused)
    }
}

/// A commit action is registered. One for which there is room takes no memory.
pub(crate) fn register(state: &mut Data, action: Action) -> Result<Turn, AllocError>
    requires held { IsHeld state.old }
    ensures { HeldCallComes state.old (Call.CommitAction action) result state.new }
{
    // (what holds of all frames)
    let _blocks = state.frames.depth();
    state.frames.register(ActionKind::Commit, action)?;
    state.start_call();
    Ok(Turn::EndIrrevocable(CallEnd::Done))
}

/// An undo action is accepted, and not kept: there is no rollback.
pub(crate) fn accept_undo(state: &mut Data, action: Action) -> Turn
    requires held { IsHeld state.old }
    ensures { HeldCallTurns state.old (Call.UndoAction action) result state.new }
{
    // (the bounds of its numbers)
    let _action = action;
    state.start_call();
    Turn::EndIrrevocable(CallEnd::Done)
}

/// Bytes of the arena are read.
pub(crate) fn load(state: &mut Data, width: Width, at: u64) -> Turn
    requires held { IsHeld state.old }
    ensures { HeldCallTurns state.old (Call.Load width at) result state.new }
{
    state.start_call();
    if state.arena.contains(at, u64::from(width.size())) {
        state.gathered = state.arena.load(at, width);
        Turn::EndIrrevocable(CallEnd::Gathered)
    } else {
        state.why = Refusal::OutOfArena;
        Turn::EndIrrevocable(CallEnd::Refused)
    }
}

/// Bytes of the arena are written.
pub(crate) fn save(state: &mut Data, at: u64, value: &Datum) -> Turn
    requires held { IsHeld state.old }
    ensures { HeldCallTurns state.old (Call.Save at value.now) result state.new }
{
    state.start_call();
    if state.arena.contains(at, u64::from(value.width.size())) {
        state.arena.store(at, value);
        Turn::EndIrrevocable(CallEnd::Done)
    } else {
        state.why = Refusal::OutOfArena;
        Turn::EndIrrevocable(CallEnd::Refused)
    }
}
