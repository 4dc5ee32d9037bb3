//! Calls that the thread's own state answers, with no step.

ghost use Rattle.norec_core.specs.Phases as phases;
ghost use Rattle.std.specs.Prelude.{◌≡◌, ◌<◌, Some, false, if◌then◌else◌};
ghost use Rattle.itm_types.specs.declared.call.Call.{Call};
ghost use Rattle.itm_types.specs.Calls.{logged_of, registered_by};
ghost use Rattle.norec_data.specs.View.{in_block};
ghost use Rattle.norec_turns.specs.InPhases.{IsSound};
ghost use Rattle.norec_data.specs.Ends.{answer_of};
ghost use Rattle.norec_data.specs.declared.data.Data.{Data};
ghost use Rattle.norec_turns.specs.Moves.{CallTurns, CallComes};

use itm_types::{Action, ActionKind, Call, Datum, Refusal, Reply, Width};
use norec_core::Answer;
use norec_data::{CallEnd, Data, Turn};
use std::alloc::AllocError;

/// It is asked whether a transaction is open.
pub(crate) fn in_transaction(state: &mut Data) -> Turn
    requires sound { IsSound state.old phases.Idle }
    ensures { CallTurns state.old Call.InTransaction false result state.new }
{
    let end = mode(state);
    state.start_call();
    Turn::End(end)
}

/// So many bytes of the arena are kept for a rollback, as they are now.
pub(crate) fn log(state: &mut Data, at: u64, size: u64) -> Result<Turn, AllocError>
    requires sound { IsSound state.old phases.Idle }
    ensures { (call : Call) → logged_of call ≡ Some (at, size) → CallComes state.old call false result state.new }
{
    let end = if !state.is_open() {
        state.why = Refusal::Outside;
        CallEnd::Refused
    } else if !state.arena.contains(at, size) {
        state.why = Refusal::OutOfArena;
        CallEnd::Refused
    } else {
        state.frames.log(&state.arena, at, size)?;
        CallEnd::Done
    };
    state.start_call();
    Ok(Turn::End(end))
}

/// An action is registered.
pub(crate) fn register(
    state: &mut Data,
    kind: ActionKind,
    action: Action,
) -> Result<Turn, AllocError>
    requires sound { IsSound state.old phases.Idle }
    ensures { (call : Call) → registered_by call ≡ Some (kind, action) → CallComes state.old call false result state.new }
{
    let end = if state.is_open() {
        state.frames.register(kind, action)?;
        CallEnd::Done
    } else {
        state.why = Refusal::Outside;
        CallEnd::Refused
    };
    state.start_call();
    Ok(Turn::End(end))
}

/// Bytes of the arena are read.
pub(crate) fn load(state: &mut Data, width: Width, at: u64) -> Turn
    requires sound { IsSound state.old phases.Idle }
    ensures { CallTurns state.old (Call.Load width at) false result state.new }
{
    state.start_call();
    if state.arena.contains(at, u64::from(width.size())) {
        state.gathered = state.arena.load(at, width);
        Turn::End(CallEnd::Gathered)
    } else {
        state.why = Refusal::OutOfArena;
        Turn::End(CallEnd::Refused)
    }
}

/// Bytes of the arena are written.
pub(crate) fn save(state: &mut Data, at: u64, value: &Datum) -> Turn
    requires sound { IsSound state.old phases.Idle }
    ensures { CallTurns state.old (Call.Save at value.now) false result state.new }
{
    state.start_call();
    if state.arena.contains(at, u64::from(value.width.size())) {
        state.arena.store(at, value);
        Turn::End(CallEnd::Done)
    } else {
        state.why = Refusal::OutOfArena;
        Turn::End(CallEnd::Refused)
    }
}

/// Whether a transaction is open.
fn mode(state: &Data) -> CallEnd
    ensures { (d : Data) → answer_of d result ≡ Answer.Reply (Reply.Code (if in_block state.now then 1 else 0)) }
{
    if state.is_open() {
        CallEnd::Retryable
    } else {
        CallEnd::NoTransaction
    }
}
