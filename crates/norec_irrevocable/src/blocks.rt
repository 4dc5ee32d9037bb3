//! Blocks of an irrevocable transaction: none of them is cancelled.

ghost use Rattle.std.specs.Prelude.{◌≡◌, if◌then◌else◌};
ghost use Rattle.nest_frames.specs.Nest.{is_kept};
ghost use Rattle.norec_core.specs.Phases.{Free};
ghost use Rattle.norec_data.specs.Bounds.{IsHeld};
ghost use Rattle.norec_data.specs.View.{held};
ghost use Rattle.norec_irrevocable.specs.Phases.{IsSoundHeld};
ghost use Rattle.norec_irrevocable.specs.Moves.{HeldStepTurns, HeldCallTurns};

use itm_types::{Call, Props, Refusal};
use norec_data::{CallEnd, Data, Pending, Turn, begin_refusal, finish, mode_refusal};

/// A block begins.
pub(crate) fn begin(state: &mut Data, props: Props, room: u32) -> Turn
    requires held { IsHeld state.old }
    ensures { HeldCallTurns state.old (Call.Begin props room) result state.new }
{
    // (the bound of a number)
    let _room = room;
    let refused = begin_refusal(state, props);
    state.start_call();
    match refused {
        Some(why) => {
            state.why = why;
            Turn::EndIrrevocable(CallEnd::Refused)
        }
        None => {
            state.frames.enter(props, state.log.len() as u32);
            Turn::EndIrrevocable(CallEnd::Entered)
        }
    }
}

/// The innermost block ends. With the outermost one the clock is freed.
pub(crate) fn commit(state: &mut Data) -> Turn
    requires held { IsHeld state.old }
    ensures { HeldCallTurns state.old Call.Commit result state.new }
{
    state.start_call();
    if state.is_outermost() {
        Turn::Wait(Pending::Free)
    } else {
        state.frames.leave();
        Turn::EndIrrevocable(CallEnd::Done)
    }
}

/// No block is cancelled.
pub(crate) fn abort(state: &mut Data, outer: bool) -> Turn
    requires held { IsHeld state.old }
    ensures { HeldCallTurns state.old (Call.Abort outer) result state.new }
{
    let why = abort_refusal(state, outer);
    state.start_call();
    state.why = why;
    Turn::EndIrrevocable(CallEnd::Refused)
}

/// Why no block is cancelled.
fn abort_refusal(state: &Data, outer: bool) -> Refusal
    ensures { result ≡ (if is_kept state.now.frames.blocks outer then Refusal.NoAbort else Refusal.IsIrrevocable) }
{
    if state.frames.is_kept(outer) {
        Refusal::NoAbort
    } else {
        Refusal::IsIrrevocable
    }
}

/// The transaction is to become irrevocable, as it is.
pub(crate) fn mode(state: &mut Data, room: u32) -> Turn
    requires held { IsHeld state.old }
    ensures { HeldCallTurns state.old (Call.Mode room) result state.new }
{
    // (the bound of a number)
    let _room = room;
    let refused = mode_refusal(state);
    state.start_call();
    match refused {
        Some(why) => {
            state.why = why;
            Turn::EndIrrevocable(CallEnd::Refused)
        }
        None => Turn::EndIrrevocable(CallEnd::Done),
    }
}

/// The clock was freed.
pub(crate) fn freed(state: &mut Data) -> Turn
    requires sound { IsSoundHeld state.old Free }
    ensures { HeldStepTurns state.old Free 0 result state.new }
{
    state.clock = state.snapshot + 2;
    finish(state);
    Turn::End(CallEnd::Committed)
}
