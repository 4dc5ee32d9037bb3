//! Blocks that are cancelled.

ghost use Rattle.norec_core.specs.Phases as phases;
ghost use Rattle.std.specs.Prelude.{false};
ghost use Rattle.norec_turns.specs.InPhases.{IsSound};
ghost use Rattle.norec_turns.specs.Moves.{CallTurns};

use itm_types::{Call, Refusal};
use norec_data::{CallEnd, Data, Turn, roll_back};

/// The innermost block, or with `outer` all of them, are to be cancelled.
pub fn abort(state: &mut Data, outer: bool) -> Turn
    requires sound { IsSound state.old phases.Idle }
    ensures { CallTurns state.old (Call.Abort outer) false result state.new }
{
    state.start_call();
    if !state.is_open() {
        state.why = Refusal::Outside;
        return Turn::End(CallEnd::Refused);
    }
    if state.frames.is_kept(outer) {
        state.why = Refusal::NoAbort;
        return Turn::End(CallEnd::Refused);
    }
    if outer || state.is_outermost() {
        roll_back(state);
    } else {
        state.frames.cancel(&mut state.arena);
    }
    Turn::End(CallEnd::Cancelled)
}
