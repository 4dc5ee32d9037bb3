//! What reads, writes and fills have in common: where they are refused.

ghost use Rattle.norec_core.specs.Phases as phases;
ghost use Rattle.std.specs.Prelude.{◌≡◌, ℕ, false, Some};
ghost use Rattle.itm_types.specs.declared.call.Call.{Call};
ghost use Rattle.itm_types.specs.Calls.{access_of};
ghost use Rattle.norec_core.specs.Accesses.{access_refusal};
ghost use Rattle.norec_data.specs.View.{in_block};
ghost use Rattle.norec_turns.specs.InPhases.{IsSound};
ghost use Rattle.norec_turns.specs.Moves.{CallTurns};

use itm_types::Refusal;
use norec_data::{CallEnd, Data, Turn};

/// A read, a write or a fill is refused.
pub fn refuse(state: &mut Data, why: Refusal) -> Turn
    requires sound { IsSound state.old phases.Idle }
    ensures { (call : Call) (at size : ℕ) → access_of call ≡ Some (at, size)
        → access_refusal (in_block state.old) state.old.words at size ≡ Some why
        → CallTurns state.old call false result state.new }
{
    state.start_call();
    state.why = why;
    Turn::End(CallEnd::Refused)
}
