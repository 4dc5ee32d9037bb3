//! Copies that are refused.

ghost use Rattle.norec_core.specs.Phases as phases;
ghost use Rattle.std.specs.Prelude.{◌≡◌, Some, false, length};
ghost use Rattle.norec_core.specs.Copies.{copy_refusal};
ghost use Rattle.norec_data.specs.View.{in_block};
ghost use Rattle.norec_turns.specs.InPhases.{IsSound};
ghost use Rattle.norec_turns.specs.Moves.{CallTurns};

use itm_types::{Call, Copying, Refusal};
use norec_data::{CallEnd, Data, Turn};

/// A copy is refused.
pub(super) fn refuse_copy(state: &mut Data, copying: Copying, why: Refusal) -> Turn
    requires sound { IsSound state.old phases.Idle }
    requires why { copy_refusal (in_block state.old) state.old.words (length state.old.arena) copying ≡ Some why }
    ensures { CallTurns state.old (Call.Copy copying) false result state.new }
{
    state.start_call();
    state.why = why;
    Turn::End(CallEnd::Refused)
}
