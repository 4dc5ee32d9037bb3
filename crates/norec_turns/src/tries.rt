//! Validation rounds that a transaction has left.

ghost use Rattle.std.specs.Prelude.{Some, None};
ghost use Rattle.norec_data.specs.View.{aim_for};
ghost use Rattle.norec_turns.specs.Between.{between, MayTry};
ghost use Rattle.norec_core.specs.Order.{try_stage};
ghost use Rattle.norec_turns.specs.Moves.{GoesTo};

use norec_core::Answer;
use norec_data::{CallEnd, Cause, Data, Pending, Turn, roll_back};

/// A new round, if one is left.
pub fn try_round(state: &mut Data, cause: Cause) -> Turn
    requires may { MayTry state.old (aim_for cause state.old.reading state.old.taking) }
    ensures { GoesTo (between state.old (aim_for cause state.old.reading state.old.taking)) (try_stage state.old.tries state.old.limits.patience (aim_for cause state.old.reading state.old.taking))
        (Some (Answer.Conflict state.old.clock None)) state.old result state.new }
{
    if state.tries < state.limits.patience {
        state.tries += 1;
        state.cause = cause;
        Turn::Wait(Pending::RoundStart)
    } else {
        roll_back(state);
        state.changed = None;
        Turn::End(CallEnd::Conflict)
    }
}
