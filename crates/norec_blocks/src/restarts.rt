//! A block within others goes back to its begin alone.

ghost use Rattle.norec_core.specs.Phases as phases;
ghost use Rattle.std.specs.Prelude.{◌≡◌, ◌≤◌};
ghost use Rattle.norec_core.specs.Order.{may_restart};
ghost use Rattle.norec_data.specs.View.{aim_of, core};
ghost use Rattle.norec_turns.specs.InPhases.{IsSound};
ghost use Rattle.norec_turns.specs.Moves.{StepTurns};
ghost use Rattle.norec_blocks.specs.Restarts.{IsRenewed, MayRenew};

use norec_data::{CallEnd, Data, Turn};
use norec_turns::try_round;

/// Whether a row that differs, at this place of the log, has the innermost block go back to its begin: the block has
/// added it, is within another one, and a restart is left.
pub(crate) fn may_restart(state: &Data, row: usize) -> bool
    ensures { result ≡ may_restart (core state.now phases.Idle) row }
{
    let open = state.frames.depth();
    if open < 2 {
        return false;
    }
    let begun = state.frames.reads();
    if row < begun {
        return false;
    }
    state.restarted < state.limits.restarts
}

/// The clock was loaded once a row of the innermost block's own part was found different: where it has not moved, that
/// block goes back to its begin, and reads at this clock from then on.
pub fn round_decided(state: &mut Data, row: usize, seen: u64) -> Turn
    requires sound { IsSound state.old (phases.RoundBack (aim_of state.old) row) }
    requires fits { state.old.clock ≤ seen }
    ensures { StepTurns state.old (phases.RoundBack (aim_of state.old) row) seen result state.new }
{
    let is_steady = seen == state.clock;
    state.clock = seen;
    if is_steady {
        Turn::End(restart(state, row))
    } else {
        try_round(state, state.cause)
    }
}

/// The innermost block goes back to just after its begin, since the word of this row differs, and reads at the last clock
/// from then on. Takes no memory.
fn restart(state: &mut Data, row: usize) -> CallEnd
    requires may { MayRenew state.old row }
    ensures { IsRenewed state.old row result state.new }
{
    let logged = state.log.row(row);
    let kept = state.frames.reads();
    state.frames.renew(&mut state.arena);
    state.log.cut(kept);
    state.snapshot = state.clock;
    state.restarted += 1;
    CallEnd::Restarted(logged.word)
}
