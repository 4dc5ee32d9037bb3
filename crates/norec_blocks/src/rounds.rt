//! Validation rounds: the value log is compared with the memory between two equal even clocks.

ghost use Rattle.norec_core.specs.Phases as phases;
ghost use Rattle.std.specs.Prelude.{◌≤◌, length, Option, None, Some};
ghost use Rattle.norec_data.specs.View.{aim_of};
ghost use Rattle.norec_turns.specs.InPhases.{IsSound};
ghost use Rattle.norec_turns.specs.Between.{in_rows, InRows};
ghost use Rattle.norec_data.specs.Turns.{TurnEndsSo};
ghost use Rattle.norec_core.specs.Order.{row_stage};
ghost use Rattle.norec_turns.specs.Moves.{GoesTo, StepGoesTo, StepTurns};

use crate::commits::exchange;
use crate::restarts::may_restart;
use norec_core::Answer;
use norec_data::{CallEnd, Cause, Data, Pending, Turn, roll_back};
use norec_turns::try_round;

/// The clock was loaded at the start of a round.
pub fn round_started(state: &mut Data, seen: u64) -> Turn
    requires sound { IsSound state.old (phases.RoundStart (aim_of state.old)) }
    requires fits { state.old.clock ≤ seen }
    ensures { StepGoesTo state.old (phases.RoundStart (aim_of state.old)) seen result state.new }
{
    state.clock = seen;
    if seen % 2 == 0 {
        next_row(state, 0)
    } else {
        try_round(state, state.cause)
    }
}

/// The next row of a round, or the clock again.
fn next_row(state: &mut Data, row: usize) -> Turn
    requires rows { InRows state.old (aim_of state.old) row }
    ensures goes { GoesTo (in_rows state.old (aim_of state.old) row) (row_stage (length state.old.log.rows) (aim_of state.old) row) None state.old result state.new }
    ensures waits { (end : Option Answer) → TurnEndsSo end result state.new }
{
    if row < state.log.len() {
        Turn::Wait(Pending::RoundRow(row))
    } else {
        Turn::Wait(Pending::RoundEnd)
    }
}

/// A logged word was loaded in a round.
pub fn row_seen(state: &mut Data, row: usize, seen: u64) -> Turn
    requires sound { IsSound state.old (phases.RoundRow (aim_of state.old) row) }
    ensures { StepGoesTo state.old (phases.RoundRow (aim_of state.old) row) seen result state.new }
{
    // (what holds of every log)
    let _rows = state.log.len();
    let logged = state.log.row(row);
    if logged.value == seen {
        next_row(state, row + 1)
    } else if may_restart(state, row) {
        state.got = Some(seen);
        Turn::Wait(Pending::RoundBack(row))
    } else {
        roll_back(state);
        state.changed = Some(logged.word);
        Turn::End(CallEnd::Conflict)
    }
}

/// The clock was loaded at the end of a round: where it has not moved, it is the new snapshot.
pub fn round_ended(state: &mut Data, seen: u64) -> Turn
    requires sound { IsSound state.old (phases.RoundEnd (aim_of state.old)) }
    requires fits { state.old.clock ≤ seen }
    ensures { StepTurns state.old (phases.RoundEnd (aim_of state.old)) seen result state.new }
{
    let is_steady = seen == state.clock;
    state.clock = seen;
    if is_steady {
        state.snapshot = seen;
        match state.cause {
            Cause::Read => Turn::Wait(Pending::Load),
            Cause::Take => exchange(state, state.taking),
        }
    } else {
        try_round(state, state.cause)
    }
}
