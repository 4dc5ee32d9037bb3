//! Room that is made in an open attempt before a call goes to its engine.

ghost use Rattle.std.specs.Prelude.{◌≡◌, ◌+◌, ◌^◌, ◌<◌, ◌≤◌, OnOk, OnErr, length, unwrap_or};
ghost use Rattle.user_actions.specs.Actions.{total};
ghost use Rattle.norec_core.specs.Core.{irrevocable_room};
ghost use Rattle.norec_core.specs.RestartingCalls.{arena_ahead};
ghost use Rattle.tx_attempts.specs.Kept.{reserved};
ghost use Rattle.tx_runs.specs.OpenAttempts.{HasPlacesFor, LacksPlaces};

use itm_types::Call;
use norec_engine::Engine;
use std::alloc::AllocError;
use tx_runs::{OpenAttempt, ahead_of};

/// Makes room for what the call leaves: for its entry, for the block that it begins, for its actions, for what it asks for,
/// and for a block that runs again by it. A read, a write and a commit leave no block and no action and ask for nothing, but
/// for a read by which a block may run again.
#[inline(always)]
pub(crate) fn prepare(
    attempt: &mut OpenAttempt,
    engine: &Engine,
    call: &Call,
) -> Result<(), AllocError>
    requires records { length attempt.old.row.restarts < 2 ^ 32 }
    ensures calls { OnOk result (attempt.new.row ≡ record attempt.old.row { calls = reserved attempt.old.row.calls (unwrap_or (irrevocable_room engine.now call.now) 0 + 1) }) }
    ensures places { OnOk result (HasPlacesFor call.now (total engine.now.actions) (unwrap_or (irrevocable_room engine.now call.now) 0) (arena_ahead engine.now call.now) attempt.new) }
    ensures err { OnErr result (attempt.new.row ≡ attempt.old.row) }
    ensures short { OnErr result (LacksPlaces call.now (total engine.now.actions) (unwrap_or (irrevocable_room engine.now call.now) 0) (arena_ahead engine.now call.now) attempt.old) }
    ensures points { attempt.new.points ≡ attempt.old.points }
    ensures kept { (attempt.old.ends ≤ attempt.new.ends) × (attempt.old.cancels ≤ attempt.new.cancels) × (attempt.old.deep ≤ attempt.new.deep) }
{
    let arena = engine.arena_ahead(call);
    if arena.is_none() {
        if let Call::Read { .. } | Call::Write { .. } | Call::Commit = call {
            return attempt.prepare(call, 0, 0, None);
        }
    }
    let ahead = ahead_of(engine.irrevocable_room(call));
    attempt.prepare(call, engine.actions(), ahead, arena)
}
