//! What came of an event, as it is drawn.

ghost use Rattle.std.specs.Prelude.{◌≡◌, ◌≤◌, drop, length};
ghost use Rattle.std.specs.Option.{option_copied};
ghost use Rattle.world_rules.specs.World.{attempt_at};
ghost use Rattle.step_picture.specs.Marks.{call_came, calls_after, came_of, open_came};

use crate::mark::Came;
use norec_world::{Told, World};
use tx_attempts::Attempt;
use tx_player::Player;

/// What came of a call that ended no attempt.
fn open_came(had: Option<usize>, calls: usize, active: Option<&Attempt>) -> Came
    ensures { result ≡ open_came had calls (option_copied active.entry) }
{
    if active.is_none() {
        return Came::NotBegun;
    }
    match had {
        None => Came::Begun,
        Some(had) => {
            if calls <= had {
                Came::Restarted(calls)
            } else {
                Came::Replied
            }
        }
    }
}

/// What came of a call that is over.
fn call_came(had: Option<usize>, calls: usize, ended: &[Attempt], active: Option<&Attempt>) -> Came
    ensures { result ≡ call_came had calls ended.now (option_copied active.entry) }
{
    match ended.first() {
        Some(attempt) => Came::Ended(attempt.outcome, attempt.at),
        None => open_came(had, calls, active),
    }
}

/// How many calls of the thread's open attempt have a reply; 0 where none is open.
pub(crate) fn calls_after<P: Player>(world: &World<P>, thread: u8) -> usize
    ensures { result ≡ calls_after (attempt_at world.now thread) }
{
    match world.open_attempt(thread) {
        Some(attempt) => attempt.calls.as_slice().len(),
        None => 0,
    }
}

/// What came of the thread's event. Before it so many calls of its open attempt had a reply, where it had one, and so many
/// attempts had ended.
pub(crate) fn came_of<P: Player>(
    world: &World<P>,
    thread: u8,
    told: Told,
    had: Option<usize>,
    first: usize,
) -> Came
    requires { first ≤ length world.now.attempts.ended }
    ensures { result ≡ came_of told.goes_on had told.calls (drop first world.now.attempts.ended) (attempt_at world.now thread) }
{
    if told.goes_on {
        return Came::GoesOn;
    }
    let ended = world.ended_from(first);
    let active = world.open_attempt(thread);
    call_came(had, told.calls, ended, active)
}
