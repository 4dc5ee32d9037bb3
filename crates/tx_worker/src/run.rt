//! A whole run.

ghost use Rattle.std.specs.Prelude.{◌≡◌, ◌≤◌, false};
ghost use Rattle.itm_types.specs.declared.limits.TheConstants.{MAX_RETRIES};
ghost use Rattle.norec_core.specs.Core.{in_transaction};
ghost use Rattle.shared_words.specs.Passes.{Owns};
ghost use Rattle.worker_rules.specs.Works.{Works};

use crate::gate::Gate;
use crate::sink::ActionSink;
use crate::worked::Worked;
use crate::worker::Worker;
use itm_runtime::Thread;
use shared_words::Words;
use std::alloc::Global;
use tx_player::Player;
use tx_runs::PlayerRun;

/// Runs a player's transactions on a thread that has none open, up to its end: each call that it makes, and each block
/// again from its begin, at most `retries` times, where it came to a conflict or found the clock held. Where an inner block
/// of the thread goes back to its begin alone, so does the player.
///
/// The gate is asked before each call, and told after it, but for those that come in an irrevocable transaction; where it
/// shuts, the thread gives up as it stands, and no action runs. The sink is handed each action once its call is answered.
/// `NoMemory` where memory was refused: the open transaction is rolled back then, but for an irrevocable one.
pub fn work<P: Player, G: Gate, A: ActionSink>(
    alloc: Global,
    words: &Words,
    thread: Thread,
    player: P,
    number: u8,
    retries: u32,
    gate: &G,
    sink: &A,
) -> Worked
    requires own { Owns words.now thread.pass }
    requires outside { in_transaction thread.engine ≡ false }
    requires depth { P.depth player ≡ 0 }
    requires few { retries ≤ MAX_RETRIES }
    ensures { Works P.Player words.now thread player number retries G.answers result }
{
    // (what holds of every thread: it stands as its pass's view says, and the number of its restarts fits 32 bits)
    let _clock = thread.clock();
    let _limit = thread.restarts();
    let mut worker = Worker {
        run: PlayerRun::new(alloc, number, retries, player),
        thread,
        ended: Vec::new(alloc),
        calls: 0,
    };
    loop {
        if let Some(end) = worker.call_next(words, gate, sink) {
            return worker.finish(end);
        }
    }
}
