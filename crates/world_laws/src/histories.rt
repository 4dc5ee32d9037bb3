//! The histories of worlds: each of them is legal, and what they tell of threads that found no memory.

ghost use Rattle.std.specs.Prelude.{◌≡◌};
ghost use Rattle.world_rules.specs.Commits.{CommitsInOrder};
ghost use Rattle.world_rules.specs.Headline.{AreOpaque};
ghost use Rattle.world_rules.specs.Tied.{AreTied};
ghost use Rattle.world_rules.specs.World.{World, observed};
ghost use Rattle.tx_attempts.specs.Outrun.{AreDisturbed, AreOutrun};
ghost use Rattle.tx_history.specs.Bounds.{AreLimited};
ghost use Rattle.tx_history.specs.declared.history.Version.{Version};
ghost use Rattle.tx_history.specs.Legal.{IsLegal};
ghost use Rattle.tx_history.specs.Versions.{depth_of};
ghost use Rattle.world_laws.specs.Limits.{HasArenaWidths, IsLimitedWorld};
ghost use Rattle.world_laws.specs.Starved.{FedLeaveNoneOpen};
ghost use Rattle.world_laws.specs.Told.{told_of};

use tx_player::Player;

/// What is told of any world whose commits are in order, whose attempts are opaque, and whose engines and words go with
/// them, in a version that lets as many blocks be open at once, is a legal history: by the plain
/// machine alone, its committed attempts run one after the other by position, and each other one runs alone on what so
/// many first commits left. Does nothing.
pub fn legal<P: Player>()
    ensures { (version : Version) (w : World P) → depth_of version ≡ w.limits.depth → CommitsInOrder w
        → AreOpaque P.Player (observed w) → AreTied P.Player w → IsLegal (told_of version w) }
{}

/// The clock of its last line has moved on from where each attempt had read that ended in a conflict. Does nothing.
pub fn outrun<P: Player>()
    ensures { (version : Version) (w : World P) → AreOpaque P.Player (observed w) → AreOutrun (told_of version w).clock (told_of version w).attempts }
{}

/// Each attempt in it reads at least as many commits past its begin as it tells of blocks that ran again. Does nothing.
pub fn disturbed<P: Player>()
    ensures { (version : Version) (w : World P) → AreOpaque P.Player (observed w) → AreDisturbed (told_of version w).attempts }
{}

/// It is also within the limits of its version, where the world is, and where its players access their arenas in 1, 2, 4 or 8
/// bytes. Does nothing.
pub fn limited<P: Player>()
    ensures { HasArenaWidths P.Player → (version : Version) (w : World P) → AreOpaque P.Player (observed w)
        → IsLimitedWorld version w → AreLimited (told_of version w) }
{}

/// Of an actor that found no memory only an irrevocable attempt stays open. So in the history of a world in which no such actor
/// has one, each attempt of a thread that found no memory has ended. Does nothing.
pub fn none_open<P: Player>()
    ensures { FedLeaveNoneOpen P.Player }
{}
