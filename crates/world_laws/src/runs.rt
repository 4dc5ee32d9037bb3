//! What attempts, schedules and single players come to.

ghost use Rattle.std.specs.Prelude.{◌≡◌, ◌⊎◌, ℕ, List};
ghost use Rattle.tx_attempts.specs.declared.attempt.Attempt.{Attempt};
ghost use Rattle.tx_attempts.specs.Attempts.{pairs_of};
ghost use Rattle.tx_attempts.specs.Opacity.{IsOpaque};
ghost use Rattle.tx_attempts.specs.Beginnings.{IsBeginningOf};
ghost use Rattle.world_laws.specs.Isolation.{went_on_from};
ghost use Rattle.world_laws.specs.ShownAlone.{OnePlayerShows, TakesLead};
ghost use Rattle.world_laws.specs.ScheduleDecides.{BeginningDecides, EventDecides, EntriesDecide, RunDecides, SameShows, ScheduleDecides};

use tx_player::Player;

/// Isolation: of two opaque attempts, in any two worlds, whose players, properties and arenas at the begin are equal,
/// which read equal memories and tell of inner blocks that ran again at the same calls and from equal arenas, where as many
/// blocks may be open at once, the shorter list of calls with replies is a beginning of the longer one. Does nothing.
pub fn isolation<P: Player>()
    ensures { (p : P) (a b : Attempt) (deepest n m : ℕ) (memory : List ℕ)
        → IsOpaque P.Player deepest p a n memory → IsOpaque P.Player deepest p b m memory
        → a.arena ≡ b.arena → a.props ≡ b.props → went_on_from a.restarts ≡ went_on_from b.restarts
        → IsBeginningOf (pairs_of a) (pairs_of b) ⊎ IsBeginningOf (pairs_of b) (pairs_of a) }
{}

/// A schedule decides everything: two worlds of equal beginning, led on by the same entries with no memory refused,
/// have equal attempts, bytes, clock, events and endings. The other clauses are its steps, for worlds that were led on
/// in turn by events, by schedules and by actors that ran to their ends. Does nothing.
pub fn decided<P: Player>()
    ensures begins { BeginningDecides P.Player }
    ensures goes { EventDecides P.Player }
    ensures led { EntriesDecide P.Player }
    ensures ran_out { RunDecides P.Player }
    ensures shows { SameShows P.Player }
    ensures decided { ScheduleDecides P.Player }
{}

/// One player: a world that begins with a single player, and is led on by any schedule, shows what the player does
/// alone on the memory that was handed in: all of it once its actor has ended, and a beginning of it before, or where
/// the actor found no memory. An actor that is run out takes events in a row, which are entries of a schedule. Does
/// nothing.
pub fn one_player<P: Player>()
    ensures shows { OnePlayerShows P.Player }
    ensures took { TakesLead P.Player }
{}
