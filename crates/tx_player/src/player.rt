//! What a thread's code has to offer to whatever runs its transactions.

use itm_types::{Call, Reply};
use std::alloc::AllocError;

/// Makes the calls of one thread, one at a time, and learns the reply to each. It can go back to each open block: one that
/// keeps only so many of them has no more calls once it is told of another.
pub trait Player: Drop {
    ghost use Rattle.std.specs.Prelude.{◌≡◌, ◌<◌, ℕ, IfOk, Option};
    ghost use Rattle.itm_types.specs.declared.call.Call.{Call};
    ghost use Rattle.itm_types.specs.declared.call.Reply.{Reply};
    ghost use Rattle.tx_player.specs.Laws.{Laws};

    /// The call that comes next, or that there is none.
    ghost next_call: { Self → Option Call };

    /// The player once its call has this reply.
    ghost answered: { Self → Reply → Self };

    /// While a block is open: the player as it called the accepted begin of the outermost one.
    ghost restarted: { Self → Self };

    /// Of the open block at this depth, the outermost one at 1: the player just after its begin was answered, as that of a
    /// block that is entered.
    ghost at_block: { Self → ℕ → Self };

    /// A bound on the calls that are still to come.
    ghost calls_left: { Self → ℕ };

    /// How many blocks it has open.
    ghost depth: { Self → ℕ };

    /// The next call, or `None` where the player has ended.
    fn next(&self) -> Option<Call>
        ensures { result ≡ next_call self.now };

    /// Takes the reply to its call.
    fn answer(&mut self, reply: &Reply)
        ensures { self.new ≡ answered self.old reply.now };

    /// While a block is open: goes back to where it called the accepted begin of the outermost one.
    fn restart(&mut self)
        ensures { self.new ≡ restarted self.old };

    /// Goes back to just after the begin of the innermost open block was answered, as that of a block that is entered. Takes
    /// no memory.
    fn restart_block(&mut self)
        requires { 0 < depth self.old }
        ensures { self.new ≡ at_block self.old (depth self.old) };

    /// An equal player.
    fn copy(&self) -> Result<Self, AllocError>
        ensures { IfOk result (λ p. p ≡ self.now) };

    ghost laws: { Laws next_call answered restarted at_block calls_left depth };
}
