//! What a worker leaves.

use shared_words::Pass;
use tx_attempts::Attempts;
use tx_runs::End;

/// What a thread's run came to. The thread's type is open, so that nothing here waits for the proof of one.
#[derive(Drop)]
pub struct Worked<T> {
    /// The number that it was given.
    pub thread: u8,
    /// The tries that got past their begin, in order.
    pub attempts: Attempts,
    pub end: End,
    /// The pass, which does not hold the clock; the thread itself where its last transaction stays irrevocable and open.
    pub pass: Result<Pass, T>,
}
