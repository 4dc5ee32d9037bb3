//! One actor.

use itm_types::{Call, Step};
use tx_runs::{End, PlayerRun};

/// What an actor does next.
#[derive(Drop)]
pub enum Status {
    /// Its player is to be asked for a call.
    Ready,
    /// The call waits for the step.
    Waits { call: Call, step: Step },
    /// Nothing any more.
    Ended(End),
}

/// A player with its engine. The engine's type is open, so that nothing here waits for the proof of one.
#[derive(Drop)]
pub struct Actor<P, E> {
    pub run: PlayerRun<P>,
    pub engine: E,
    pub status: Status,
}
