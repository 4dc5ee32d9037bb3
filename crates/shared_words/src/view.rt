//! What one thread knows of the cells.

use itm_types::Step;
use std::collections::LinkedList;

/// What one thread knows of the cells. It exists in proofs alone: no value of it is made.
pub struct View {
    /// The words at the beginning.
    pub base: LinkedList<u64>,
    /// The commits that it has seen, each a list of words with the values stored in them.
    pub seen: LinkedList<LinkedList<(u64, u64)>>,
    /// Of two views that were joined last, the commits that the one had seen that had seen fewer.
    pub shorter: LinkedList<LinkedList<(u64, u64)>>,
    /// The positions of its own commits.
    pub mine: LinkedList<u64>,
    /// The latest clock that it has seen, or a view that was joined to it.
    pub high: u64,
    /// The clock as it saw it last.
    pub clock: u64,
    /// The words that it has loaded since, with their values.
    pub fresh: LinkedList<(u64, u64)>,
    /// Each word that it has loaded while it did not hold the clock, with the value and the number of commits that it had
    /// seen then.
    pub met: LinkedList<(u64, u64, u64)>,
    /// Whether it holds the clock.
    pub holds: bool,
    /// The words that it has stored since it took the clock.
    pub done: LinkedList<(u64, u64)>,
    /// The atomic steps that it has taken, each with the value that it found, or 0 for a store.
    pub steps: LinkedList<(Step, u64)>,
    /// How many of them loaded the clock or tried to take it.
    pub looks: u64,
    /// Its share of the right to close: all shares together are 128.
    pub share: u64,
}
