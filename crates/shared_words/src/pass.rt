//! A thread's part of the words.

ghost use Rattle.std.specs.Prelude.{◌≡◌, ◌+◌, [], not};

use crate::view::View;
use atomic_table::Seat;

/// What one thread knows of the words, and its share of the right to close them. It has no bytes but what tells whether
/// it holds the clock, how often it can be split, and the latest clock that it knows of.
#[derive(Drop)]
pub struct Pass {
    pub(crate) seat: Seat<u8, View>,
    pub(crate) left: u8,
    pub(crate) busy: bool,
    /// The latest clock that it knows of.
    pub(crate) high: u64,
    ghost counted: { seat.me.0.share ≡ left + 1 },
    ghost flagged: { seat.me.0.holds ≡ busy },
    ghost latest: { seat.me.0.high ≡ high },
    ghost slotless: { seat.me.1 ≡ [] },
}

impl Pass {
    ghost use Rattle.shared_words.specs.Passes.{view_of};

    /// Whether it does not hold the clock.
    pub fn idle(&self) -> bool
        ensures { result ≡ not (view_of self.now).holds }
    {
        !self.busy
    }

    /// How often it can be split: 127 times at first.
    pub fn left(&self) -> u8
        ensures { (view_of self.now).share ≡ result + 1 }
    {
        self.left
    }

    /// The latest clock that it has seen, or a pass that was joined to it, or the one that it was split from: half of it is how
    /// many commits it knows of.
    pub fn high(&self) -> u64
        ensures { result ≡ (view_of self.now).high }
    {
        self.high
    }
}
