//! The attempts of a world, one after the other.

use crate::actor::{Actor, attempt};
use tx_attempts::Attempt;
use tx_player::Player;

/// Attempts of a world: some that have ended, in the order in which they did, and then the open ones of some actors, by
/// actor.
#[derive(Clone, Copy)]
pub struct Attempts<'a, P> {
    pub(crate) ended: &'a [Attempt],
    pub(crate) actors: &'a [Actor<P>],
}

impl<'a, P: Player> Iterator for Attempts<'a, P> {
    ghost use Rattle.std.specs.Iterator.{YieldsFirstRef, item_count};
    ghost use Rattle.norec_world.specs.Listed.{left_of};

    type Item = &'a Attempt;

    ghost next_gives = { YieldsFirstRef left_of };

    ghost remaining = { item_count left_of };

    fn next(&mut self) -> Option<&'a Attempt> {
        if let Some((first, rest)) = self.ended.split_first() {
            self.ended = rest;
            return Some(first);
        }
        while let Some((actor, rest)) = self.actors.split_first() {
            self.actors = rest;
            if let Some(row) = attempt(actor) {
                return Some(row);
            }
        }
        None
    }
}
